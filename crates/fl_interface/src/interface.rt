//! An interface: its name, and for each message its name and its arguments' resolved types. Names of
//! types, fields and arguments, and descriptions, are gone.

ghost use Rattle.std.specs.Prelude.{◌≡◌, true, map};
ghost use Rattle.fl_interface.specs.Types.{message_of};
ghost use Rattle.fl_interface.specs.Limits.{is_within_limits};
ghost use Rattle.fl_interface.specs.Counts.{messages_words_fit};

use crate::word::Word;
use std::sync::Arc;

/// A scalar type, by its name in the language, where all letters are small. `Bool` and `Char` take 1 byte,
/// `Iref` takes 4, `Uintptr`, `Intptr`, `Size` and `Errval` take 8, each other one as many bits as its name
/// says.
#[derive(Clone, Copy, Debug, PartialEq, Eq)]
pub enum Scalar {
    Uint8,
    Int8,
    Bool,
    Char,
    Uint16,
    Int16,
    Uint32,
    Int32,
    Iref,
    Uint64,
    Int64,
    Uintptr,
    Intptr,
    Size,
    Errval,
}

/// A type whose values all have one size. Its fields and its elements' type are shared: each use of a declared type's name has
/// the same ones, so a copy takes no memory and no walk.
#[derive(Debug, Drop)]
pub enum FixedType {
    /// A scalar.
    Scalar(Scalar),
    /// An enum of so many enumerators; a value is an enumerator's place, from 0.
    Enumeration(u32),
    /// A struct of these fields, in order.
    Structure(Arc<Vec<FixedType>>),
    /// A fixed array of so many elements.
    Array(u32, Arc<FixedType>),
}

/// The type of an argument: only here may a value's size vary.
#[derive(Debug, Drop)]
pub enum ArgType {
    /// A value of a fixed type.
    Fixed(FixedType),
    /// A string of at most so many bytes.
    Text(u32),
    /// A sized array of at most so many elements.
    Sized(u32, FixedType),
}

/// A message: its name and its arguments' types, in declared order.
#[derive(Debug, Drop)]
pub struct Message {
    /// Its name: that of a `message`, or an rpc's with `_call` or `_response` behind it.
    pub name: Word,
    /// The type of each argument.
    pub args: Vec<ArgType>,
}

/// An interface: its name and its messages, by number. Each one is within the limits: at most 256 messages, no name of
/// two of them, at most 32 arguments a message, no payload over 32,768 bytes, and each type as it may be declared. Each
/// count of enumerators fits a word of 32 bits.
#[derive(Debug, Drop)]
pub struct Interface {
    /// Its own name.
    pub name: Word,
    /// Its messages, each at the place that is its number, from 0.
    pub messages: Vec<Message>,
    pub ghost within: { is_within_limits (record { name = name.bytes.items; messages = map message_of messages.items }) ≡ true },
    pub ghost counted: { messages_words_fit (map message_of messages.items) ≡ true },
}
