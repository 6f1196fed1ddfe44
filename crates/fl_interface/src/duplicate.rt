//! Copies of interfaces: names and lists are copied, and types are shared.

ghost use Rattle.std.specs.Prelude.{◌≡◌, map, IfOk};
ghost use Rattle.fl_interface.specs.Interface.{type_of, arg_type_of, message_of, interface_of};

use crate::interface::{ArgType, FixedType, Interface, Message};
use crate::word::Word;
use std::alloc::{AllocError, Global};
use std::sync::Arc;

impl Interface {
    /// An equal interface, whose types share with this one's what they are made of.
    ///
    /// # Errors
    /// Out of memory (E99).
    pub fn duplicate(&self, alloc: Global) -> Result<Interface, AllocError>
        ensures equal { IfOk result (λ copy. interface_of copy ≡ interface_of self.now) }
    {
        Ok(Interface {
            name: duplicate_word(alloc, &self.name)?,
            messages: duplicate_messages(alloc, &self.messages)?,
        })
    }
}

fn duplicate_word(alloc: Global, word: &Word) -> Result<Word, AllocError>
    ensures equal { IfOk result (λ copy. copy.bytes.items ≡ word.now.bytes.items) }
{
    let bytes = word.bytes.to_vec(alloc)?;
    Ok(Word { bytes })
}

fn duplicate_messages(alloc: Global, messages: &[Message]) -> Result<Vec<Message>, AllocError>
    ensures equal { IfOk result (λ copy. map message_of copy.items ≡ map message_of messages.now) }
{
    let mut copies = Vec::with_capacity(alloc, messages.len())?;
    for message in messages {
        copies.push(duplicate_message(alloc, message)?)?;
    }
    Ok(copies)
}

fn duplicate_message(alloc: Global, message: &Message) -> Result<Message, AllocError>
    ensures equal { IfOk result (λ copy. message_of copy ≡ message_of message.now) }
{
    Ok(Message {
        name: duplicate_word(alloc, &message.name)?,
        args: duplicate_args(alloc, &message.args)?,
    })
}

fn duplicate_args(alloc: Global, args: &[ArgType]) -> Result<Vec<ArgType>, AllocError>
    ensures equal { IfOk result (λ copy. map arg_type_of copy.items ≡ map arg_type_of args.now) }
{
    let mut copies = Vec::with_capacity(alloc, args.len())?;
    for arg in args {
        copies.push(duplicate_arg(arg)?)?;
    }
    Ok(copies)
}

fn duplicate_arg(arg: &ArgType) -> Result<ArgType, AllocError>
    ensures equal { IfOk result (λ copy. arg_type_of copy ≡ arg_type_of arg.now) }
{
    match arg {
        ArgType::Fixed(fixed) => Ok(ArgType::Fixed(duplicate_type(fixed)?)),
        ArgType::Text(max) => Ok(ArgType::Text(*max)),
        ArgType::Sized(max, element) => Ok(ArgType::Sized(*max, duplicate_type(element)?)),
    }
}

/// An equal type, which shares its fields and its elements' type with the one that is copied.
///
/// # Errors
/// A type that is shared 2^63 times (E99), and nothing else.
pub fn duplicate_type(fixed: &FixedType) -> Result<FixedType, AllocError>
    ensures equal { IfOk result (λ copy. type_of copy ≡ type_of fixed.now) }
{
    match fixed {
        FixedType::Scalar(scalar) => Ok(FixedType::Scalar(*scalar)),
        FixedType::Enumeration(count) => Ok(FixedType::Enumeration(*count)),
        FixedType::Structure(fields) => Ok(FixedType::Structure(Arc::try_clone(fields)?)),
        FixedType::Array(count, element) => Ok(FixedType::Array(*count, Arc::try_clone(element)?)),
    }
}
