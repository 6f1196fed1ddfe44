//! What is declared before a place of the tree.

ghost use Rattle.std.specs.Prelude.{◌≡◌, ◌≤◌, true};
ghost use Rattle.std.specs.List.{list_all};
ghost use Rattle.fl_check.specs.Named.{is_named};

use crate::fault::CheckFault;
use crate::measured::Measured;
use crate::messages::list_messages;
use fl_interface::{ArgType, Message};
use indexmap::IndexMap;
use std::alloc::{AllocError, Global};

/// A declared type, which is never too big.
#[derive(Drop)]
pub struct KnownType {
    pub measured: Measured,
    ghost small: { measured.size ≤ 4096 },
    ghost shallow: { measured.depth ≤ 16 },
    ghost few_arrays: { measured.arrays ≤ 7 },
}

/// The types and messages that are declared so far, by their names and in order.
#[derive(Drop)]
pub struct Declared<'a> {
    pub types: IndexMap<&'a [u8], KnownType>,
    pub messages: IndexMap<Vec<u8>, Vec<ArgType>>,
    ghost named: { list_all is_named messages.entries ≡ true },
}

impl<'a> Declared<'a> {
    ghost use Rattle.std.specs.Prelude.{◌≡◌, ◌++◌, ◌∷◌, [], map, OnOk, IfOk, IfErr, option_map, length, false};
    ghost use Rattle.fl_interface.specs.Interface.{type_of, arg_type_of, message_of};
    ghost use Rattle.fl_check.specs.Known.{nothing_declared, declared_as};
    ghost use Rattle.fl_interface.specs.Limits.{is_among};
    ghost use Rattle.fl_check.specs.Places.{type_names, message_names};
    ghost use Rattle.fl_check.specs.Views.{before_of};
    ghost use Rattle.fl_lex.specs.Words.{is_name};
    ghost use Rattle.fl_check.specs.declared.fault.CheckFault.TheVariants.{Memory};

    pub fn new(alloc: Global) -> Declared<'a>
        ensures nothing { before_of result ≡ nothing_declared }
    {
        Declared {
            types: IndexMap::new(alloc),
            messages: IndexMap::new(alloc),
        }
    }

    /// The declared type of a name.
    pub fn find(&self, name: &[u8]) -> Option<&KnownType>
        ensures exact { option_map (λ k. type_of k.now.measured.fixed) result ≡ declared_as (before_of self.now).types name.now }
    {
        self.types.get(name)
    }

    pub fn has_type(&self, name: &[u8]) -> bool
        ensures exact { result ≡ is_among (type_names (before_of self.now)) name.now }
    {
        self.types.contains_key(name)
    }

    pub fn has_message(&self, name: &[u8]) -> bool
        ensures exact { result ≡ is_among (message_names (before_of self.now)) name.now }
    {
        self.messages.contains_key(name)
    }

    /// So many types are declared.
    pub fn count_types(&self) -> usize
        ensures exact { result ≡ length (before_of self.now).types }
    {
        self.types.len()
    }

    /// So many messages are declared.
    pub fn count_messages(&self) -> usize
        ensures exact { result ≡ length (before_of self.now).messages }
    {
        self.messages.len()
    }

    /// Adds a type of a name that no declared type has.
    pub fn push_type(&mut self, name: &'a [u8], known: KnownType) -> Result<(), AllocError>
        requires new { is_among (type_names (before_of self.old)) name.now ≡ false }
        ensures types { OnOk result ((before_of self.new).types ≡ (before_of self.old).types
            ++ record { name = name.now; type = type_of known.measured.fixed } ∷ []) }
        ensures messages { OnOk result ((before_of self.new).messages ≡ (before_of self.old).messages) }
    {
        self.types.insert(name, known)?;
        Ok(())
    }

    /// Adds a message of a name that no declared message has.
    pub fn push_message(&mut self, name: Vec<u8>, args: Vec<ArgType>) -> Result<(), CheckFault>
        requires new { is_among (message_names (before_of self.old)) name.items ≡ false }
        requires word { is_name name.items ≡ true }
        ensures types { OnOk result ((before_of self.new).types ≡ (before_of self.old).types) }
        ensures messages { OnOk result ((before_of self.new).messages ≡ (before_of self.old).messages
            ++ record { name = name.items; args = map arg_type_of args.items } ∷ []) }
        ensures memory { IfErr result (λ e. e ≡ Memory) }
    {
        self.messages.insert(name, args)?;
        Ok(())
    }

    /// The messages that are declared, in order.
    pub fn into_messages(self, alloc: Global) -> Result<Vec<Message>, AllocError>
        ensures same { IfOk result (λ ms. map message_of ms.items ≡ (before_of self.entry).messages) }
    {
        list_messages(alloc, self.messages)
    }
}
