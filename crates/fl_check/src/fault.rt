//! What can be wrong with a tree.

ghost use Rattle.std.specs.Prelude.{◌≡◌};
ghost use Rattle.fl_check.specs.Faults.{rule_number, fault_number, fault_offset};
ghost use Rattle.fl_check.specs.declared.fault.CheckFault.TheVariants.{Memory};

use std::alloc::{AllocError, AllocFailed};
use std::fmt;
use thiserror::Error;

/// A rule on names, types, messages and limits.
#[derive(Clone, Copy, Debug, PartialEq, Eq)]
pub enum Rule {
    /// E10: the name of a type is taken by another, or built in.
    TypeNameTaken,
    /// E11: no type of this name is built in or declared before.
    UnknownType,
    /// E12: the name of a message is taken; an rpc takes two.
    MessageNameTaken,
    /// E13: an argument, field or enumerator of this name stands before in the same list.
    NameTwice,
    /// E14: a capability, which no message carries.
    Capability,
    /// E15: an enum without enumerators or a struct without fields.
    NothingInIt,
    /// E16: a count of elements that isn't 1 to 1,024.
    BadCount,
    /// E17: a type of more than 4,096 bytes, one that nests structs and fixed arrays more than 16
    /// deep, or fixed arrays alone more than 7 deep.
    TooBig,
    /// E18: a string where a type of fixed size must be.
    NotFixed,
    /// E19: more than 256 declared types or messages, or 32 fields or arguments, or a name of an rpc
    /// of more than 55 bytes.
    TooMany,
    /// E20: the bound of a string or sized array isn't 1 to 4,096.
    BadBound,
    /// E21: a message whose payload may pass 32,768 bytes.
    TooLong,
}

impl Rule {
    /// The rule's number, 10 to 21.
    pub fn number(self) -> u8
        ensures number { result ≡ rule_number self }
    {
        match self {
            Rule::TypeNameTaken => 10,
            Rule::UnknownType => 11,
            Rule::MessageNameTaken => 12,
            Rule::NameTwice => 13,
            Rule::Capability => 14,
            Rule::NothingInIt => 15,
            Rule::BadCount => 16,
            Rule::TooBig => 17,
            Rule::NotFixed => 18,
            Rule::TooMany => 19,
            Rule::BadBound => 20,
            Rule::TooLong => 21,
        }
    }

    // The rule in words, as faults show it.
    fn words(self) -> &'static str {
        match self {
            Rule::TypeNameTaken => "this type's name is taken",
            Rule::UnknownType => "no type of this name is declared before",
            Rule::MessageNameTaken => "this message's name is taken",
            Rule::NameTwice => "this name stands twice in one list",
            Rule::Capability => "messages carry no capabilities",
            Rule::NothingInIt => "nothing is in this type",
            Rule::BadCount => "a count is 1 to 1,024",
            Rule::TooBig => "this type has over 4,096 bytes, or nests too deep",
            Rule::NotFixed => "a string can't stand here",
            Rule::TooMany => "this is one too many",
            Rule::BadBound => "a bound is 1 to 4,096",
            Rule::TooLong => "this message's payload may pass 32,768 bytes",
        }
    }
}

impl fmt::Display for Rule {
    fn fmt<W: fmt::Write>(&self, f: &mut fmt::Formatter<W>) -> fmt::Result {
        f.write_str(self.words())
    }
}

/// Why a tree stands for no interface.
#[derive(Clone, Copy, Debug, PartialEq, Eq, Error)]
pub enum CheckFault {
    /// E10 to E21: the rule that is broken, and the byte offset of the word or number at which it is.
    #[error("{rule}")]
    Broken { rule: Rule, at: usize },
    /// E99: out of memory.
    #[error("out of memory")]
    Memory,
}

impl CheckFault {
    /// The fault's number: 10 to 21, or 99.
    pub fn number(self) -> u8
        ensures number { result ≡ fault_number self }
    {
        match self {
            CheckFault::Broken { rule, at: _ } => rule.number(),
            CheckFault::Memory => 99,
        }
    }

    /// The byte offset at which a rule is broken; none where memory is refused.
    pub fn offset(self) -> Option<usize>
        ensures offset { result ≡ fault_offset self }
    {
        match self {
            CheckFault::Broken { rule: _, at } => Some(at),
            CheckFault::Memory => None,
        }
    }
}

impl From<AllocError> for CheckFault {
    ghost from_gives = { λ _ e. e ≡ Memory };

    fn from(_error: AllocError) -> CheckFault {
        CheckFault::Memory
    }
}

impl<T: Drop> From<AllocFailed<T>> for CheckFault {
    ghost from_gives = { λ _ e. e ≡ Memory };

    fn from(_error: AllocFailed<T>) -> CheckFault {
        CheckFault::Memory
    }
}
