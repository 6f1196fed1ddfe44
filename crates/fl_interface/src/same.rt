//! Whether two interfaces are equal.

ghost use Rattle.std.specs.Prelude.{◌≡◌, ◌↔◌, IsTrue, map};
ghost use Rattle.fl_interface.specs.Interface.{type_of, arg_type_of, message_of, interface_of};
ghost use Rattle.fl_interface.specs.SameTypes.{same_arguments};

use crate::interface::{ArgType, FixedType, Interface, Message};

impl Interface {
    /// Whether the two have the same name, and the same messages by name and arguments' types, in
    /// the same order.
    pub fn same(&self, other: &Interface) -> bool
        ensures exact { IsTrue result ↔ interface_of self.now ≡ interface_of other.now }
    {
        same_bytes(&self.name.bytes, &other.name.bytes)
            && same_messages(&self.messages, &other.messages)
    }
}

fn same_bytes(ones: &[u8], others: &[u8]) -> bool
    ensures exact { IsTrue result ↔ ones.now ≡ others.now }
{
    ones == others
}

fn same_messages(ones: &[Message], others: &[Message]) -> bool
    ensures exact { IsTrue result ↔ map message_of ones.now ≡ map message_of others.now }
{
    if ones.len() != others.len() {
        return false;
    }
    for (one, other) in ones.iter().zip(others) {
        if !same_message(one, other) {
            return false;
        }
    }
    true
}

fn same_message(one: &Message, other: &Message) -> bool
    ensures exact { IsTrue result ↔ message_of one.now ≡ message_of other.now }
{
    same_bytes(&one.name.bytes, &other.name.bytes) && same_args(&one.args, &other.args)
}

/// Whether two messages' arguments have the same types, in the same order.
pub fn same_args(ones: &[ArgType], others: &[ArgType]) -> bool
    ensures exact { IsTrue result ↔ map arg_type_of ones.now ≡ map arg_type_of others.now }
    ensures test { result ≡ same_arguments (map arg_type_of ones.now) (map arg_type_of others.now) }
{
    same_each(ones, others)
}

fn same_each(ones: &[ArgType], others: &[ArgType]) -> bool
    ensures exact { IsTrue result ↔ map arg_type_of ones.now ≡ map arg_type_of others.now }
{
    if ones.len() != others.len() {
        return false;
    }
    for (one, other) in ones.iter().zip(others) {
        if !same_arg(one, other) {
            return false;
        }
    }
    true
}

fn same_arg(one: &ArgType, other: &ArgType) -> bool
    ensures exact { IsTrue result ↔ arg_type_of one.now ≡ arg_type_of other.now }
{
    match (one, other) {
        (ArgType::Fixed(a), ArgType::Fixed(b)) => same_type(a, b),
        (ArgType::Text(a), ArgType::Text(b)) => a == b,
        (ArgType::Sized(max_a, a), ArgType::Sized(max_b, b)) => max_a == max_b && same_type(a, b),
        (ArgType::Fixed(_), _) | (ArgType::Text(_), _) | (ArgType::Sized(_, _), _) => false,
    }
}

#[cycle(same)]
fn same_type(one: &FixedType, other: &FixedType) -> bool
    ensures exact { IsTrue result ↔ type_of one.now ≡ type_of other.now }
{
    match one {
        FixedType::Scalar(a) => match other {
            FixedType::Scalar(b) => a == b,
            FixedType::Enumeration(_) | FixedType::Structure(_) | FixedType::Array(_, _) => false,
        },
        FixedType::Enumeration(a) => match other {
            FixedType::Enumeration(b) => a == b,
            FixedType::Scalar(_) | FixedType::Structure(_) | FixedType::Array(_, _) => false,
        },
        FixedType::Structure(a) => match other {
            FixedType::Structure(b) => same_types(a, b),
            FixedType::Scalar(_) | FixedType::Enumeration(_) | FixedType::Array(_, _) => false,
        },
        FixedType::Array(count_a, a) => match other {
            FixedType::Array(count_b, b) => count_a == count_b && same_type(a, b),
            FixedType::Scalar(_) | FixedType::Enumeration(_) | FixedType::Structure(_) => false,
        },
    }
}

#[cycle(same)]
fn same_types(ones: &[FixedType], others: &[FixedType]) -> bool
    ensures exact { IsTrue result ↔ map type_of ones.now ≡ map type_of others.now }
{
    if ones.len() != others.len() {
        return false;
    }
    for (one, other) in ones.iter().zip(others) {
        if !same_type(one, other) {
            return false;
        }
    }
    true
}
