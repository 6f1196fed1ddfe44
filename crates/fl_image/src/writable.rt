//! Whether an image has room for an interface's enums.

ghost use Rattle.std.specs.Prelude.{◌≡◌, map};
ghost use Rattle.std.specs.List.{list_all};
ghost use Rattle.fl_interface.specs.Interface.{type_of, arg_type_of, message_of, interface_of, fields_from};
ghost use Rattle.fl_image.specs.Image.{has_short_enums, have_short_enums, argument_has_short_enums, message_has_short_enums, is_writable};

use fl_interface::{ArgType, FixedType, Interface, Message};

/// Whether the enums in a type have at most 65,535 enumerators.
#[cycle(enums)]
fn has_short_enums(fixed: &FixedType) -> bool
    ensures exact { result ≡ has_short_enums (type_of fixed.now) }
{
    match fixed {
        FixedType::Scalar(_) => true,
        FixedType::Enumeration(count) => *count <= 65535,
        FixedType::Structure(fields) => have_short_enums(fields),
        FixedType::Array(_, element) => has_short_enums(element),
    }
}

/// Whether the enums in each of these types have.
#[cycle(enums)]
fn have_short_enums(fields: &[FixedType]) -> bool
    ensures exact { result ≡ have_short_enums (fields_from (map type_of fields.now)) }
{
    for field in fields {
        if !has_short_enums(field) {
            return false;
        }
    }
    true
}

/// Whether the enums in an argument's type have.
fn argument_has_short_enums(argument: &ArgType) -> bool
    ensures exact { result ≡ argument_has_short_enums (arg_type_of argument.now) }
{
    match argument {
        ArgType::Fixed(fixed) => has_short_enums(fixed),
        ArgType::Text(_) => true,
        ArgType::Sized(_, element) => has_short_enums(element),
    }
}

/// Whether the enums in the types of these arguments have.
fn arguments_have_short_enums(arguments: &[ArgType]) -> bool
    ensures exact { result ≡ list_all argument_has_short_enums (map arg_type_of arguments.now) }
{
    for argument in arguments {
        if !argument_has_short_enums(argument) {
            return false;
        }
    }
    true
}

/// Whether the enums in the types of these messages' arguments have.
fn messages_have_short_enums(messages: &[Message]) -> bool
    ensures exact { result ≡ list_all message_has_short_enums (map message_of messages.now) }
{
    for message in messages {
        if !arguments_have_short_enums(&message.args) {
            return false;
        }
    }
    true
}

/// Whether an image can spell an interface: its enums have at most 65,535 enumerators.
///
/// Every interface of a text is so, and every one that [`read_image`](crate::read_image) gave. One that a program puts together
/// may have longer enums: ask before [`write_image`](crate::write_image).
pub fn is_writable(interface: &Interface) -> bool
    ensures exact { result ≡ is_writable (interface_of interface.now) }
{
    messages_have_short_enums(&interface.messages)
}
