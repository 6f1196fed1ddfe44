//! The numbers in an interface's types are those of 32-bit words. Each function only reads these numbers.

ghost use Rattle.std.specs.Prelude.{◌≡◌, true, map};
ghost use Rattle.std.specs.List.{list_all};
ghost use Rattle.fl_interface.specs.Interface.{type_of, fields_from, arg_type_of, message_of};
ghost use Rattle.fl_interface.specs.Counts.{words_fit, all_words_fit, argument_words_fit, messages_words_fit};

use crate::interface::{ArgType, FixedType, Message};

#[cycle(words)]
fn type_fits(fixed: &FixedType)
    ensures fits { words_fit (type_of fixed.now) ≡ true }
{
    match fixed {
        FixedType::Scalar(_) => {}
        FixedType::Enumeration(count) => {
            let _count = *count;
        }
        FixedType::Structure(fields) => fields_fit(fields),
        FixedType::Array(_, element) => type_fits(element),
    }
}

#[cycle(words)]
fn fields_fit(fields: &[FixedType])
    ensures fit { all_words_fit (fields_from (map type_of fields.now)) ≡ true }
{
    for field in fields {
        type_fits(field);
    }
}

fn argument_fits(ty: &ArgType)
    ensures fits { argument_words_fit (arg_type_of ty.now) ≡ true }
{
    match ty {
        ArgType::Fixed(fixed) => type_fits(fixed),
        ArgType::Text(max) => {
            let _max = *max;
        }
        ArgType::Sized(max, element) => {
            let _max = *max;
            type_fits(element);
        }
    }
}

fn arguments_fit(types: &[ArgType])
    ensures fit { list_all argument_words_fit (map arg_type_of types.now) ≡ true }
{
    for ty in types {
        argument_fits(ty);
    }
}

/// Every bound and every number of enumerators of some messages is at most 2^32, as an interface's invariant says: who makes
/// an [`crate::Interface`] of messages that were made elsewhere calls this first. It goes over all their types.
pub fn counts_fit(messages: &[Message])
    ensures fit { messages_words_fit (map message_of messages.now) ≡ true }
{
    for message in messages {
        arguments_fit(&message.args);
    }
}
