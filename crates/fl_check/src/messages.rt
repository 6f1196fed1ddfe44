//! From declared messages to a list of an interface's.

ghost use Rattle.std.specs.Prelude.{◌≡◌, ◌++◌, ◌∷◌, [], true, map, OnOk, IfOk};
ghost use Rattle.std.specs.List.{list_all};
ghost use Rattle.fl_lex.specs.Words.{is_name};
ghost use Rattle.fl_interface.specs.Interface.{message_of};
ghost use Rattle.fl_check.specs.Views.{declared_message};
ghost use Rattle.fl_check.specs.Named.{is_named};

use fl_interface::{ArgType, Message, Word};
use indexmap::IndexMap;
use std::alloc::{AllocError, Global};

/// The messages of these names and arguments, in order.
pub fn list_messages(
    alloc: Global,
    declared: IndexMap<Vec<u8>, Vec<ArgType>>,
) -> Result<Vec<Message>, AllocError>
    requires named { list_all is_named declared.entries ≡ true }
    ensures same { IfOk result (λ ms. map message_of ms.items ≡ map declared_message declared.entries) }
{
    let mut messages = Vec::with_capacity(alloc, declared.len())?;
    for (name, args) in declared {
        list_message(&mut messages, name, args)?;
    }
    Ok(messages)
}

/// Adds a message to others.
fn list_message(
    messages: &mut Vec<Message>,
    name: Vec<u8>,
    args: Vec<ArgType>,
) -> Result<(), AllocError>
    requires word { is_name name.items ≡ true }
    ensures more { OnOk result (map message_of messages.new.items ≡ map message_of messages.old.items ++ declared_message (name, args) ∷ []) }
{
    messages.push(Message {
        name: Word { bytes: name },
        args,
    })?;
    Ok(())
}
