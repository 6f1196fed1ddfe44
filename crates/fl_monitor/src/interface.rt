//! The monitors' interface.

ghost use Rattle.std.specs.Prelude.{◌≡◌, true, map, IfOk};
ghost use Rattle.fl_lex.specs.Words.{is_name};
ghost use Rattle.fl_interface.specs.Interface.{interface_of, message_of, arg_type_of, fixed, sized, scalar as scalar_type};
ghost use Rattle.fl_interface.specs.declared.interface.Scalar.TheVariants.{Uint8};
ghost use Rattle.fl_monitor.specs.Intermon.{intermon};

use fl_interface::{ArgType, FixedType, Interface, Message, Scalar, Word};
use std::alloc::{AllocError, Global};

// A name.
fn word(alloc: Global, text: &[u8]) -> Result<Word, AllocError>
    requires { is_name text.now ≡ true }
    ensures word { IfOk result (λ w. w.bytes.items ≡ text.now) }
{
    let bytes = Vec::from_slice(alloc, text)?;
    Ok(Word { bytes })
}

// An argument that is a number.
fn number(scalar: Scalar) -> ArgType
    ensures kind { arg_type_of result ≡ fixed (scalar_type scalar) }
{
    ArgType::Fixed(FixedType::Scalar(scalar))
}

// A route: up to 16 core numbers.
fn route() -> ArgType
    ensures kind { arg_type_of result ≡ sized 16 (scalar_type Uint8) }
{
    ArgType::Sized(16, FixedType::Scalar(Scalar::Uint8))
}

// A message of that name with these arguments.
fn message(alloc: Global, name: &[u8], args: Vec<ArgType>) -> Result<Message, AllocError>
    requires { is_name name.now ≡ true }
    ensures message { IfOk result (λ m. message_of m ≡ record { name = name.now; args = map arg_type_of args.items }) }
{
    let name = word(alloc, name)?;
    Ok(Message { name, args })
}

// The messages, by number.
fn messages(alloc: Global) -> Result<Vec<Message>, AllocError>
    ensures messages { IfOk result (λ v. map message_of v.items ≡ intermon.messages) }
{
    let route = vec![in alloc;
        number(Scalar::Uint16),
        number(Scalar::Uint32),
        number(Scalar::Iref),
        route(),
    ]?;
    let open = message(alloc, b"open_circuit", route)?;
    let circuit = vec![in alloc; number(Scalar::Uint16)]?;
    let opened = message(alloc, b"circuit_opened", circuit)?;
    let reason = vec![in alloc; number(Scalar::Uint16), number(Scalar::Uint32)]?;
    let refused = message(alloc, b"circuit_refused", reason)?;
    Ok(vec![in alloc; open, opened, refused]?)
}

/// The monitors' interface.
///
/// # Errors
/// Out of memory (E99).
pub(crate) fn interface(alloc: Global) -> Result<Interface, AllocError>
    ensures interface { IfOk result (λ i. interface_of i ≡ intermon) }
{
    let name = word(alloc, b"intermon")?;
    let messages = messages(alloc)?;
    Ok(Interface { name, messages })
}
