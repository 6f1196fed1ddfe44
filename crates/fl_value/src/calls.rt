//! Calls from their text, and which call of an interface a text is.

ghost use Rattle.std.specs.Prelude.{Result, Err, ◌≡◌, ℕ, ◌++◌, List, map, option_map, IfOk, IfErr, IfSome, IfNone, true};
ghost use Rattle.fl_interface.specs.Interface.{interface_of, message_of};
ghost use Rattle.fl_value_data.specs.Value.{Datum, TheCall, datum_of};
ghost use Rattle.fl_lex.specs.Words.{is_word_byte, is_name};
ghost use Rattle.fl_value.specs.CallText.{StopsAt, SpellsCall, IsCall};
ghost use Rattle.fl_value.specs.declared.fault.ValueFault.{ValueFault};
ghost use Rattle.fl_value.specs.Fault.{Refuses, WantsMemory};
ghost use Rattle.fl_value.specs.Resolve.{named_from, where_fitting, resolved, message_number, Answers, AnswersUnlessMemory, ComesTo, IsOfMessage, ReadsAs};

use crate::fault::ValueFault;
use crate::reader::read_values;
use crate::scanner::spoken_name;
use crate::tokens::{read_mark, skip_blanks};
use fl_base::MsgNo;
use fl_interface::{Interface, Message, Word};
use fl_lex::{MAX_WORD, count_word_bytes, is_letter};
use fl_value_data::{Call, Value, fits};
use std::alloc::Global;

/// How deep arrays and structs may nest in a call's text; its parentheses don't count.
pub(crate) const MAX_DEPTH: u32 = 20;

/// A call's text, read: the name of a message, and values. No interface has been asked yet.
#[derive(Debug, Drop)]
pub struct CallText {
    /// The message's name.
    pub name: Word,
    /// The values between the parentheses, in order.
    pub args: Vec<Value>,
}

/// The word that the bytes begin with, and what follows it.
pub(crate) fn read_word(bytes: &[u8]) -> Option<(&[u8], &[u8])>
    ensures word { IfSome result (λ r. is_name r.0.now ≡ true) }
    ensures split { IfSome result (λ r. bytes.now ≡ r.0.now ++ r.1.now) }
    ensures stops { IfSome result (λ r. StopsAt is_word_byte r.1.now) }
    ensures none { IfNone result ((word rest : List ℕ) → is_name word ≡ true → StopsAt is_word_byte rest → bytes.now ≡ word ++ rest → ⊥) }
{
    let [first, ..] = bytes else {
        return None;
    };
    if !is_letter(*first) {
        return None;
    }
    let count = count_word_bytes(bytes);
    if count > MAX_WORD {
        return None;
    }
    Some((&bytes[..count], &bytes[count..]))
}

/// The name and the values that a call's text spells: `name(v, v)`, where a value is a number, a
/// text in quotes, `[v, v]` for an array or `{v, v}` for a struct. The name is lent by the bytes.
/// The values stand in the memory of `room`, whose own values are dropped: the list of a call that
/// was done, or a new one.
///
/// # Errors
///
/// `NotACall` where the bytes spell no call, and `Memory`, only where they spell one.
pub fn read_spoken(
    alloc: Global,
    bytes: &[u8],
    room: Vec<Value>,
) -> Result<(&[u8], Vec<Value>), ValueFault>
    ensures found { IfOk result (λ t. SpellsCall bytes.now t.0.now (map datum_of t.1.items)) }
    ensures fault { IfErr result (λ e. Refuses e ((name : List ℕ) (values : List Datum) → SpellsCall bytes.now name values → ⊥)) }
    ensures call { IfErr result (λ e. WantsMemory e (IsCall bytes.now)) }
{
    let Some((name, after)) = read_word(skip_blanks(bytes)) else {
        return Err(ValueFault::NotACall);
    };
    let Some(inside) = read_mark(after, b'(') else {
        return Err(ValueFault::NotACall);
    };
    let (args, end) = match read_values(alloc, inside, b')', MAX_DEPTH, room) {
        Ok(found) => found,
        Err(ValueFault::NotACall) => return Err(ValueFault::NotACall),
        Err(_) => return Err(without_values(bytes)),
    };
    if !skip_blanks(end).is_empty() {
        return Err(ValueFault::NotACall);
    }
    Ok((name, args))
}

// What bytes are refused for where memory ran out for what they spell: they may spell no call.
#[cold]
#[inline(never)]
fn without_values(bytes: &[u8]) -> ValueFault
    ensures fault { Refuses result ((name : List ℕ) (values : List Datum) → SpellsCall bytes.now name values → ⊥) }
    ensures call { WantsMemory result (IsCall bytes.now) }
{
    let Some(_name) = spoken_name(bytes) else {
        return ValueFault::NotACall;
    };
    ValueFault::Memory
}

/// What a call's text spells, as of [`read_spoken`], with a copy of the name.
///
/// # Errors
///
/// `NotACall` where the bytes spell no call, and `Memory`, only where they spell one.
pub fn read_call_text(alloc: Global, bytes: &[u8]) -> Result<CallText, ValueFault>
    ensures found { IfOk result (λ t. SpellsCall bytes.now t.name.bytes.items (map datum_of t.args.items)) }
    ensures fault { IfErr result (λ e. Refuses e ((name : List ℕ) (values : List Datum) → SpellsCall bytes.now name values → ⊥)) }
    ensures call { IfErr result (λ e. WantsMemory e (IsCall bytes.now)) }
{
    let (name, args) = read_spoken(alloc, bytes, Vec::new(alloc))?;
    let bytes = Vec::from_slice(alloc, name)?;
    let name = Word { bytes };
    Ok(CallText { name, args })
}

/// The number of the first message of this name.
fn number_of_message(messages: &[Message], name: &[u8]) -> Option<usize>
    ensures same { result ≡ named_from name.now (map message_of messages.now) 0 }
{
    for (number, message) in messages.iter().enumerate() {
        if message.name.bytes.as_slice() == name {
            return Some(number);
        }
    }
    None
}

/// The call that a text is at an interface.
///
/// # Errors
///
/// `NoSuchMessage` where no message has the name, else `DoesNotFit` where the values don't have the
/// message's types.
pub fn resolve(interface: &Interface, text: CallText) -> Result<Call, ValueFault>
    ensures exact { Answers result (resolved (interface_of interface.now) text.name.bytes.items (map datum_of text.args.items)) }
{
    let Some(msg) = message_of_name(interface, &text.name.bytes) else {
        return Err(ValueFault::NoSuchMessage);
    };
    fitting_call(interface, msg, text.args)
}

// The message of a name.
fn message_of_name(interface: &Interface, name: &[u8]) -> Option<MsgNo>
    ensures same { option_map (λ msg. msg.0) result ≡ message_number (interface_of interface.now) name.now }
{
    let Some(number) = number_of_message(&interface.messages, name) else {
        return None;
    };
    if number >= 65_536 {
        return None;
    }
    Some(MsgNo(number as u16))
}

// The call of a message with these values, where they fit.
fn fitting_call(interface: &Interface, msg: MsgNo, args: Vec<Value>) -> Result<Call, ValueFault>
    ensures exact { Answers result (where_fitting (interface_of interface.now) (record { msg = msg.0; args = map datum_of args.items })) }
{
    let call = Call { msg, args };
    if !fits(&call, interface) {
        return Err(ValueFault::DoesNotFit);
    }
    Ok(call)
}

// The call of a name and values.
fn resolve_named(interface: &Interface, name: &[u8], args: Vec<Value>) -> Result<Call, ValueFault>
    ensures exact { Answers result (resolved (interface_of interface.now) name.now (map datum_of args.items)) }
{
    let Some(msg) = message_of_name(interface, name) else {
        return Err(ValueFault::NoSuchMessage);
    };
    fitting_call(interface, msg, args)
}

// What bytes are refused for at an interface where memory ran out for what they spell: it may have no message of the name.
#[cold]
#[inline(never)]
fn without_call(bytes: &[u8], interface: &Interface) -> ValueFault
    ensures exact { ReadsAs (interface_of interface.now) bytes.now (Err result) }
    ensures message { WantsMemory result (IsOfMessage (interface_of interface.now) bytes.now) }
{
    let Some(name) = spoken_name(bytes) else {
        return ValueFault::NotACall;
    };
    let Some(_msg) = message_of_name(interface, name) else {
        return ValueFault::NoSuchMessage;
    };
    ValueFault::Memory
}

/// The call that the bytes spell at an interface.
///
/// # Errors
///
/// `NotACall` where the bytes spell no call, else `NoSuchMessage`, else `DoesNotFit`, as [`resolve`];
/// and `Memory`, only where the bytes spell a call of a message of the interface.
pub fn read_call(alloc: Global, bytes: &[u8], interface: &Interface) -> Result<Call, ValueFault>
    ensures exact { ReadsAs (interface_of interface.now) bytes.now result }
    ensures only { (answer : Result TheCall ValueFault) → ComesTo (interface_of interface.now) bytes.now answer → AnswersUnlessMemory result answer }
    ensures message { IfErr result (λ e. WantsMemory e (IsOfMessage (interface_of interface.now) bytes.now)) }
{
    match read_spoken(alloc, bytes, Vec::new(alloc)) {
        Ok((name, args)) => resolve_named(interface, name, args),
        Err(ValueFault::NotACall) => Err(ValueFault::NotACall),
        Err(_) => Err(without_call(bytes, interface)),
    }
}
