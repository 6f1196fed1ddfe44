//! The compiler.

ghost use Rattle.std.specs.Prelude.{◌≡◌, true, map, IfOk};
ghost use Rattle.std.specs.List.{list_all};
ghost use Rattle.fl_interface.specs.Interface.{arg_type_of, interface_of, message_of};
ghost use Rattle.fl_interface.specs.Limits.{is_message_within};
ghost use Rattle.fl_interface.specs.Counts.{argument_words_fit};
ghost use Rattle.fl_compile.specs.Codes.{compiled_code, compiled_codes, ArePrepared};
ghost use Rattle.fl_compile.specs.Programs.{program_of};

use crate::arguments::arguments_code;
use crate::order::in_order;
use crate::program::{Compiled, MessageCode, Program};
use fl_interface::{Interface, Message};
use fl_stub::{Code, Column, VerifiedCode, law_one_structure, verify};
use fl_stub_steps::{PreparedCode, prepare};
use fl_value_data::PlanNo;
use std::alloc::{AllocError, Global};
use std::sync::Arc;

// The code of a message for a column, which is verified.
fn compile_message(
    alloc: Global,
    message: &Message,
    plan: PlanNo,
    column: Column,
) -> Result<VerifiedCode, AllocError>
    requires within { is_message_within (message_of message.now) ≡ true }
    requires words { list_all argument_words_fit (map arg_type_of message.now.args.items) ≡ true }
    ensures code { IfOk result (λ code. code ≡ compiled_code column plan (message_of message.now)) }
{
    let arguments = in_order(alloc, plan, &message.args)?;
    let ops = arguments_code(alloc, column, &arguments)?;
    law_one_structure();
    match verify(Code { ops }) {
        Some(code) => Ok(code),
        None => unreachable!(),
    }
}

// Both codes of a message.
fn compile_both(alloc: Global, message: &Message, plan: PlanNo) -> Result<MessageCode, AllocError>
    requires within { is_message_within (message_of message.now) ≡ true }
    requires words { list_all argument_words_fit (map arg_type_of message.now.args.items) ≡ true }
    ensures codes { IfOk result (λ codes. codes ≡ compiled_codes plan (message_of message.now)) }
{
    let send = compile_message(alloc, message, plan, Column::Send)?;
    let receive = compile_message(alloc, message, plan, Column::Receive)?;
    Ok(MessageCode { send, receive })
}

// Both codes of each message.
fn compile_messages(
    alloc: Global,
    interface: &Interface,
    plan: PlanNo,
) -> Result<Vec<MessageCode>, AllocError>
    ensures codes { IfOk result (λ v. v.items ≡ map (compiled_codes plan) (map message_of interface.now.messages.items)) }
{
    let mut messages = Vec::with_capacity(alloc, interface.messages.len())?;
    for message in &interface.messages {
        messages.push(compile_both(alloc, message, plan)?)?;
    }
    Ok(messages)
}

// The send code of each message as larger steps.
fn prepare_messages(
    alloc: Global,
    messages: &[MessageCode],
) -> Result<Vec<PreparedCode>, AllocError>
    ensures prepared { IfOk result (λ v. ArePrepared messages.now v.items) }
{
    let mut prepared = Vec::with_capacity(alloc, messages.len())?;
    for message in messages {
        prepared.push(prepare(alloc, &message.send)?)?;
    }
    Ok(prepared)
}

/// Compiles an interface under a plan.
///
/// # Errors
/// Out of memory (E99), and nothing else: every interface has its code.
pub fn compile(alloc: Global, interface: &Interface, plan: PlanNo) -> Result<Program, AllocError>
    ensures interface { IfOk result (λ p. (program_of p).interface ≡ interface_of interface.now) }
    ensures plan { IfOk result (λ p. (program_of p).plan ≡ plan) }
{
    let plans = fl_layout::plan(alloc, interface, plan)?;
    let messages = compile_messages(alloc, &plans.interface, plan)?;
    let prepared = prepare_messages(alloc, &messages)?;
    let compiled = Compiled {
        plans,
        messages,
        prepared,
    };
    Ok(Program {
        compiled: Arc::new(alloc, compiled)?,
        plan,
    })
}
