//! Programs: an interface, and the send and receive code of each of its messages.

ghost use Rattle.std.specs.Prelude.{◌≡◌, true, map, IfOk};
ghost use Rattle.fl_interface.specs.Interface.{interface_of, message_of};
ghost use Rattle.fl_interface.specs.Counts.{interface_words_fit};
ghost use Rattle.fl_compile.specs.Codes.{compiled_codes, ArePrepared};

use fl_base::MsgNo;
use fl_interface::Interface;
use fl_layout::Plans;
use fl_stub::VerifiedCode;
use fl_stub_steps::PreparedCode;
use fl_value_data::PlanNo;
use std::alloc::{AllocError, Global};
use std::sync::Arc;

/// The send and receive code of a message.
#[derive(Drop)]
pub(crate) struct MessageCode {
    pub send: VerifiedCode,
    pub receive: VerifiedCode,
}

/// What a program and its duplicates share: the layout of the interface, with a copy of it, and the code of each of its
/// messages.
#[derive(Drop)]
pub(crate) struct Compiled {
    pub plans: Plans,
    pub messages: Vec<MessageCode>,
    // Of each message its send code as larger steps.
    pub prepared: Vec<PreparedCode>,
}

/// An interface compiled under a plan: a copy of it, its layout, and verified send and receive code for each of its messages.
/// Only [`compile`](crate::compile) makes one; its duplicates share what it made.
#[derive(Drop)]
pub struct Program {
    pub(crate) compiled: Arc<Compiled, Global>,
    pub(crate) plan: PlanNo,
    ghost words: { interface_words_fit (interface_of compiled.value.plans.interface) ≡ true },
    ghost same: { compiled.value.plans.plan ≡ plan },
    ghost prepared: { ArePrepared compiled.value.messages.items compiled.value.prepared.items },
    ghost exact: { compiled.value.messages.items ≡ map (compiled_codes plan) (map message_of compiled.value.plans.interface.messages.items) },
}

impl Program {
    ghost use Rattle.std.specs.Prelude.{◌≡◌, true, map, IfOk, IfSome, IfNone, None};
    ghost use Rattle.std.specs.Option.{option_map};
    ghost use Rattle.fl_interface.specs.Interface.{interface_of};
    ghost use Rattle.fl_interface.specs.Counts.{interface_words_fit};
    ghost use Rattle.fl_stub.specs.declared.op.Column.TheVariants.{Send, Receive};
    ghost use Rattle.fl_compile.specs.Programs.{program_of, code_in, Prepares};

    /// The plan under which the interface was compiled: the rule for the order of arguments in every payload.
    /// Both ends of a binding need the same.
    pub fn plan(&self) -> PlanNo
        ensures plan { result ≡ (program_of self.now).plan }
    {
        self.plan
    }

    /// The interface that was compiled, the program's own copy: the messages that it has code for, and the
    /// types of their arguments.
    pub fn interface(&self) -> &Interface
        ensures interface { interface_of result.now ≡ (program_of self.now).interface }
        ensures words { interface_words_fit (interface_of result.now) ≡ true }
    {
        &self.compiled.plans.interface
    }

    /// The layout of the interface under the plan.
    pub fn plans(&self) -> &Plans
        ensures interface { interface_of result.now.interface ≡ (program_of self.now).interface }
        ensures plan { result.now.plan ≡ (program_of self.now).plan }
    {
        &self.compiled.plans
    }

    /// The send code of a message; none where the interface has no such message.
    pub fn send_code(&self, msg: MsgNo) -> Option<&VerifiedCode>
        ensures exact { option_map (λ code. code.now) result ≡ code_in Send (program_of self.now) msg.0 }
    {
        match self.compiled.messages.get(usize::from(msg.0)) {
            Some(message) => Some(&message.send),
            None => None,
        }
    }

    /// The send code of a message as larger steps, which mean its receive code as well; none where the interface has no
    /// such message.
    pub fn prepared_code(&self, msg: MsgNo) -> Option<&PreparedCode>
        ensures means { IfSome result (λ prepared. Prepares (code_in Send (program_of self.now) msg.0) prepared.now) }
        ensures receives { IfSome result (λ prepared.
            Prepares (code_in Receive (program_of self.now) msg.0) prepared.now) }
        ensures none { IfNone result (code_in Send (program_of self.now) msg.0 ≡ None) }
    {
        match self.compiled.prepared.get(usize::from(msg.0)) {
            Some(prepared) => Some(prepared),
            None => None,
        }
    }

    /// The receive code of a message; none where the interface has no such message.
    pub fn receive_code(&self, msg: MsgNo) -> Option<&VerifiedCode>
        ensures exact { option_map (λ code. code.now) result ≡ code_in Receive (program_of self.now) msg.0 }
    {
        match self.compiled.messages.get(usize::from(msg.0)) {
            Some(message) => Some(&message.receive),
            None => None,
        }
    }

    /// An equal program, which shares this one's memory and takes none.
    ///
    /// # Errors
    /// The owners of that memory are too many to be counted (E99), and nothing else.
    pub fn duplicate(&self, _alloc: Global) -> Result<Program, AllocError>
        ensures equal { IfOk result (λ copy. program_of copy ≡ program_of self.now) }
    {
        let compiled = Arc::try_clone(&self.compiled)?;
        Ok(Program {
            compiled,
            plan: self.plan,
        })
    }
}
