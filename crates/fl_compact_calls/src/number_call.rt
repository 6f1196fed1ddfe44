//! A call of one number in memory of its own.

ghost use Rattle.std.specs.Prelude.{◌≡◌, IfOk, length};
ghost use Rattle.fl_value_data.specs.Value.{call_of};
ghost use Rattle.fl_compact_calls.specs.Held.{one_number};

use fl_base::MsgNo;
use fl_value_data::{Call, Value};
use std::alloc::{AllocError, Global};
use std::marker::Model;

/// A call of one number, whose memory is used for one after another.
#[derive(Drop)]
pub struct NumberCall {
    call: Call,
}

impl Model for NumberCall {
    ghost use Rattle.std.specs.Prelude.{ℕ, ◌≡◌, length};

    // its message
    ghost Value = { ℕ };

    ghost view = { λ c. c.call.msg.0 };

    ghost invariant = { λ c. length c.call.args.items ≡ 1 };
}

impl NumberCall {
    /// A call of the first message, with 0.
    ///
    /// # Errors
    /// Out of memory.
    pub fn new(alloc: Global) -> Result<NumberCall, AllocError>
        ensures first { IfOk result (λ c. c ≡ 0) }
    {
        let mut args = Vec::with_capacity(alloc, 1)?;
        args.push_reserved(Value::Int(0));
        let msg = MsgNo(0);
        Ok(NumberCall {
            call: Call { msg, args },
        })
    }

    /// The call of a message and a number. Takes no memory.
    #[inline(always)]
    pub fn set(&mut self, msg: MsgNo, number: u64) -> &Call
        ensures call { call_of result.now ≡ record { msg = msg.0; args = one_number number } }
    {
        self.call.msg = msg;
        self.call.args[0] = Value::Int(i128::from(number));
        &self.call
    }
}
