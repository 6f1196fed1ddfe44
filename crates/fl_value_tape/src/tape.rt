//! A call's packed tape.

ghost use Rattle.std.specs.Prelude.{◌≡◌, IfOk};
ghost use Rattle.fl_interface.specs.Interface.{interface_of};
ghost use Rattle.fl_value_data.specs.Value.{call_of};
ghost use Rattle.fl_value_tape.specs.Packed.{packed_of};

use crate::packing::push_arguments;
use fl_interface::Interface;
use fl_value_data::{Call, PlanNo};
use std::alloc::{AllocError, Global};
use std::marker::Model;

/// The packed tape of a call: its numbers and lengths, side by side.
#[derive(Debug, Drop)]
pub struct Tape {
    bytes: Vec<u8>,
}

impl Model for Tape {
    ghost use Rattle.std.specs.Prelude.{ℕ, List};

    ghost Value = { List ℕ };

    ghost view = { λ t. t.bytes.items };
}

impl Tape {
    /// The packed tape of a call.
    ///
    /// # Errors
    /// Out of memory (E99), and nothing else.
    pub fn pack(
        alloc: Global,
        call: &Call,
        interface: &Interface,
        plan: PlanNo,
        room: usize,
    ) -> Result<Tape, AllocError>
        ensures packed { IfOk result (λ tape. tape ≡ packed_of plan (interface_of interface.now) (call_of call.now)) }
    {
        let mut bytes = Vec::with_capacity(alloc, room)?;
        if let Some(message) = interface.messages.get(usize::from(call.msg.0)) {
            push_arguments(&mut bytes, plan, &message.args, &call.args)?;
        }
        Ok(Tape { bytes })
    }

    /// The bytes.
    pub fn as_slice(&self) -> &[u8]
        ensures { result.now ≡ self.now }
    {
        &self.bytes
    }

    /// The bytes, in the tape's own memory.
    pub fn into_bytes(self) -> Vec<u8>
        ensures { result.items ≡ self }
    {
        self.bytes
    }
}
