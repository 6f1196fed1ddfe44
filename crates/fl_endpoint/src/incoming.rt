//! What an end takes: fragments of calls, and the replies by rule to those that are whole.

ghost use Rattle.std.specs.Prelude.{◌≡◌, true, IfOk};
ghost use Rattle.fl_interface.specs.Interface.{interface_of};
ghost use Rattle.fl_value_data.specs.Value.{call_of};
ghost use Rattle.fl_value_data.specs.Fits.{fits_of};
ghost use Rattle.fl_compile.specs.Programs.{program_of};
ghost use Rattle.fl_machine.specs.Receiving.{HoldsParts};
ghost use Rattle.fl_endpoint.specs.View.{reply_to};
ghost use Rattle.fl_endpoint.specs.Rules.{rules_of};
ghost use Rattle.fl_endpoint.specs.Accounts.{AreRules};
ghost use Rattle.fl_endpoint.specs.Stored.{QueuesReply};

use crate::outgoing::QueuedCall;
use crate::rules::ReplyRules;
use fl_base::MsgNo;
use fl_compact_calls::CompactCall;
use fl_compile::Program;
use fl_layout::{Plans, fragment_count};
use std::alloc::{AllocError, Global};

// How many fragments the longest call has.
pub(crate) fn most_fragments(plans: &Plans) -> usize
    ensures enough { HoldsParts plans.now.plan (interface_of plans.now.interface) result }
{
    let mut most = 0;
    for msg in 0..plans.interface.messages.len() {
        most = plans.greatest(MsgNo(msg as u16)).max(most);
    }
    fragment_count(most)
}

// The reply by rule to a call that is whole, if there is one.
pub(crate) fn reply_by_rule(
    alloc: Global,
    program: &Program,
    rules: &ReplyRules,
    call: &CompactCall,
) -> Result<Option<QueuedCall>, AllocError>
    requires rules { AreRules (program_of program.now).interface (rules_of rules.now.replies.items) }
    requires fits { fits_of (program_of program.now).interface (call_of call.now) ≡ true }
    ensures reply { IfOk result (λ reply.
        QueuesReply (program_of program.now) (reply_to (rules_of rules.now.replies.items) (call_of call.now)) reply) }
{
    let Some(reply) = rules.reply_to(call.msg()) else {
        return Ok(None);
    };
    match QueuedCall::of_compact(alloc, &mut Vec::new(alloc), program, call, reply) {
        Ok(queued) => Ok(Some(queued)),
        Err(fault) => Err(fault),
    }
}
