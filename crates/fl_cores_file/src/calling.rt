//! Lines that hand in calls and set reply rules.

ghost use Rattle.std.specs.Prelude.{◌≡◌, ◌<◌, map, vec_len};
ghost use Rattle.std.specs.Vec.{vec_capacity};
ghost use Rattle.fl_model.specs.Given.{changed_at};
ghost use Rattle.fl_value_data.specs.Value.{call_of};
ghost use Rattle.fl_cores_file.specs.Draft.{use_at, with_use, change_use, is_for_calls, is_for_rules};
ghost use Rattle.fl_cores_file.specs.Draft.{call_fault, rule_fault, fault_at, makes_call, sets_rule, makes_calls, with_job};
ghost use Rattle.fl_cores_file.specs.Jobs.{calls};
ghost use Rattle.fl_cores_file.specs.Verdicts.{Comes, goes_on};
ghost use Rattle.fl_cores_file.specs.Views.{use_from, bound_of, planned_of, draft_of};

use crate::draft::{Draft, DraftBinding, DraftInterface, EndUse};
use crate::job::Job;
use crate::stop::CoresLineFault;
use fl_base::{EndId, MsgNo, Side, faults};
use fl_compact_calls::CompactCall;
use fl_interface::same_args;
use fl_value_data::{Call, fits};

impl EndUse {
    fn is_for_calls(self) -> bool
        ensures same { result ≡ is_for_calls (use_from self) }
    {
        matches!(self, EndUse::Calls)
    }

    fn is_for_rules(self) -> bool
        ensures same { result ≡ is_for_rules (use_from self) }
    {
        matches!(self, EndUse::Rules)
    }
}

impl DraftBinding {
    fn use_at(&self, side: Side) -> EndUse
        ensures same { use_from result ≡ use_at side (bound_of self.now) }
    {
        match side {
            Side::Client => self.client,
            Side::Server => self.server,
        }
    }

    #[inline(always)]
    fn set_use(&mut self, side: Side, what: EndUse)
        ensures put { bound_of self.new ≡ with_use side (use_from what) (bound_of self.old) }
    {
        match side {
            Side::Client => self.client = what,
            Side::Server => self.server = what,
        }
    }
}

// The fault for which a call is refused at an end of a binding of an interface.
#[inline(always)]
fn call_fault(
    side: Side,
    call: &Call,
    binding: &DraftBinding,
    planned: &DraftInterface,
) -> Option<u8>
    ensures same { result ≡ call_fault side (call_of call.now) (bound_of binding.now) (planned_of planned.now) }
{
    if usize::from(call.msg.0) >= planned.interface.messages.as_slice().len() {
        return Some(faults::NO_SUCH_MESSAGE);
    }
    if !fits(call, &planned.interface) {
        return Some(faults::DOES_NOT_FIT);
    }
    if binding.use_at(side).is_for_rules() {
        return Some(faults::CALLS_AND_RULES);
    }
    None
}

// The fault for which a reply rule is refused there.
fn rule_fault(
    side: Side,
    message: MsgNo,
    answer: MsgNo,
    binding: &DraftBinding,
    planned: &DraftInterface,
) -> Option<u8>
    ensures same { result ≡ rule_fault side message.0 answer.0 (bound_of binding.now) (planned_of planned.now) }
{
    let messages = planned.interface.messages.as_slice();
    let Some(one) = messages.get(usize::from(message.0)) else {
        return Some(faults::NO_SUCH_MESSAGE);
    };
    let Some(other) = messages.get(usize::from(answer.0)) else {
        return Some(faults::NO_SUCH_MESSAGE);
    };
    if !same_args(&one.args, &other.args) {
        return Some(faults::DOES_NOT_FIT);
    }
    if binding.use_at(side).is_for_calls() || binding.use_at(side.other()).is_for_rules() {
        return Some(faults::CALLS_AND_RULES);
    }
    None
}

#[inline(always)]
fn put_use_at(bindings: &mut Vec<DraftBinding>, end: EndId, what: EndUse)
    ensures put { map bound_of bindings.new.items ≡ changed_at end.binding (with_use end.side (use_from what)) (map bound_of bindings.old.items) }
{
    match bindings.get_mut(end.binding) {
        None => {}
        Some(bound) => bound.set_use(end.side, what),
    }
}

impl<'a> Draft<'a> {
    #[inline(always)]
    fn put_use(&mut self, end: EndId, what: EndUse)
        ensures put { draft_of self.new ≡ change_use end (use_from what) (draft_of self.old) }
    {
        put_use_at(&mut self.bindings, end, what);
    }

    // The fault for which a call is refused.
    #[inline(always)]
    fn call_fault(&self, end: EndId, call: &Call) -> Option<u8>
        ensures same { result ≡ fault_at end (call_fault end.side (call_of call.now)) (draft_of self.now) }
    {
        let Some(binding) = self.bindings.get(end.binding) else {
            return Some(faults::WRONG_NAME);
        };
        let Some(planned) = self.interfaces.get(binding.interface) else {
            return Some(faults::WRONG_NAME);
        };
        call_fault(end.side, call, binding, planned)
    }

    // The fault for which a reply rule is refused.
    fn rule_fault(&self, end: EndId, message: MsgNo, answer: MsgNo) -> Option<u8>
        ensures same { result ≡ fault_at end (rule_fault end.side message.0 answer.0) (draft_of self.now) }
    {
        let Some(binding) = self.bindings.get(end.binding) else {
            return Some(faults::WRONG_NAME);
        };
        let Some(planned) = self.interfaces.get(binding.interface) else {
            return Some(faults::WRONG_NAME);
        };
        rule_fault(end.side, message, answer, binding, planned)
    }

    // An end makes a call: a job more, for which there is room.
    #[inline(always)]
    fn put_call(&mut self, end: EndId, call: CompactCall)
        requires room { vec_len self.old.jobs < vec_capacity self.old.jobs }
        ensures put { draft_of self.new ≡ with_job (calls end (call_of call)) (change_use end makes_calls (draft_of self.old)) }
    {
        put_use_at(&mut self.bindings, end, EndUse::Calls);
        self.settled = true;
        self.jobs.push_reserved(Job::Call { end, call });
    }

    // The same of a call whose arguments are taken out of the list that they were read in, but where they are one number.
    #[inline(always)]
    fn add_call(&mut self, end: EndId, call: &mut Call) -> Result<(), CoresLineFault>
        requires room { vec_len self.old.jobs < vec_capacity self.old.jobs }
        ensures put { Comes result (draft_of self.new)
            (goes_on (with_job (calls end (call_of call.old)) (change_use end makes_calls (draft_of self.old)))) }
    {
        let call = CompactCall::take(self.alloc, call)?;
        self.put_call(end, call);
        Ok(())
    }

    // Where a call is accepted, its arguments are taken out of the list that it was read in, but where they are one number. Room for
    // the job is made first, so that the job is made in its place.
    pub(crate) fn call(&mut self, end: EndId, call: &mut Call) -> Result<(), CoresLineFault>
        ensures comes { Comes result (draft_of self.new) (makes_call end (call_of call.old) (draft_of self.old)) }
    {
        if let Some(number) = self.call_fault(end, call) {
            return Err(CoresLineFault::Refused(number));
        }
        self.jobs.reserve(1)?;
        self.add_call(end, call)
    }

    pub(crate) fn reply(
        &mut self,
        end: EndId,
        message: MsgNo,
        answer: MsgNo,
    ) -> Result<(), CoresLineFault>
        ensures comes { Comes result (draft_of self.new) (sets_rule end message.0 answer.0 (draft_of self.old)) }
    {
        if let Some(number) = self.rule_fault(end, message, answer) {
            return Err(CoresLineFault::Refused(number));
        }
        self.put_use(end, EndUse::Rules);
        self.put_job(Job::Reply {
            end,
            message,
            answer,
        })
    }
}
