//! Jobs, checked one by one and joined to the cores that do them.

ghost use Rattle.std.specs.Prelude.{◌≡◌, ◌<◌, ◌≤◌, ◌*◌, false, map, length, Some, None, IfErr, IfNone, OnOk};
ghost use Rattle.fl_base.specs.Ends.{peer};
ghost use Rattle.fl_model.specs.Given.{changed_at};
ghost use Rattle.fl_core.specs.View.{slot_of, client_of};
ghost use Rattle.fl_cores_file.specs.Views.{request_of};
ghost use Rattle.fl_value_data.specs.Value.{call_of};
ghost use Rattle.fl_core.specs.declared.core_job.CoreJob.TheVariants as core;
ghost use Rattle.fl_cores_jobs.specs.EndWork.{end_work_of, end_work_at, is_ruled, with_place};
ghost use Rattle.fl_cores_jobs.specs.Faults.{call_fault_at, rule_fault_at, request_fault, StopsFor};
ghost use Rattle.fl_cores_jobs.specs.Fitting.{NewFit};
ghost use Rattle.fl_cores_jobs.specs.Joined.{HasEndWork};
ghost use Rattle.fl_cores_jobs.specs.State.{joined_of, nothing_joined, with_binding, with_owner, with_job, with_calls};
ghost use Rattle.fl_cores_jobs.specs.State.{SetAt, IsSafe, Opened, CallPlanned, RulePlanned};
ghost use Rattle.fl_cores_jobs.specs.Requested.{AddsOpening};

use crate::end_work::{BindingCores, EndWork};
use crate::opening::ask;
use fl_base::{EndId, MsgNo, Side, faults};
use fl_compact_calls::CompactCall;
use fl_compile::Program;
use fl_core::{BoxedRequest, CoreJob, OpenRequest, slot_of};
use fl_cores_file::{CircuitRequest, CoresLineFault};
use fl_interface::same_args;
use fl_world_refines::Parts;
use std::alloc::{AllocError, Global};

/// The jobs as cores do them, and the bindings that they name.
#[derive(Drop)]
pub struct JoinedJobs {
    /// The jobs that are left to cores, in the order in which they were handed in.
    pub jobs: Vec<CoreJob>,
    /// The bindings that are set up, by their numbers, and behind them those that jobs open, in the order of
    /// these.
    pub bindings: Vec<BindingCores>,
    /// By end, as [`slot_of`] numbers them.
    pub end_works: Vec<EndWork>,
    /// Of each job that opens a binding the core that does it.
    pub owners: Vec<usize>,
}

fn place_at(end_works: &mut Vec<EndWork>, slot: usize, place: usize) -> Result<(), AllocError>
    requires there { slot < length end_works.old.items }
    ensures placed { OnOk result (map end_work_of end_works.new.items ≡ changed_at slot (with_place place) (map end_work_of end_works.old.items)) }
{
    let end_work = &mut end_works[slot];
    end_work.place(place)
}

fn mark_calls(end_works: &mut Vec<EndWork>, slot: usize)
    requires there { slot < length end_works.old.items }
    ensures marked { map end_work_of end_works.new.items ≡ changed_at slot with_calls (map end_work_of end_works.old.items) }
{
    let end_work = &mut end_works[slot];
    end_work.makes_calls = true;
}

// The rule of an end, which has this slot.
fn set_rule(
    end_works: &mut Vec<EndWork>,
    end: EndId,
    msg: MsgNo,
    answer: MsgNo,
) -> Result<(), AllocError>
    requires few { end.binding < 1024 }
    requires there { slot_of end < length end_works.old.items }
    ensures set { OnOk result (SetAt end msg.0 answer.0 (map end_work_of end_works.old.items) (map end_work_of end_works.new.items)) }
{
    let end_work = &mut end_works[slot_of(end)];
    end_work.set_rule(msg, answer)
}

impl JoinedJobs {
    pub(crate) fn new(alloc: Global) -> JoinedJobs
        ensures none { joined_of result ≡ nothing_joined }
    {
        JoinedJobs {
            jobs: Vec::new(alloc),
            bindings: Vec::new(alloc),
            end_works: Vec::new(alloc),
            owners: Vec::new(alloc),
        }
    }

    // A binding more.
    pub(crate) fn add_binding(
        &mut self,
        alloc: Global,
        bound: BindingCores,
    ) -> Result<(), AllocError>
        ensures added { OnOk result (joined_of self.new ≡ with_binding bound (joined_of self.old)) }
    {
        self.bindings.push(bound)?;
        self.end_works.push(EndWork::new(alloc))?;
        self.end_works.push(EndWork::new(alloc))?;
        Ok(())
    }

    // A job more, at an end.
    fn add_job(&mut self, end: EndId, job: CoreJob) -> Result<(), AllocError>
        requires few { end.binding < 1024 }
        requires there { slot_of end < length self.old.end_works.items }
        ensures added { OnOk result (joined_of self.new ≡ with_job end job (joined_of self.old)) }
    {
        let place = self.jobs.len();
        self.jobs.push(job)?;
        place_at(&mut self.end_works, slot_of(end), place)
    }
}

impl JoinedJobs {
    // A binding, and the job that opens it.
    fn add_opening(
        &mut self,
        alloc: Global,
        bound: BindingCores,
        request: OpenRequest,
    ) -> Result<(), AllocError>
        requires few { length self.old.bindings.items < 1024 }
        requires end_works { length (joined_of self.old).end_works ≡ 2 * length self.old.bindings.items }
        ensures added { OnOk result (joined_of self.new ≡ with_job (client_of (length self.old.bindings.items)) (core.Open request)
            (with_owner bound.client (with_binding bound (joined_of self.old)))) }
    {
        let end = EndId {
            binding: self.bindings.as_slice().len(),
            side: Side::Client,
        };
        self.add_binding(alloc, bound)?;
        self.owners.push(bound.client)?;
        let request = BoxedRequest::new(alloc, request)?;
        self.add_job(end, CoreJob::Open(request))
    }

    // A binding that a job opens.
    pub(crate) fn open(
        &mut self,
        alloc: Global,
        parts: &Parts,
        request: &CircuitRequest<'_>,
    ) -> Result<(), CoresLineFault>
        requires safe { IsSafe (length parts.now.cores.items) (joined_of self.old) }
        ensures opened { OnOk result (Opened (length parts.now.cores.items) (request_of request.now) (joined_of self.old) (joined_of self.new)) }
        ensures fits { OnOk result (NewFit parts.now.names parts.now.programs.items (joined_of self.old) (joined_of self.new)) }
        ensures requested { OnOk result (AddsOpening parts.now.names parts.now.cores.items (request_of request.now) (joined_of self.old) (joined_of self.new)) }
        ensures passed { OnOk result (request_fault parts.now (length self.old.bindings.items) (request_of request.now) ≡ None) }
        ensures refused { IfErr result (λ stop. StopsFor (request_fault parts.now (length self.old.bindings.items) (request_of request.now)) stop) }
    {
        let binding = self.bindings.as_slice().len();
        let asked = ask(parts, request, binding)?;
        let bound = BindingCores {
            interface: request.interface,
            client: asked.client,
            server: asked.server,
            opened: Some(self.owners.as_slice().len()),
        };
        self.add_opening(alloc, bound, asked.request)?;
        Ok(())
    }

    // Whether an end that is there has reply rules.
    fn has_rules_at(&self, end: EndId) -> bool
        requires few { length self.now.bindings.items ≤ 1024 }
        requires there { end.binding < length self.now.bindings.items }
        requires end_works { HasEndWork self.now.bindings.items self.now.end_works.items }
        ensures ruled { result ≡ is_ruled (end_work_at (map end_work_of self.now.end_works.items) end) }
    {
        self.end_works[slot_of(end)].has_rules()
    }

    // The fault for which a call is refused.
    fn call_fault(&self, programs: &[Program], end: EndId, call: &CompactCall) -> Option<u8>
        requires few { length self.now.bindings.items ≤ 1024 }
        requires end_works { HasEndWork self.now.bindings.items self.now.end_works.items }
        ensures there { IfNone result (end.binding < length self.now.bindings.items) }
        ensures free { IfNone result (is_ruled (end_work_at (map end_work_of self.now.end_works.items) end) ≡ false) }
        ensures same { result ≡ call_fault_at programs.now self.now.bindings.items (map end_work_of self.now.end_works.items) end (call_of call.now) }
    {
        let Some(bound) = self.bindings.get(end.binding) else {
            return Some(faults::WRONG_NAME);
        };
        let Some(program) = programs.get(bound.interface) else {
            return Some(faults::WRONG_NAME);
        };
        let interface = program.interface();
        if usize::from(call.msg().0) >= interface.messages.as_slice().len() {
            return Some(faults::NO_SUCH_MESSAGE);
        }
        if !call.fits(interface) {
            return Some(faults::DOES_NOT_FIT);
        }
        if self.has_rules_at(end) {
            return Some(faults::CALLS_AND_RULES);
        }
        None
    }

    // The fault for which a reply rule is refused.
    fn rule_fault(
        &self,
        programs: &[Program],
        end: EndId,
        message: MsgNo,
        answer: MsgNo,
    ) -> Option<u8>
        requires few { length self.now.bindings.items ≤ 1024 }
        requires end_works { HasEndWork self.now.bindings.items self.now.end_works.items }
        ensures there { IfNone result (end.binding < length self.now.bindings.items) }
        ensures free { IfNone result ((end_work_at (map end_work_of self.now.end_works.items) end).makes_calls ≡ false) }
        ensures alone { IfNone result (is_ruled (end_work_at (map end_work_of self.now.end_works.items) (peer end)) ≡ false) }
        ensures same { result ≡ rule_fault_at programs.now self.now.bindings.items (map end_work_of self.now.end_works.items) end message.0 answer.0 }
    {
        let Some(bound) = self.bindings.get(end.binding) else {
            return Some(faults::WRONG_NAME);
        };
        let Some(program) = programs.get(bound.interface) else {
            return Some(faults::WRONG_NAME);
        };
        let messages = program.interface().messages.as_slice();
        let Some(one) = messages.get(usize::from(message.0)) else {
            return Some(faults::NO_SUCH_MESSAGE);
        };
        let Some(other) = messages.get(usize::from(answer.0)) else {
            return Some(faults::NO_SUCH_MESSAGE);
        };
        if !same_args(&one.args, &other.args) {
            return Some(faults::DOES_NOT_FIT);
        }
        if self.end_works[slot_of(end)].makes_calls
            || self.end_works[slot_of(end.peer())].has_rules()
        {
            return Some(faults::CALLS_AND_RULES);
        }
        None
    }

    // A call of an end is planned.
    pub(crate) fn plan_call(
        &mut self,
        programs: &[Program],
        end: EndId,
        call: CompactCall,
    ) -> Result<(), CoresLineFault>
        requires few { length self.old.bindings.items ≤ 1024 }
        requires end_works { HasEndWork self.old.bindings.items self.old.end_works.items }
        ensures planned { OnOk result (CallPlanned end call (joined_of self.old) (joined_of self.new)) }
        ensures passed { OnOk result (call_fault_at programs.now self.old.bindings.items (map end_work_of self.old.end_works.items) end (call_of call) ≡ None) }
        ensures refused { IfErr result (λ stop. StopsFor
            (call_fault_at programs.now self.old.bindings.items (map end_work_of self.old.end_works.items) end (call_of call)) stop) }
    {
        if let Some(number) = self.call_fault(programs, end, &call) {
            return Err(CoresLineFault::Refused(number));
        }
        mark_calls(&mut self.end_works, slot_of(end));
        self.add_job(end, CoreJob::Call { end, call })?;
        Ok(())
    }

    // A reply rule of an end is planned, which is there already or will be made.
    pub(crate) fn plan_rule(
        &mut self,
        programs: &[Program],
        is_there: bool,
        end: EndId,
        msg: MsgNo,
        reply: MsgNo,
    ) -> Result<(), CoresLineFault>
        requires few { length self.old.bindings.items ≤ 1024 }
        requires end_works { HasEndWork self.old.bindings.items self.old.end_works.items }
        ensures planned { OnOk result (RulePlanned is_there end msg reply (joined_of self.old) (joined_of self.new)) }
        ensures passed { OnOk result (rule_fault_at programs.now self.old.bindings.items (map end_work_of self.old.end_works.items) end msg.0 reply.0 ≡ None) }
        ensures refused { IfErr result (λ stop. StopsFor
            (rule_fault_at programs.now self.old.bindings.items (map end_work_of self.old.end_works.items) end msg.0 reply.0) stop) }
    {
        if let Some(number) = self.rule_fault(programs, end, msg, reply) {
            return Err(CoresLineFault::Refused(number));
        }
        set_rule(&mut self.end_works, end, msg, reply)?;
        if is_there {
            return Ok(());
        }
        self.add_job(end, CoreJob::Reply { end, msg, reply })?;
        Ok(())
    }
}
