//! The jobs of a whole file, joined one after another.

ghost use Rattle.std.specs.Prelude.{◌≡◌, [], List, map, length, None, IfOk, IfErr, OnOk, OnErr};
ghost use Rattle.fl_cores_file.specs.Jobs.{Job as TheJob};
ghost use Rattle.fl_cores_file.specs.Views.{job_of};
ghost use Rattle.fl_cores_jobs.specs.EndWork.{end_work_of};
ghost use Rattle.fl_cores_jobs.specs.Faults.{rule_fault_at, fault_at_once, the_first, StopsFor, RuleStops};
ghost use Rattle.fl_cores_jobs.specs.Fitting.{JobsFit, NewFit};
ghost use Rattle.fl_cores_jobs.specs.Joined.{AreBindings, HasEndWork};
ghost use Rattle.fl_cores_jobs.specs.Kept.{AreKept};
ghost use Rattle.fl_cores_jobs.specs.State.{joined_of, IsSafe, ArePlaced, AreJoined};
ghost use Rattle.fl_cores_jobs.specs.Rules.{RulesOf};
ghost use Rattle.fl_cores_jobs.specs.Whole.{bound_of, SetUp, binding_fault, SetUpStops, so_far, Ruled, Joins, IsBeside, AreBound, AreDue};
ghost use Rattle.fl_cores_jobs.specs.Whole.{job_fault, NoneRefused, JobStops, fault_at, FirstRefused, IsFault, HadSet};
ghost use Rattle.fl_cores_jobs.specs.Requested.{AddsRequested, AreRequested};

use crate::end_work::BindingCores;
use crate::fault::JobFault;
use crate::joining::JoinedJobs;
use crate::rules::rule_now;
use fl_base::{EndId, MAX_BINDINGS, MsgNo, faults};
use fl_cores_file::{CoresLineFault, Job};
use fl_world_refines::{Binding, Parts};
use std::alloc::Global;

fn bound_of(binding: &Binding) -> BindingCores
    ensures bound { result ≡ bound_of binding.now }
{
    BindingCores {
        interface: binding.interface,
        client: binding.client,
        server: binding.server,
        opened: None,
    }
}

impl JoinedJobs {
    // A binding of the set-up.
    fn set_up(
        &mut self,
        alloc: Global,
        cores: usize,
        binding: &Binding,
    ) -> Result<(), CoresLineFault>
        ensures set_up { OnOk result (SetUp cores binding.now (joined_of self.old) (joined_of self.new)) }
        ensures refused { IfErr result (λ stop. StopsFor (binding_fault cores (length self.old.bindings.items) binding.now) stop) }
    {
        if self.bindings.as_slice().len() >= MAX_BINDINGS {
            return Err(CoresLineFault::Refused(faults::TOO_MANY));
        }
        if binding.client >= cores || binding.server >= cores {
            return Err(CoresLineFault::Refused(faults::WRONG_NAME));
        }
        self.add_binding(alloc, bound_of(binding))?;
        Ok(())
    }

    // A reply rule is planned, and set at once at an end of a binding of the set-up.
    fn rule(
        &mut self,
        parts: &mut Parts,
        end: EndId,
        message: MsgNo,
        answer: MsgNo,
    ) -> Result<(), CoresLineFault>
        requires safe { IsSafe (length parts.old.cores.items) (joined_of self.old) }
        ensures ruled { OnOk result (Ruled parts.old.bindings.items end message.0 answer.0
            (so_far (joined_of self.old) parts.old.cores.items) (so_far (joined_of self.new) parts.new.cores.items)) }
        ensures fits { OnOk result (NewFit parts.old.names parts.old.programs.items (joined_of self.old) (joined_of self.new)) }
        ensures beside { IsBeside parts.old parts.new }
        ensures passed { OnOk result (the_first
            (rule_fault_at parts.old.programs.items self.old.bindings.items (map end_work_of self.old.end_works.items) end message.0 answer.0)
            (fault_at_once parts.old.cores.items parts.old.bindings.items end message.0 answer.0) ≡ None) }
        ensures refused { IfErr result (λ stop. RuleStops
            (rule_fault_at parts.old.programs.items self.old.bindings.items (map end_work_of self.old.end_works.items) end message.0 answer.0)
            (fault_at_once parts.old.cores.items parts.old.bindings.items end message.0 answer.0) stop) }
        ensures set { OnErr result (parts.new.cores.items ≡ parts.old.cores.items) }
    {
        let is_there = end.binding < parts.bindings.as_slice().len();
        if let Err(stop) = self.plan_rule(&parts.programs, is_there, end, message, answer) {
            return Err(stop);
        }
        rule_now(&mut parts.cores, &parts.bindings, end, message, answer)
    }

    // A job more.
    fn join_one(
        &mut self,
        alloc: Global,
        parts: &mut Parts,
        job: Job<'_>,
    ) -> Result<(), CoresLineFault>
        requires safe { IsSafe (length parts.old.cores.items) (joined_of self.old) }
        ensures joins { OnOk result (Joins parts.old.bindings.items (job_of job.entry)
            (so_far (joined_of self.old) parts.old.cores.items) (so_far (joined_of self.new) parts.new.cores.items)) }
        ensures fits { OnOk result (NewFit parts.old.names parts.old.programs.items (joined_of self.old) (joined_of self.new)) }
        ensures requested { OnOk result (AddsRequested parts.old.names parts.old.cores.items (job_of job.entry) (joined_of self.old) (joined_of self.new)) }
        ensures beside { IsBeside parts.old parts.new }
        ensures passed { OnOk result ((asked : List TheJob) → AreJoined (length parts.old.cores.items) asked (joined_of self.old)
            → AreBound parts.old.bindings.items asked (joined_of self.old) → job_fault parts.old asked (job_of job.entry) ≡ None) }
        ensures refused { IfErr result (λ stop. (asked : List TheJob) → AreJoined (length parts.old.cores.items) asked (joined_of self.old)
            → AreBound parts.old.bindings.items asked (joined_of self.old) → JobStops parts.old asked (job_of job.entry) stop) }
        ensures set { OnErr result (parts.new.cores.items ≡ parts.old.cores.items) }
    {
        match job {
            Job::Open(request) => {
                let request = Box::into_inner(request);
                self.open(alloc, parts, &request)
            }
            Job::Reply {
                end,
                message,
                answer,
            } => self.rule(parts, end, message, answer),
            Job::Call { end, call } => self.plan_call(&parts.programs, end, call),
        }
    }

    // All jobs.
    fn join_all(
        &mut self,
        alloc: Global,
        parts: &mut Parts,
        jobs: Vec<Job<'_>>,
    ) -> Result<(), JobFault>
        requires joined { ArePlaced (length parts.old.cores.items) [] (joined_of self.old) }
        requires bound { AreBound parts.old.bindings.items [] (joined_of self.old) }
        requires kept { AreKept parts.old.bindings.items [] (joined_of self.old) }
        requires none { self.old.jobs.items ≡ [] }
        ensures joined { OnOk result (ArePlaced (length parts.old.cores.items) (map job_of jobs.entry.items) (joined_of self.new)) }
        ensures bound { OnOk result (AreBound parts.old.bindings.items (map job_of jobs.entry.items) (joined_of self.new)) }
        ensures kept { OnOk result (AreKept parts.old.bindings.items (map job_of jobs.entry.items) (joined_of self.new)) }
        ensures fits { OnOk result (JobsFit parts.old.names parts.old.programs.items (joined_of self.new)) }
        ensures requested { OnOk result (AreRequested parts.old.names parts.old.cores.items (length parts.old.bindings.items)
            (map job_of jobs.entry.items) (joined_of self.new)) }
        ensures rules { OnOk result (RulesOf parts.old.bindings.items (map job_of jobs.entry.items) parts.old.cores.items parts.new.cores.items) }
        ensures count { OnOk result (length parts.new.cores.items ≡ length parts.old.cores.items) }
        ensures beside { IsBeside parts.old parts.new }
        ensures passed { OnOk result (NoneRefused parts.old (map job_of jobs.entry.items)) }
        ensures refused { IfErr result (λ fault. FirstRefused parts.old (map job_of jobs.entry.items) fault) }
        ensures set { IfErr result (λ fault. HadSet parts.old (map job_of jobs.entry.items) fault parts.new.cores.items) }
    {
        let mut place = 0;
        for job in jobs {
            place += 1;
            if let Err(stop) = self.join_one(alloc, parts, job) {
                return Err(fault_at(stop, place));
            }
        }
        Ok(())
    }
}

// Why what stands at a place isn't joined.
fn fault_at(stop: CoresLineFault, place: usize) -> JobFault
    ensures fault { result ≡ fault_at stop place }
{
    match stop {
        CoresLineFault::Refused(number) => JobFault::Refused { number, place },
        CoresLineFault::Memory => JobFault::Memory,
    }
}

// The bindings of a set-up.
fn set_up(alloc: Global, cores: usize, bindings: &[Binding]) -> Result<JoinedJobs, CoresLineFault>
    ensures joined { IfOk result (λ j. ArePlaced cores [] (joined_of j)) }
    ensures bound { IfOk result (λ j. AreBound bindings.now [] (joined_of j)) }
    ensures kept { IfOk result (λ j. AreKept bindings.now [] (joined_of j)) }
    ensures none { IfOk result (λ j. j.jobs.items ≡ []) }
    ensures refused { IfErr result (λ stop. SetUpStops cores bindings.now stop) }
{
    let mut joined = JoinedJobs::new(alloc);
    for binding in bindings {
        if let Err(stop) = joined.set_up(alloc, cores, binding) {
            return Err(stop);
        }
    }
    Ok(joined)
}

/// Checks the jobs one by one and joins them to the cores of their ends. Reply rules are set at the ends that are there.
///
/// # Errors
/// [`JobFault`]: the first job that is refused, or out of memory. The rules of the jobs before that are set then, and no others.
pub fn join_jobs(
    alloc: Global,
    parts: &mut Parts,
    jobs: Vec<Job<'_>>,
) -> Result<JoinedJobs, JobFault>
    ensures bindings { IfOk result (λ j. AreBindings (length parts.old.cores.items) j.bindings.items j.owners.items) }
    ensures end_works { IfOk result (λ j. HasEndWork j.bindings.items j.end_works.items) }
    ensures cores { OnOk result (length parts.new.cores.items ≡ length parts.old.cores.items) }
    ensures joined { IfOk result (λ j. AreJoined (length parts.old.cores.items) (map job_of jobs.entry.items) (joined_of j)) }
    ensures bound { IfOk result (λ j. AreBound parts.old.bindings.items (map job_of jobs.entry.items) (joined_of j)) }
    ensures fits { IfOk result (λ j. JobsFit parts.old.names parts.old.programs.items (joined_of j)) }
    ensures requested { IfOk result (λ j. AreRequested parts.old.names parts.old.cores.items (length parts.old.bindings.items)
        (map job_of jobs.entry.items) (joined_of j)) }
    ensures due { IfOk result (λ j. AreDue (map job_of jobs.entry.items) (joined_of j)) }
    ensures rules { OnOk result (RulesOf parts.old.bindings.items (map job_of jobs.entry.items) parts.old.cores.items parts.new.cores.items) }
    ensures beside { IsBeside parts.old parts.new }
    ensures passed { OnOk result (NoneRefused parts.old (map job_of jobs.entry.items)) }
    ensures refused { IfErr result (λ fault. IsFault parts.old (map job_of jobs.entry.items) fault) }
    ensures set { IfErr result (λ fault. HadSet parts.old (map job_of jobs.entry.items) fault parts.new.cores.items) }
{
    let cores = parts.cores.as_slice().len();
    let mut joined = match set_up(alloc, cores, &parts.bindings) {
        Ok(joined) => joined,
        Err(stop) => return Err(fault_at(stop, 0)),
    };
    joined.join_all(alloc, parts, jobs)?;
    joined.set_dues();
    Ok(joined)
}
