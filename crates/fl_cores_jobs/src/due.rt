//! How many calls are to be handled at each end.

ghost use Rattle.std.specs.Prelude.{◌≡◌, ◌<◌, ◌≤◌, ◌*◌, length, map, slice_get, Some, is_some};
ghost use Rattle.std.specs.List.{flat_map};
ghost use Rattle.fl_model.specs.Given.{changed_at};
ghost use Rattle.fl_core.specs.View.{slot_of};
ghost use Rattle.fl_core.specs.Jobs.{calls_of_job, calls_of_jobs};
ghost use Rattle.fl_base.specs.Ends.{peer};
ghost use Rattle.fl_cores_jobs.specs.EndWork.{end_work_of, end_work_at, rule_at, reply_by, due_in};
ghost use Rattle.fl_cores_jobs.specs.State.{joined_of, changing, with_due, DuesUpTo};

use crate::end_work::{EndWork, end_at};
use crate::joining::JoinedJobs;
use fl_base::{EndId, MsgNo};
use fl_core::{CoreJob, slot_of};

// Whether there is a rule for a message.
fn has_rule(rules: &[Option<MsgNo>], msg: MsgNo) -> bool
    ensures rule { result ≡ is_some (rule_at rules.now msg.0) }
{
    match rules.get(usize::from(msg.0)) {
        None => false,
        Some(answer) => answer.is_some(),
    }
}

// How many calls a job makes.
fn calls_in(job: &CoreJob) -> usize
    ensures calls { result ≡ length (calls_of_job (Some job.now)) }
    ensures one { result ≤ 1 }
{
    match job {
        CoreJob::Open(_) => 0,
        CoreJob::Reply { .. } => 0,
        CoreJob::Call { .. } => 1,
    }
}

// How many replies by these rules are made to it.
#[tactic(auto, using(crate::proofs::Replies::reply_count))]
fn replies_in(job: &CoreJob, rules: &[Option<MsgNo>]) -> usize
    ensures replies { result ≡ length (flat_map (reply_by rules.now) (calls_of_job (Some job.now))) }
    ensures one { result ≤ 1 }
{
    match job {
        CoreJob::Open(_) => 0,
        CoreJob::Reply { .. } => 0,
        CoreJob::Call { call, .. } => { if has_rule(rules, call.msg()) { 1 } else { 0 } }
    }
}

fn calls_at(jobs: &[CoreJob], place: usize) -> usize
    ensures calls { result ≡ length (calls_of_job (slice_get jobs.now place)) }
    ensures one { result ≤ 1 }
{
    match jobs.get(place) {
        None => 0,
        Some(job) => calls_in(job),
    }
}

fn replies_at(jobs: &[CoreJob], place: usize, rules: &[Option<MsgNo>]) -> usize
    ensures replies { result ≡ length (flat_map (reply_by rules.now) (calls_of_job (slice_get jobs.now place))) }
    ensures one { result ≤ 1 }
{
    match jobs.get(place) {
        None => 0,
        Some(job) => replies_in(job, rules),
    }
}

// How many calls the jobs at these places make.
#[tactic(auto, using(crate::proofs::Replies::calls_from))]
fn count_calls(jobs: &[CoreJob], places: &[usize]) -> usize
    ensures count { result ≡ length (calls_of_jobs jobs.now places.now) }
{
    let mut count = 0;
    for k in 0..places.len() {
        count += calls_at(jobs, places[k]);
    }
    count
}

// How many replies by these rules are made to them.
#[tactic(auto, using(crate::proofs::Replies::replies_from))]
fn count_replies(jobs: &[CoreJob], places: &[usize], rules: &[Option<MsgNo>]) -> usize
    ensures count { result ≡ length (flat_map (reply_by rules.now) (calls_of_jobs jobs.now places.now)) }
{
    let mut count = 0;
    for k in 0..places.len() {
        count += replies_at(jobs, places[k], rules);
    }
    count
}

// How many calls are due at an end, by its end's work and the other end's.
fn due_in(jobs: &[CoreJob], here: &EndWork, across: &EndWork) -> usize
    ensures due { result ≡ due_in jobs.now (end_work_of here.now) (end_work_of across.now) }
{
    if across.has_rules() {
        count_replies(jobs, &here.jobs, &across.rules)
    } else {
        count_calls(jobs, &across.jobs)
    }
}

impl JoinedJobs {
    fn due_at(&self, end: EndId) -> usize
        requires few { end.binding < 1024 }
        requires there { slot_of end < length self.now.end_works.items }
        requires across { slot_of (peer end) < length self.now.end_works.items }
        ensures due { result ≡ due_in self.now.jobs.items (end_work_at (joined_of self.now).end_works end)
            (end_work_at (joined_of self.now).end_works (peer end)) }
    {
        let here = &self.end_works[slot_of(end)];
        let across = &self.end_works[slot_of(end.peer())];
        due_in(&self.jobs, here, across)
    }

    // It is told of an end how many calls are due.
    fn set_due(&mut self, end: EndId)
        requires few { end.binding < 1024 }
        requires there { slot_of end < length self.old.end_works.items }
        requires across { slot_of (peer end) < length self.old.end_works.items }
        ensures set { joined_of self.new ≡ changing end
            (with_due (due_in self.old.jobs.items (end_work_at (joined_of self.old).end_works end) (end_work_at (joined_of self.old).end_works (peer end))))
            (joined_of self.old) }
    {
        let due = self.due_at(end);
        put_due(&mut self.end_works, slot_of(end), due);
    }

    // It is told of all ends.
    pub(crate) fn set_dues(&mut self)
        requires few { length self.old.bindings.items ≤ 1024 }
        requires end_works { length (joined_of self.old).end_works ≡ 2 * length self.old.bindings.items }
        ensures dues { DuesUpTo (length (joined_of self.old).end_works) (joined_of self.old) (joined_of self.new) }
    {
        for slot in 0..self.end_works.len() {
            self.set_due(end_at(slot));
        }
    }
}

fn put_due(end_works: &mut Vec<EndWork>, slot: usize, due: usize)
    requires there { slot < length end_works.old.items }
    ensures put { map end_work_of end_works.new.items ≡ changed_at slot (with_due due) (map end_work_of end_works.old.items) }
{
    let end_work = &mut end_works[slot];
    end_work.due = due;
}
