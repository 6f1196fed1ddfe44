//! Bindings that are set up or to be opened, and what is handed in at their ends.

ghost use Rattle.std.specs.Prelude.{ℕ, ◌≡◌, ◌==◌, ◌+◌, ◌*◌, ◌<◌, ◌≤◌, if◌then◌else◌, length, Some, OnOk};
ghost use Rattle.fl_core.specs.View.{slot_of};
ghost use Rattle.fl_cores_jobs.specs.EndWork.{end_work_of, no_end_work, is_ruled, rule_at, answer_in, Rules, with_place};
ghost use Rattle.fl_cores_jobs.specs.Joined.{core_of};

use fl_base::{EndId, MsgNo, Side};
use std::alloc::{AllocError, Global};

/// A binding, by its interface and the cores of its ends, each by its place, from 0.
#[derive(Clone, Copy)]
pub struct BindingCores {
    /// The interface that its ends speak.
    pub interface: usize,
    /// The core of the client's end.
    pub client: usize,
    /// The core of the server's end, or the one at which it will be made.
    pub server: usize,
    /// Where a job opens it, that job's place among those that open.
    pub opened: Option<usize>,
}

impl BindingCores {
    /// The core of the end of a side.
    pub fn core(&self, side: Side) -> usize
        ensures core { result ≡ core_of side self.now }
    {
        match side {
            Side::Client => self.client,
            Side::Server => self.server,
        }
    }
}

/// What is handed in at an end.
#[derive(Drop)]
pub struct EndWork {
    /// The places of its jobs among all, in order.
    pub jobs: Vec<usize>,
    /// Whether one of them is a call.
    pub makes_calls: bool,
    /// By message the answer of its reply rule. Empty where the end has no rules.
    pub rules: Vec<Option<MsgNo>>,
    /// How many calls are to be handled there.
    pub due: usize,
}

// The list has so many places at least.
#[tactic(auto, using(crate::proofs::Rulings::rule_more))]
fn reach(rules: &mut Vec<Option<MsgNo>>, count: usize) -> Result<(), AllocError>
    ensures long { OnOk result (count ≤ length rules.new.items) }
    ensures same { (msg : ℕ) → rule_at rules.new.items msg ≡ rule_at rules.old.items msg }
{
    while rules.len() < count {
        rules.push(None)?;
    }
    Ok(())
}

// The rule for a message is set.
#[tactic(auto, using(crate::proofs::Rulings::rule_put))]
fn put_rule(rules: &mut Vec<Option<MsgNo>>, msg: MsgNo, answer: MsgNo) -> Result<(), AllocError>
    ensures put { OnOk result ((m : ℕ) → rule_at rules.new.items m ≡ (if msg.0 == m then Some answer.0 else rule_at rules.old.items m)) }
    ensures some { OnOk result (0 < length rules.new.items) }
{
    let place = usize::from(msg.0);
    reach(rules, place + 1)?;
    rules[place] = Some(answer);
    Ok(())
}

impl EndWork {
    pub(crate) fn new(alloc: Global) -> EndWork
        ensures new { end_work_of result ≡ no_end_work }
    {
        EndWork {
            jobs: Vec::new(alloc),
            makes_calls: false,
            rules: Vec::new(alloc),
            due: 0,
        }
    }

    /// Whether the end has a reply rule.
    pub fn has_rules(&self) -> bool
        ensures ruled { result ≡ is_ruled (end_work_of self.now) }
    {
        self.rules.as_slice().len() > 0
    }

    /// The answer of the rule for a message.
    pub fn rule_for(&self, msg: MsgNo) -> Option<MsgNo>
        ensures rule { answer_in result ≡ rule_at self.now.rules.items msg.0 }
    {
        match self.rules.get(usize::from(msg.0)) {
            Some(answer) => *answer,
            None => None,
        }
    }

    // Sets the rule for a message.
    pub(crate) fn set_rule(&mut self, msg: MsgNo, answer: MsgNo) -> Result<(), AllocError>
        ensures set { OnOk result (Rules msg.0 answer.0 (end_work_of self.old) (end_work_of self.new)) }
    {
        put_rule(&mut self.rules, msg, answer)
    }

    // One job more.
    pub(crate) fn place(&mut self, place: usize) -> Result<(), AllocError>
        ensures placed { OnOk result (end_work_of self.new ≡ with_place place (end_work_of self.old)) }
    {
        self.jobs.push(place)?;
        Ok(())
    }
}

/// The end whose number [`fl_core::slot_of`] gives.
pub fn end_at(slot: usize) -> EndId
    ensures end { slot_of result ≡ slot }
    ensures binding { 2 * result.binding ≤ slot }
{
    EndId {
        binding: slot / 2,
        side: if slot % 2 == 0 {
            Side::Client
        } else {
            Side::Server
        },
    }
}
