//! Where the jobs of an end lie, and what came of it.

ghost use Rattle.std.specs.Prelude.{◌≡◌, ◌<◌, [], length, slice_get, IfSome, OnOk, OnErr};
ghost use Rattle.fl_core_run.specs.EndProgress.{advanced, is_clear, with_handled, with_refusal, progress_place};

use fl_base::{EndId, MAX_BINDINGS};
use fl_compact_calls::CompactCall;
use fl_core::slot_of;
use std::alloc::{AllocError, Global};
use std::marker::Model;

/// The end's progress of an end: its jobs, how far they are done, and the calls that it handled.
#[derive(Drop)]
pub struct EndProgress {
    // the places of its jobs among all
    jobs: Vec<usize>,
    done: usize,
    // how many calls are to be handled here
    due: usize,
    handled: Vec<CompactCall>,
    // the number with which the opening of its binding was refused, or 0
    refused: u32,
}

impl Model for EndProgress {
    ghost use Rattle.std.specs.Coded.{codes};
    ghost use Rattle.fl_value_data.specs.contracts.value.Value.{the_row};
    ghost use Rattle.fl_core_run.specs.EndProgress.{TheEndProgress};

    ghost Value = { TheEndProgress };

    ghost coded = { Prim.hlevel (codes, the_row.coded) };

    ghost view = { λ d. record {
      jobs = d.jobs.items;
      done = d.done;
      due = d.due;
      handled = d.handled.items;
      refused = d.refused;
    } };
}

impl EndProgress {
    /// An end's progress with these jobs, by their places among all, at an end where so many calls are to be handled. Takes no memory.
    pub fn new(alloc: Global, jobs: Vec<usize>, due: usize) -> EndProgress
        ensures new { result ≡ record { jobs = jobs.items; done = 0; due = due; handled = []; refused = 0 } }
    {
        EndProgress {
            jobs,
            done: 0,
            due,
            handled: Vec::new(alloc),
            refused: 0,
        }
    }

    // The job that is next, by its place among all.
    pub(crate) fn next(&self) -> Option<usize>
        ensures next { result ≡ slice_get self.now.jobs self.now.done }
        ensures left { IfSome result (λ _. self.now.done < length self.now.jobs) }
    {
        match self.jobs.get(self.done) {
            Some(place) => Some(*place),
            None => None,
        }
    }

    // Its next job is done.
    pub(crate) fn advance(&mut self)
        requires left { self.old.done < length self.old.jobs }
        ensures advanced { self.new ≡ advanced self.old }
    {
        self.done += 1;
    }

    // A call was handled at its end.
    #[inline(always)]
    pub(crate) fn take(&mut self, call: CompactCall) -> Result<(), AllocError>
        ensures taken { OnOk result (self.new ≡ with_handled call self.old) }
        ensures kept { OnErr result (self.new ≡ self.old) }
    {
        if self.handled.is_empty() {
            // Where there is no memory for all that are due, it goes on without.
            let _ = self.handled.reserve(self.due);
        }
        let Ok(()) = self.handled.push(call) else {
            return Err(AllocError);
        };
        Ok(())
    }

    /// The number with which the opening of its binding was refused, or 0.
    pub fn refused(&self) -> u32
        ensures refused { result ≡ self.now.refused }
    {
        self.refused
    }

    // Whether all its jobs are done, and as many calls handled as are to be.
    pub(crate) fn is_clear(&self) -> bool
        ensures clear { result ≡ is_clear self.now }
    {
        self.done == self.jobs.as_slice().len() && self.handled.as_slice().len() == self.due
    }

    /// The calls that its end handled, in order.
    pub fn handled(&self) -> &[CompactCall]
        ensures handled { result.now ≡ self.now.handled }
    {
        self.handled.as_slice()
    }

    /// The same, for good.
    pub fn into_handled(self) -> Vec<CompactCall>
        ensures handled { result.items ≡ self.handled }
    {
        self.handled
    }

    /// How many of its jobs are done.
    pub fn done(&self) -> usize
        ensures done { result ≡ self.now.done }
    {
        self.done
    }

    // The opening of its binding was refused.
    pub(crate) fn refuse(&mut self, number: u32)
        ensures refused { self.new ≡ with_refusal number self.old }
    {
        self.refused = number;
    }
}

// Where the end's progress of an end is.
pub(crate) fn find(progresses: &[EndProgress], name: EndId) -> Option<usize>
    ensures place { result ≡ progress_place progresses.now name }
    ensures within { IfSome result (λ n. n < length progresses.now) }
{
    if name.binding >= MAX_BINDINGS {
        return None;
    }
    let place = slot_of(name);
    if place < progresses.len() {
        Some(place)
    } else {
        None
    }
}
