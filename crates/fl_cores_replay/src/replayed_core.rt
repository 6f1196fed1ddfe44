//! A core that is run once more, event by event.

use crate::replayed_side::{
    NO_RING_EFFECT, ReplayedPut, ReplayedSide, ReplayedSight, RingEffect, SentFrag,
};
use fl_base::{EndId, LinkId, MAX_BINDINGS};
use fl_core::{CoreJob, Inlet, slot_of};
use fl_core_run::{RunningCore, TurnPlan};
use fl_cores::CoreOver;
use fl_cores_jobs::JoinedJobs;
use std::alloc::{AllocError, Global};

/// What a turn is made of.
#[derive(Clone, Copy)]
enum Task {
    Forward(LinkId),
    Say(LinkId),
    Job(EndId),
    Write(EndId),
    Turn(usize),
    Tell(LinkId),
    Ack(EndId),
}

/// An event of a core.
#[derive(Clone, Copy)]
pub(crate) enum CoreEvent {
    Forward(LinkId),
    Say(LinkId),
    /// A job, by its place among all.
    Job(usize),
    Write(EndId),
    /// A turn of a dispatcher, by its place at the core, at the end of this place.
    Turn { dispatcher: usize, end: usize },
    Tell(LinkId),
    Ack(EndId),
}

/// An event, and what it did at rings.
#[derive(Clone, Copy)]
pub(crate) struct CoreStep {
    pub(crate) event: CoreEvent,
    pub(crate) sight: Option<ReplayedSight>,
    pub(crate) put: Option<ReplayedPut>,
    /// It is one of a whole round of turns that did nothing.
    pub(crate) is_left_out: bool,
}

/// How a core goes on.
#[derive(Clone, Copy)]
pub(crate) enum Advance {
    /// An event was done, or passed by.
    Went,
    /// What a look is to find isn't there yet.
    Waits,
    /// It took all its turns.
    Done,
}

// Turns of a dispatcher on end that did nothing but bring the next channel to the front.
#[derive(Drop)]
struct Rounds {
    // the ends of the first round, and where their turns stand
    ends: Vec<usize>,
    steps: Vec<usize>,
    // whether the first end came again
    is_closed: bool,
    count: usize,
}

/// How far a core has come that is run once more.
#[derive(Drop)]
pub(crate) struct CoreReplay {
    // the place of the next task of its turn
    at: usize,
    // how many turns are still counted, and how many on end found nothing that was noted
    left: u64,
    stale: u32,
    // by dispatcher
    rounds: Vec<Rounds>,
    /// Its events, in order.
    pub(crate) steps: Vec<CoreStep>,
    /// What the last event put.
    pub(crate) sent: Option<SentFrag>,
}

// A core that takes so many turns on end that find nothing of what was noted has left the record.
const MOST_STALE: u32 = 100_000;

// ---- what a turn is made of

// The task at a place of a turn, in order: forwards, monitor writes, jobs and writes, dispatchers' turns, and
// acknowledgements.
fn task_at(plan: &TurnPlan, place: usize) -> Option<Task> {
    let links = plan.links.as_slice();
    let ends = plan.ends.as_slice();
    if let Some(link) = links.get(place) {
        return Some(Task::Forward(*link));
    }
    let place = place.wrapping_sub(links.len());
    if let Some(link) = links.get(place) {
        return Some(Task::Say(*link));
    }
    let place = place.wrapping_sub(links.len());
    if let Some(end) = ends.get(place / 2) {
        if place % 2 == 0 {
            return Some(Task::Job(*end));
        }
        return Some(Task::Write(*end));
    }
    let place = place.wrapping_sub(ends.len()).wrapping_sub(ends.len());
    if place < plan.dispatchers {
        return Some(Task::Turn(place));
    }
    last_task_at(links, ends, place.wrapping_sub(plan.dispatchers))
}

fn last_task_at(links: &[LinkId], ends: &[EndId], place: usize) -> Option<Task> {
    if let Some(link) = links.get(place) {
        return Some(Task::Tell(*link));
    }
    match ends.get(place.wrapping_sub(links.len())) {
        None => None,
        Some(end) => Some(Task::Ack(*end)),
    }
}

// ---- the core, over its sides

// The place of an end's work; none where there is no such binding.
fn place_of_work(end: EndId) -> Option<usize> {
    if end.binding >= MAX_BINDINGS {
        return None;
    }
    Some(slot_of(end))
}

// How many jobs of an end are done.
fn jobs_done(core: &RunningCore<Vec<ReplayedSide>>, end: EndId) -> usize {
    let Some(place) = place_of_work(end) else {
        return 0;
    };
    match core.progresses.get(place) {
        None => 0,
        Some(progress) => progress.done(),
    }
}

// Whether all that its sides noted came again.
fn is_done(core: &RunningCore<Vec<ReplayedSide>>) -> bool {
    for side in core.rings.iter() {
        if !side.is_done() {
            return false;
        }
    }
    true
}

fn is_ready(core: &RunningCore<Vec<ReplayedSide>>, place: usize) -> bool {
    match core.rings.get(place) {
        None => true,
        Some(side) => side.is_ready(),
    }
}

fn may_forward(core: &RunningCore<Vec<ReplayedSide>>, link: LinkId) -> bool {
    match core.side_of(link) {
        None => true,
        Some(place) => is_ready(core, place),
    }
}

fn may_turn(core: &RunningCore<Vec<ReplayedSide>>, jobs: &[CoreJob], dispatcher: usize) -> bool {
    match core.due(jobs, dispatcher) {
        None => true,
        Some(at) => match at.inlet {
            Inlet::Side(place) => is_ready(core, place),
            Inlet::Queue(_) | Inlet::Arrivals => true,
        },
    }
}

// Whether what a task's look is to find is there.
fn may_go(core: &RunningCore<Vec<ReplayedSide>>, jobs: &[CoreJob], task: Task) -> bool {
    match task {
        Task::Forward(link) => may_forward(core, link),
        Task::Turn(dispatcher) => may_turn(core, jobs, dispatcher),
        _ => true,
    }
}

// What the event at hand did at sides.
fn end_event(core: &mut RunningCore<Vec<ReplayedSide>>) -> RingEffect {
    let mut effect = NO_RING_EFFECT;
    for side in core.rings.iter_mut() {
        side.end_event(&mut effect);
    }
    effect
}

// Sides whose look found nothing stand behind so many events.
fn mark_missed(core: &mut RunningCore<Vec<ReplayedSide>>, steps: usize) {
    for side in core.rings.iter_mut() {
        side.mark_missed(steps);
    }
}

// ---- tasks, and the event that is told of each, if one is

fn forward(
    core: &mut RunningCore<Vec<ReplayedSide>>,
    link: LinkId,
) -> Result<Option<CoreEvent>, AllocError> {
    core.forward(link)?;
    Ok(Some(CoreEvent::Forward(link)))
}

fn say(core: &mut RunningCore<Vec<ReplayedSide>>, link: LinkId) -> Option<CoreEvent> {
    core.say(link);
    Some(CoreEvent::Say(link))
}

fn job_at(joined: &JoinedJobs, end: EndId, done: usize) -> Option<CoreEvent> {
    let place = place_of_work(end)?;
    let work = joined.end_works.get(place)?;
    match work.jobs.get(done) {
        None => None,
        Some(job) => Some(CoreEvent::Job(*job)),
    }
}

fn do_job(
    core: &mut RunningCore<Vec<ReplayedSide>>,
    joined: &JoinedJobs,
    end: EndId,
) -> Result<Option<CoreEvent>, AllocError> {
    let before = jobs_done(core, end);
    core.try_job(&joined.jobs, end)?;
    if jobs_done(core, end) == before {
        return Ok(None);
    }
    Ok(job_at(joined, end, before))
}

fn write(core: &mut RunningCore<Vec<ReplayedSide>>, end: EndId) -> Option<CoreEvent> {
    core.write(end);
    Some(CoreEvent::Write(end))
}

fn turn(
    core: &mut RunningCore<Vec<ReplayedSide>>,
    jobs: &[CoreJob],
    dispatcher: usize,
) -> Result<Option<CoreEvent>, AllocError> {
    let end = match core.due(jobs, dispatcher) {
        None => return Ok(None),
        Some(at) => at.end,
    };
    core.turn_of(jobs, dispatcher)?;
    Ok(Some(CoreEvent::Turn { dispatcher, end }))
}

fn tell(core: &mut RunningCore<Vec<ReplayedSide>>, link: LinkId) -> Option<CoreEvent> {
    core.tell(link);
    Some(CoreEvent::Tell(link))
}

fn ack(core: &mut RunningCore<Vec<ReplayedSide>>, end: EndId) -> Option<CoreEvent> {
    core.ack(end);
    Some(CoreEvent::Ack(end))
}

fn perform(
    core: &mut RunningCore<Vec<ReplayedSide>>,
    joined: &JoinedJobs,
    task: Task,
) -> Result<Option<CoreEvent>, AllocError> {
    match task {
        Task::Forward(link) => forward(core, link),
        Task::Say(link) => Ok(say(core, link)),
        Task::Job(end) => do_job(core, joined, end),
        Task::Write(end) => Ok(write(core, end)),
        Task::Turn(dispatcher) => turn(core, &joined.jobs, dispatcher),
        Task::Tell(link) => Ok(tell(core, link)),
        Task::Ack(end) => Ok(ack(core, end)),
    }
}

// ---- what is told of events

impl CoreStep {
    fn is_take(&self) -> bool {
        match self.sight {
            None => false,
            Some(sight) => sight.is_taken,
        }
    }
}

impl Rounds {
    // Whether the turn at this end is of the first round.
    fn is_first(&mut self, end: usize) -> bool {
        self.count = self.count.wrapping_add(1);
        if let Some(first) = self.ends.get(0) {
            self.is_closed = self.is_closed || *first == end;
        }
        !self.is_closed
    }

    // Turns of whole rounds are told no more; the next turn begins the next round.
    fn end(&mut self, told: &mut [CoreStep]) {
        let count = self.ends.as_slice().len();
        if self.is_closed && count > 0 {
            for k in self.count % count..count {
                if let Some(at) = self.steps.get(k) {
                    leave_out(told, *at);
                }
            }
        }
        self.ends.clear();
        self.steps.clear();
        self.is_closed = false;
        self.count = 0;
    }
}

fn leave_out(steps: &mut [CoreStep], at: usize) {
    if let Some(step) = steps.get_mut(at) {
        step.is_left_out = true;
    }
}

fn all_rounds(alloc: Global, dispatchers: usize) -> Result<Vec<Rounds>, AllocError> {
    let mut rounds = Vec::new(alloc);
    for _ in 0..dispatchers {
        rounds.reserve(1)?;
        rounds.push_reserved(Rounds {
            ends: Vec::new(alloc),
            steps: Vec::new(alloc),
            is_closed: false,
            count: 0,
        });
    }
    Ok(rounds)
}

impl CoreReplay {
    /// A core at its start, with so many dispatchers, which counts so many turns.
    pub(crate) fn new(
        alloc: Global,
        dispatchers: usize,
        turns: u64,
    ) -> Result<CoreReplay, AllocError> {
        Ok(CoreReplay {
            at: 0,
            left: turns,
            stale: 0,
            rounds: all_rounds(alloc, dispatchers)?,
            steps: Vec::new(alloc),
            sent: None,
        })
    }

    // What happens next isn't a turn that does nothing.
    fn end_rounds(&mut self) {
        for rounds in self.rounds.iter_mut() {
            rounds.end(&mut self.steps);
        }
    }

    // A turn of a dispatcher that did nothing, at this end.
    fn idle_turn(
        &mut self,
        dispatcher: usize,
        end: usize,
        step: CoreStep,
    ) -> Result<(), AllocError> {
        let here = self.steps.as_slice().len();
        if let Some(rounds) = self.rounds.get_mut(dispatcher) {
            if !rounds.is_first(end) {
                return Ok(());
            }
            rounds.ends.push(end)?;
            rounds.steps.push(here)?;
        }
        self.steps.push(step)?;
        Ok(())
    }

    // Adds an event, if it is to be told: one that did something.
    fn add(&mut self, step: CoreStep, moved: bool) -> Result<(), AllocError> {
        let is_told = match step.event {
            CoreEvent::Forward(_) => step.is_take(),
            CoreEvent::Say(_) | CoreEvent::Tell(_) | CoreEvent::Ack(_) => step.put.is_some(),
            CoreEvent::Job(_) => true,
            CoreEvent::Write(_) => moved,
            CoreEvent::Turn { dispatcher, end } => {
                if !moved && !step.is_take() {
                    return self.idle_turn(dispatcher, end, step);
                }
                true
            }
        };
        if is_told {
            self.end_rounds();
            self.steps.push(step)?;
        }
        Ok(())
    }

    // Notes an event.
    fn note(
        &mut self,
        core: &mut RunningCore<Vec<ReplayedSide>>,
        event: CoreEvent,
    ) -> Result<(), AllocError> {
        let effect = end_event(core);
        self.sent = effect.sent;
        if effect.is_noted {
            self.stale = 0;
        }
        let step = CoreStep {
            event,
            sight: effect.sight,
            put: effect.put,
            is_left_out: false,
        };
        self.add(step, core.idle == 0)?;
        mark_missed(core, self.steps.as_slice().len());
        Ok(())
    }
}

// ---- its turns

impl CoreReplay {
    // Whether the core takes another turn.
    fn takes_another(&self, core: &RunningCore<Vec<ReplayedSide>>) -> bool {
        self.left > 0 || self.stale < MOST_STALE && !is_done(core)
    }

    // A turn begins.
    fn begin_turn(&mut self) {
        if self.left > 0 {
            self.left -= 1;
            return;
        }
        self.stale = self.stale.saturating_add(1);
    }

    // A turn ends, if it has begun.
    fn end_turn(&mut self) -> Advance {
        if self.at == 0 {
            return Advance::Done;
        }
        self.at = 0;
        Advance::Went
    }

    // Does a task.
    fn go(
        &mut self,
        core: &mut RunningCore<Vec<ReplayedSide>>,
        joined: &JoinedJobs,
        task: Task,
    ) -> Result<(), AllocError> {
        if self.at == 0 {
            self.begin_turn();
        }
        self.at = self.at.wrapping_add(1);
        core.idle = 1;
        match perform(core, joined, task)? {
            None => Ok(()),
            Some(event) => self.note(core, event),
        }
    }

    /// The next event, or what is in place of it.
    pub(crate) fn advance(
        &mut self,
        over: &mut CoreOver<ReplayedSide>,
        joined: &JoinedJobs,
    ) -> Result<Advance, AllocError> {
        self.sent = None;
        if self.at == 0 && !self.takes_another(&over.running) {
            self.end_rounds();
            return Ok(Advance::Done);
        }
        let Some(task) = task_at(&over.plan, self.at) else {
            return Ok(self.end_turn());
        };
        if !may_go(&over.running, &joined.jobs, task) {
            return Ok(Advance::Waits);
        }
        self.go(&mut over.running, joined, task)?;
        Ok(Advance::Went)
    }
}
