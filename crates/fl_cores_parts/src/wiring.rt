//! Each core is given what its thread needs, with its own sides of rings and its own queues.

ghost use Rattle.std.specs.Prelude.{◌≡◌, ◌+◌, ◌<◌, ◌≤◌, ◌==◌, ◌++◌, ◌∷◌, [], if◌then◌else◌, length, map, IfOk, OnOk};
ghost use Rattle.fl_compile.specs.Programs.{program_of};
ghost use Rattle.fl_core.specs.View.{slot_of};
ghost use Rattle.fl_cores_table.specs.Counter.{opening_view};
ghost use Rattle.fl_core_run.specs.OpeningStatus.{AreWords, word_by};
ghost use Rattle.fl_core_run.specs.declared.opening_status.OpeningStatus.TheVariants.{Tells, Hears};
ghost use Rattle.fl_cores_jobs.specs.Joined.{AreBindings, HasEndWork, core_at};
ghost use Rattle.fl_cores_jobs.specs.State.{joined_of};
ghost use Rattle.fl_history_shares.specs.Dealt.{hands_in};
ghost use Rattle.fl_cores_fork.specs.CoreThreads.{IsReady, AllReady, core_thread_of, hands_given};
ghost use Rattle.fl_cores_parts.specs.Begins.{owns, ends_at, ends_from, words_at, words_of, links_below, progress_for, progresses_of};
ghost use Rattle.fl_cores_parts.specs.Begins.{IsAlone, IsCoreThread, AreCoreThreads};
ghost use Rattle.fl_cores_parts.specs.AtTable.{BeginAtTable};
ghost use Rattle.fl_cores_parts.specs.Shares.{queues_given};
ghost use Rattle.fl_cores_parts.specs.Dealing.{SharesOut, Wirings};
ghost use Rattle.fl_cores_parts.specs.CoreThreads.{core_share, stationed, AddsCoreThread, common_of, seats_given, AreSeats, left_view};

use crate::sharing::{SideOwners, deal_sides, hand_out_queues};
use fl_base::{EndId, LinkId, Side};
use fl_compile::Program;
use fl_core::{Core, slot_of};
use fl_core_run::{EndProgress, OpeningStatus, RunSeat, RunningCore, TurnPlan};
use fl_cores_fork::{CoreThread, core_at};
use fl_cores_jobs::{BindingCores, JoinedJobs};
use fl_cores_shares::CoreShares;
use fl_cores_table::EndSeat;
use fl_history_shares::DealtSides;
use fl_history_sides::HistorySides;
use fl_hop::{Circuits, law_never_shared};
use fl_link::QueueLink;
use fl_nameserv::Names;
use fl_ring::OneDuo;
use fl_world_refines::Parts;
use std::alloc::{AllocError, Global};

fn owns(core: usize, bindings: &[BindingCores], end: EndId) -> bool
    ensures owns { result ≡ owns core bindings.now end }
{
    match core_at(bindings, end) {
        None => false,
        Some(c) => c == core,
    }
}

// The end's progress of an end; it has the jobs of its end's work where the end is this core's.
fn progress_for(
    alloc: Global,
    core: usize,
    joined: &JoinedJobs,
    end: EndId,
) -> Result<EndProgress, AllocError>
    requires few { end.binding < 1024 }
    requires end_work { slot_of end < length joined.now.end_works.items }
    ensures progress { IfOk result (λ progress. progress ≡ progress_for core (joined_of joined.now) end) }
{
    let end_work = &joined.end_works[slot_of(end)];
    let mut jobs = Vec::new(alloc);
    if owns(core, &joined.bindings, end) {
        jobs.extend_from_slice(&end_work.jobs)?;
    }
    Ok(EndProgress::new(alloc, jobs, end_work.due))
}

// The ends' progress of all ends.
#[tactic(auto, using(crate::proofs::Lists::two_more))]
fn progresses_for(
    alloc: Global,
    core: usize,
    joined: &JoinedJobs,
) -> Result<Vec<EndProgress>, AllocError>
    requires few { length joined.now.bindings.items ≤ 1024 }
    requires end_works { HasEndWork joined.now.bindings.items joined.now.end_works.items }
    ensures progresses { IfOk result (λ progresses. progresses.items ≡ progresses_of core (joined_of joined.now)) }
{
    let mut progresses = Vec::new(alloc);
    for binding in 0..joined.bindings.as_slice().len() {
        let side = Side::Client;
        progresses.push(progress_for(alloc, core, joined, EndId { binding, side })?)?;
        let side = Side::Server;
        progresses.push(progress_for(alloc, core, joined, EndId { binding, side })?)?;
    }
    Ok(progresses)
}

// What is known at the start of the opening of a binding: where no job opens it nothing, else where the job's word stands.
fn client_word(opened: Option<usize>) -> OpeningStatus
    ensures word { result ≡ word_by Tells opened }
{
    match opened {
        None => OpeningStatus::Silent,
        Some(job) => OpeningStatus::Tells(job),
    }
}

fn server_word(opened: Option<usize>) -> OpeningStatus
    ensures word { result ≡ word_by Hears opened }
{
    match opened {
        None => OpeningStatus::Silent,
        Some(job) => OpeningStatus::Hears(job),
    }
}

// The ends of a binding at a core, and their words, are added to these.
fn add_ends(
    core: usize,
    binding: usize,
    bound: BindingCores,
    ends: &mut Vec<EndId>,
    words: &mut Vec<OpeningStatus>,
) -> Result<(), AllocError>
    requires as_many { length words.old.items ≡ length ends.old.items }
    ensures ends { OnOk result (ends.new.items ≡ ends.old.items ++ ends_at core binding bound) }
    ensures words { OnOk result (words.new.items ≡ words.old.items ++ words_at core bound) }
    ensures as_many { OnOk result (length words.new.items ≡ length ends.new.items) }
{
    if bound.client == core {
        ends.push(EndId {
            binding,
            side: Side::Client,
        })?;
        words.push(client_word(bound.opened))?;
    }
    if bound.server == core {
        ends.push(EndId {
            binding,
            side: Side::Server,
        })?;
        words.push(server_word(bound.opened))?;
    }
    Ok(())
}

// The ends at a core, and what is known of their openings.
#[tactic(auto, using(crate::proofs::Lists::ends_more))]
fn ends_of(
    alloc: Global,
    core: usize,
    bindings: &[BindingCores],
) -> Result<(Vec<EndId>, Vec<OpeningStatus>), AllocError>
    ensures ends { IfOk result (λ r. r.0.items ≡ ends_from core 0 bindings.now) }
    ensures words { IfOk result (λ r. r.1.items ≡ words_of core bindings.now) }
    ensures as_many { IfOk result (λ r. length r.1.items ≡ length r.0.items) }
{
    let mut ends = Vec::new(alloc);
    let mut words = Vec::new(alloc);
    for (binding, bound) in bindings.iter().enumerate() {
        add_ends(core, binding, *bound, &mut ends, &mut words)?;
    }
    Ok((ends, words))
}

// How many links a core with this table has: at most 15.
fn link_count(circuits: &Circuits) -> u16
    ensures count { result ≡ length circuits.now.links }
{
    law_never_shared(circuits);
    circuits.links().len() as u16
}

// The links of a core, in order of their making.
fn links_of(alloc: Global, core: &Core) -> Result<Vec<LinkId>, AllocError>
    ensures links { IfOk result (λ links. links.items ≡ links_below (length core.now.link_sides)) }
{
    core.law_sound();
    let mut links = Vec::new(alloc);
    for number in 0..link_count(core.monitor().circuits()) {
        links.push(LinkId(number))?;
    }
    Ok(links)
}

// Copies of the programs.
fn copies(alloc: Global, programs: &[Program]) -> Result<Vec<Program>, AllocError>
    ensures equal { IfOk result (λ all. map program_of all.items ≡ map program_of programs.now) }
{
    let mut all = Vec::new(alloc);
    for program in programs {
        all.push(program.duplicate(alloc)?)?;
    }
    Ok(all)
}

// What all core threads are made of, but for what is each core's own.
#[derive(Drop)]
struct CoreInputs<'a> {
    alloc: Global,
    cores: usize,
    joined: &'a JoinedJobs,
    names: &'a Names,
    programs: &'a [Program],
    // the places of all sides and queues among those of their cores
    sides: &'a [usize],
    queues: &'a [usize],
}

// What a core's run works with besides what is handed out to it.
#[derive(Drop)]
struct CoreOutfit {
    progresses: Vec<EndProgress>,
    names: Names,
    programs: Vec<Program>,
}

impl CoreInputs<'_> {
    // The ends' progress of core k, and its copies of the names and programs.
    fn outfit(&self, k: usize) -> Result<CoreOutfit, AllocError>
        requires few { length self.now.joined.now.bindings.items ≤ 1024 }
        requires end_works { HasEndWork self.now.joined.now.bindings.items self.now.joined.now.end_works.items }
        ensures progresses { IfOk result (λ o. o.progresses.items ≡ progresses_of k (joined_of self.now.joined.now)) }
        ensures names { IfOk result (λ o. o.names ≡ self.now.names.now) }
        ensures programs { IfOk result (λ o. map program_of o.programs.items ≡ map program_of self.now.programs.now) }
    {
        Ok(CoreOutfit {
            progresses: progresses_for(self.alloc, k, self.joined)?,
            names: self.names.duplicate()?,
            programs: copies(self.alloc, self.programs)?,
        })
    }

    // The plan of core k, and what is known of the openings of its ends.
    fn plan(&self, k: usize, core: &Core) -> Result<(TurnPlan, Vec<OpeningStatus>), AllocError>
        ensures links { IfOk result (λ r. r.0.links.items ≡ links_below (length core.now.link_sides)) }
        ensures ends { IfOk result (λ r. r.0.ends.items ≡ ends_from k 0 self.now.joined.now.bindings.items) }
        ensures dispatchers { IfOk result (λ r. r.0.dispatchers ≡ length core.now.board.dispatchers) }
        ensures cores { IfOk result (λ r. r.0.cores ≡ self.now.cores) }
        ensures words { IfOk result (λ r. r.1.items ≡ words_of k self.now.joined.now.bindings.items) }
        ensures as_many { IfOk result (λ r. length r.1.items ≡ length r.0.ends.items) }
    {
        let (ends, words) = ends_of(self.alloc, k, &self.joined.bindings)?;
        let plan = TurnPlan {
            links: links_of(self.alloc, core)?,
            ends,
            dispatchers: core.board().dispatchers(),
            cores: self.cores as u64,
        };
        Ok((plan, words))
    }

    // The run of core k, whose numbers of sides and queues are still those of the set-up.
    fn running(
        &self,
        k: usize,
        core: Core,
        rings: HistorySides,
        queues: Vec<QueueLink>,
    ) -> Result<Box<RunningCore<HistorySides>>, AllocError>
        requires few { length self.now.joined.now.bindings.items ≤ 1024 }
        requires end_works { HasEndWork self.now.joined.now.bindings.items self.now.joined.now.end_works.items }
        ensures core { IfOk result (λ r. r.value.core ≡ core) }
        ensures rings { IfOk result (λ r. r.value.rings ≡ rings) }
        ensures queues { IfOk result (λ r. r.value.queues.items ≡ queues.items) }
        ensures progresses { IfOk result (λ r. r.value.progresses.items ≡ progresses_of k (joined_of self.now.joined.now)) }
        ensures names { IfOk result (λ r. r.value.names ≡ self.now.names.now) }
        ensures programs { IfOk result (λ r. map program_of r.value.programs.items ≡ map program_of self.now.programs.now) }
    {
        let outfit = self.outfit(k)?;
        let running = RunningCore {
            alloc: self.alloc,
            core,
            rings,
            queues,
            progresses: outfit.progresses,
            names: outfit.names,
            programs: outfit.programs,
            idle: 0,
        };
        Ok(Box::new(self.alloc, running)?)
    }

    // The core thread of core k, with its sides, queues and seat.
    fn core_thread(
        &self,
        k: usize,
        core: Core,
        rings: HistorySides,
        queues: Vec<QueueLink>,
        seat: EndSeat,
    ) -> Result<CoreThread, AllocError>
        requires bindings { AreBindings self.now.cores self.now.joined.now.bindings.items self.now.joined.now.owners.items }
        requires end_works { HasEndWork self.now.joined.now.bindings.items self.now.joined.now.end_works.items }
        requires seat { IsAlone self.now.joined.now.owners.items k seat.knows }
        ensures ready { IfOk result IsReady }
        ensures core_thread { IfOk result (λ s. IsCoreThread (common_of self.now) k core (core_thread_of s)) }
        ensures seat { IfOk result (λ s. s.run_seat.seat ≡ seat) }
        ensures rings { IfOk result (λ s. s.running.value.rings ≡ rings) }
        ensures queues { IfOk result (λ s. s.running.value.queues.items ≡ queues.items) }
    {
        let mut running = self.running(k, core, rings, queues)?;
        let (plan, words) = self.plan(k, &running.core)?;
        running.core.renumber(self.sides, self.queues);
        running.core.law_sound();
        Ok(CoreThread {
            running,
            plan,
            run_seat: RunSeat { seat, words },
        })
    }

    // A core thread more behind the others, with a seat cut off everybody's.
    fn add_core_thread(
        &self,
        core_threads: &mut Vec<CoreThread>,
        own: &mut EndSeat,
        core: Core,
        rings: HistorySides,
        queues: Vec<QueueLink>,
    ) -> Result<(), AllocError>
        requires bindings { AreBindings self.now.cores self.now.joined.now.bindings.items self.now.joined.now.owners.items }
        requires end_works { HasEndWork self.now.joined.now.bindings.items self.now.joined.now.end_works.items }
        requires few { length core_threads.old.items < self.now.cores }
        requires own { own.old.knows ≡ left_view self.now.cores self.now.joined.now.owners.items (length core_threads.old.items) }
        ensures adds { OnOk result (AddsCoreThread (common_of self.now) (core_share core rings queues.items)
            (stationed own.old core_threads.old.items) (stationed own.new core_threads.new.items)) }
    {
        let k = core_threads.as_slice().len();
        let seat = own.split()?;
        core_threads.push(self.core_thread(k, core, rings, queues, seat)?)?;
        Ok(())
    }

    // The core threads of the first cores, each with a seat cut off everybody's.
    fn core_threads(
        &self,
        own: &mut EndSeat,
        cores: Vec<Core>,
        sides: Vec<HistorySides>,
        queues: Vec<Vec<QueueLink>>,
    ) -> Result<Vec<CoreThread>, AllocError>
        requires bindings { AreBindings self.now.cores self.now.joined.now.bindings.items self.now.joined.now.owners.items }
        requires end_works { HasEndWork self.now.joined.now.bindings.items self.now.joined.now.end_works.items }
        requires few { length cores.items ≤ self.now.cores }
        requires own { own.old.knows ≡ left_view self.now.cores self.now.joined.now.owners.items 0 }
        requires sides { length sides.items ≡ length cores.items }
        requires queues { length queues.items ≡ length cores.items }
        ensures ready { IfOk result (λ v. AllReady v.items) }
        ensures core_threads { IfOk result (λ v. AreCoreThreads (common_of self.now) 0 cores.items (map core_thread_of v.items)) }
        ensures left { OnOk result (own.new.knows ≡ left_view self.now.cores self.now.joined.now.owners.items (length cores.items)) }
        ensures table { OnOk result (own.new.table ≡ own.old.table) }
        ensures seats { IfOk result (λ v. AreSeats own.old (seats_given (map core_thread_of v.items))) }
        ensures hands { IfOk result (λ v. hands_given v.items ≡ hands_in sides.items) }
        ensures queues { IfOk result (λ v. queues_given (map core_thread_of v.items) ≡ map (λ holding. holding.items) queues.items) }
    {
        let mut cores = cores;
        let Some(core) = cores.pop() else {
            return Ok(Vec::new(self.alloc));
        };
        let mut sides = sides;
        let mut queues = queues;
        let Some(own_sides) = sides.pop() else {
            unreachable!();
        };
        let Some(own_queues) = queues.pop() else {
            unreachable!();
        };
        let mut core_threads = self.core_threads(own, cores, sides, queues)?;
        self.add_core_thread(&mut core_threads, own, core, own_sides, own_queues)?;
        Ok(core_threads)
    }
}

// New rings and the queues of a set-up, each handed out to the core that names it.
#[derive(Drop)]
struct LinkShares {
    sides: DealtSides,
    queues: CoreShares<QueueLink>,
}

fn share(
    alloc: Global,
    rings: &[OneDuo],
    queues: Vec<QueueLink>,
    cores: &[Core],
) -> Result<LinkShares, AllocError>
    requires some { 0 < length cores.now }
    ensures shares { IfOk result (λ s. SharesOut cores.now rings.now queues.items s.sides s.queues) }
{
    let by_name = SideOwners::from_names(alloc, rings.len(), queues.as_slice().len(), cores)?;
    Ok(LinkShares {
        sides: deal_sides(alloc, rings, &by_name.sides, cores.len())?,
        queues: hand_out_queues(alloc, queues, &by_name.queues, cores.len())?,
    })
}

/// What the threads of all cores are given, and the owners of all sides of rings, by which these are put together again.
#[derive(Drop)]
pub(crate) struct WiredThreads {
    pub(crate) core_threads: Vec<CoreThread>,
    pub(crate) owners: Vec<usize>,
}

/// Gives each core what its thread needs, and a seat cut off everybody's. What is left of that is the run's own, by which it may tell of a stop.
pub(crate) fn wire(
    alloc: Global,
    parts: Parts,
    joined: &JoinedJobs,
    own: &mut EndSeat,
) -> Result<WiredThreads, AllocError>
    requires bindings { AreBindings (length parts.cores.items) joined.now.bindings.items joined.now.owners.items }
    requires end_works { HasEndWork joined.now.bindings.items joined.now.end_works.items }
    requires own { own.old.knows ≡ opening_view (length parts.cores.items) joined.now.owners.items }
    ensures ready { IfOk result (λ w. AllReady w.core_threads.items) }
    ensures wires { IfOk result (λ w. Wirings parts (joined_of joined.now) (map core_thread_of w.core_threads.items) w.owners.items) }
    ensures at { IfOk result (λ w. BeginAtTable parts.rings.items w.owners.items (length parts.cores.items) (hands_given w.core_threads.items)) }
    ensures left { OnOk result (own.new.knows ≡ left_view (length parts.cores.items) joined.now.owners.items (length parts.cores.items)) }
    ensures able { OnOk result (own.new.knows.stopped < own.new.knows.seats) }
    ensures table { OnOk result (own.new.table ≡ own.old.table) }
    ensures seats { IfOk result (λ w. AreSeats own.old (seats_given (map core_thread_of w.core_threads.items))) }
{
    let Parts {
        cores,
        rings,
        queues,
        programs,
        names,
        bindings: _,
    } = parts;
    if cores.is_empty() {
        // A set-up has one core at least.
        return Err(AllocError);
    }
    let LinkShares { sides, queues } = share(alloc, &rings, queues, &cores)?;
    let DealtSides { numbers, sides } = sides;
    let owners = numbers.owners;
    let queue_holdings = queues.holdings;
    let common = CoreInputs {
        alloc,
        cores: cores.as_slice().len(),
        joined,
        names: &names,
        programs: &programs,
        sides: &numbers.places,
        queues: &queues.places,
    };
    let core_threads = common.core_threads(own, cores, sides, queue_holdings)?;
    Ok(WiredThreads {
        core_threads,
        owners,
    })
}
