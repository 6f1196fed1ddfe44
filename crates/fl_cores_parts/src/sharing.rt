//! Whose each side of a ring and each queue is, and all of them handed out.

ghost use Rattle.std.specs.Prelude.{◌≡◌, ◌≢◌, ◌+◌, ◌*◌, ◌<◌, length, slice_get, slice_set, Some, IfOk, OnOk};
ghost use Rattle.fl_cores_parts.specs.Dealing.{IsLinkSide, TakesSide, TakesQueue, PutsQueue, Below, Owns, AreOf, HaveOwners, DealsRings, HandsOutQueues};
ghost use Rattle.fl_ring.specs.Duo.{MayHaveSlots};
ghost use Rattle.fl_cores_parts.specs.AtTable.{AreBetween};
ghost use Rattle.fl_world_refines.specs.ShowsState.{NamesQueue, NamesSide};

use fl_base::{LinkId, MAX_QUEUE};
use fl_core::{Core, Inlet, Outlet};
use fl_cores_shares::CoreShares;
use fl_history_rings::RingEnds;
use fl_history_shares::{DealtSides, deal};
use fl_hop::{MAX_LINKS, law_never_shared};
use fl_link::QueueLink;
use fl_ring::OneDuo;
use std::alloc::{AllocError, Global};

// ---- owners

// The thing of this number is the core's.
fn own(owners: &mut Vec<usize>, thing: usize, core: usize)
    ensures own { owners.new.items ≡ slice_set owners.old.items thing core }
{
    if let Some(owner) = owners.get_mut(thing) {
        *owner = core;
    }
}

// The side of a link, if there is one, is its core's.
fn own_link(owners: &mut Vec<usize>, k: usize, core: &Core, link: LinkId)
    ensures owns { Owns (IsLinkSide core.now.link_sides link.0) k owners.old.items owners.new.items }
{
    match core.side(link) {
        None => (),
        Some(side) => own(owners, side, k),
    }
}

fn own_links(owners: &mut Vec<usize>, k: usize, core: &Core)
    ensures owns { Owns (Below (IsLinkSide core.now.link_sides) 15) k owners.old.items owners.new.items }
{
    for number in 0..MAX_LINKS as u16 {
        own_link(owners, k, core, LinkId(number));
    }
}

// The side from which an end takes, if it takes from one.
fn own_side(owners: &mut Vec<usize>, k: usize, core: &Core, e: usize)
    requires there { e < length core.now.board.seats }
    ensures owns { Owns (TakesSide core.now e) k owners.old.items owners.new.items }
{
    match core.inlet(e) {
        Inlet::Side(side) => own(owners, side, k),
        Inlet::Queue(_) => (),
        Inlet::Arrivals => (),
    }
}

fn own_end_sides(owners: &mut Vec<usize>, k: usize, core: &Core)
    ensures owns { Owns (Below (TakesSide core.now) (length core.now.board.seats)) k owners.old.items owners.new.items }
{
    for e in 0..core.board().ends() {
        own_side(owners, k, core, e);
    }
}

// All sides that a core names are its own.
fn own_sides(owners: &mut Vec<usize>, k: usize, core: &Core)
    ensures owns { Owns (NamesSide core.now) k owners.old.items owners.new.items }
{
    core.law_sound();
    law_never_shared(core.monitor().circuits());
    own_links(owners, k, core);
    own_end_sides(owners, k, core);
}

// The queue from which an end takes, if it takes from one, and the one to which it puts.
fn own_inlet(owners: &mut Vec<usize>, k: usize, core: &Core, e: usize)
    requires there { e < length core.now.board.seats }
    ensures owns { Owns (TakesQueue core.now e) k owners.old.items owners.new.items }
{
    match core.inlet(e) {
        Inlet::Queue(queue) => own(owners, queue, k),
        Inlet::Side(_) => (),
        Inlet::Arrivals => (),
    }
}

fn own_outlet(owners: &mut Vec<usize>, k: usize, core: &Core, e: usize)
    requires there { e < length core.now.board.seats }
    ensures owns { Owns (PutsQueue core.now e) k owners.old.items owners.new.items }
{
    match core.outlet(e) {
        Outlet::Queue(queue) => own(owners, queue, k),
        Outlet::Side(_) => (),
    }
}

// All queues that a core names are its own.
fn own_queues(owners: &mut Vec<usize>, k: usize, core: &Core)
    ensures owns { Owns (NamesQueue core.now) k owners.old.items owners.new.items }
{
    core.law_sound();
    for e in 0..core.board().ends() {
        own_inlet(owners, k, core, e);
        own_outlet(owners, k, core, e);
    }
}

/// To which core each side of a ring goes, and each queue. What no core names goes to core 0.
#[derive(Drop)]
pub(crate) struct SideOwners {
    pub(crate) sides: Vec<usize>,
    pub(crate) queues: Vec<usize>,
}

// So many rings, whose sides all go to core 0.
fn all_to_first(alloc: Global, rings: usize) -> Result<Vec<usize>, AllocError>
    ensures count { IfOk result (λ v. length v.items ≡ 2 * rings) }
    ensures of { IfOk result (λ v. AreOf 1 v.items) }
{
    let mut sides = Vec::new(alloc);
    for _ in 0..rings {
        sides.push(0)?;
        sides.push(0)?;
    }
    Ok(sides)
}

impl SideOwners {
    /// As the cores name them.
    pub(crate) fn from_names(
        alloc: Global,
        rings: usize,
        queues: usize,
        cores: &[Core],
    ) -> Result<SideOwners, AllocError>
        requires some { 0 < length cores.now }
        ensures sides { IfOk result (λ o. HaveOwners cores.now NamesSide (2 * rings) o.sides.items) }
        ensures queues { IfOk result (λ o. HaveOwners cores.now NamesQueue queues o.queues.items) }
    {
        let mut sides = all_to_first(alloc, rings)?;
        let mut all_queues = vec![in alloc; 0; queues]?;
        for k in 0..cores.len() {
            own_sides(&mut sides, k, &cores[k]);
            own_queues(&mut all_queues, k, &cores[k]);
        }
        Ok(SideOwners {
            sides,
            queues: all_queues,
        })
    }
}

// ---- handing out

// A ring of the size of this one, whose sides are these cores'.
fn ring_between(ring: &OneDuo, first: usize, second: usize) -> Result<RingEnds, AllocError>
    ensures slots { IfOk result (λ r. r.slots ≡ ring.now.size) }
    ensures may { OnOk result (MayHaveSlots ring.now.size) }
    ensures first { IfOk result (λ r. r.first ≡ first) }
    ensures second { IfOk result (λ r. r.second ≡ second) }
    ensures apart { OnOk result (first ≢ second) }
{
    let slots = ring.words().len() / 16;
    // No set-up has a ring of other slots, or with both sides at one core.
    if slots < 4 || slots > MAX_QUEUE || !slots.is_power_of_two() || first == second {
        return Err(AllocError);
    }
    Ok(RingEnds {
        slots,
        first,
        second,
    })
}

// Rings of the same sizes, whose sides have these owners.
fn ring_ends(
    alloc: Global,
    rings: &[OneDuo],
    owners: &[usize],
    cores: usize,
) -> Result<Vec<RingEnds>, AllocError>
    requires count { length owners.now ≡ 2 * length rings.now }
    requires of { AreOf cores owners.now }
    ensures between { IfOk result (λ ends. AreBetween rings.now owners.now cores ends.items) }
{
    let mut ends = Vec::new(alloc);
    let mut place = 0;
    for ring in rings {
        ends.push(ring_between(ring, owners[place], owners[place + 1])?)?;
        place += 2;
    }
    Ok(ends)
}

/// New rings of the same sizes, whose sides go to their cores.
pub(crate) fn deal_sides(
    alloc: Global,
    rings: &[OneDuo],
    owners: &[usize],
    cores: usize,
) -> Result<DealtSides, AllocError>
    requires count { length owners.now ≡ 2 * length rings.now }
    requires of { AreOf cores owners.now }
    ensures deals { IfOk result (DealsRings rings.now owners.now cores) }
{
    let ends = ring_ends(alloc, rings, owners, cores)?;
    deal(alloc, &ends, cores)
}

/// The queues go to their cores.
pub(crate) fn hand_out_queues(
    alloc: Global,
    queues: Vec<QueueLink>,
    owners: &[usize],
    cores: usize,
) -> Result<CoreShares<QueueLink>, AllocError>
    requires count { length owners.now ≡ length queues.items }
    requires of { AreOf cores owners.now }
    ensures hands_out { IfOk result (λ d. HandsOutQueues queues.items owners.now cores d) }
{
    let mut handed_out = CoreShares::new(alloc, cores)?;
    let mut place = 0;
    for queue in queues {
        handed_out = handed_out.give(owners[place], queue)?;
        place += 1;
    }
    Ok(handed_out)
}
