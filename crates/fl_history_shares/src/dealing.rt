//! Rings made at one table, and their sides dealt to cores.

ghost use Rattle.std.specs.Prelude.{◌≡◌, ◌<◌, length, map, IfOk, OnOk};
ghost use Rattle.std.specs.List.{AllByRecursion};
ghost use Rattle.fl_cores_shares.specs.Shares.{Gives};
ghost use Rattle.fl_history_rings.specs.Cores.{IsRingOf, without_next};
ghost use Rattle.fl_history_sides.specs.Lent.{states_in};
ghost use Rattle.fl_history_sides.specs.States.{first_shown};
ghost use Rattle.fl_history_shares.specs.Dealt.{new_core, first_hands, hands_in, Deals};
ghost use Rattle.fl_history_shares.specs.Dealing.{NumbersSides, AreMine, AreAllMine};

use fl_cores_shares::CoreShares;
use fl_history_rings::{CoresLeft, RingEnds, rings};
use fl_history_sides::HistorySides;
use std::alloc::{AllocError, Global};

/// The sides of new rings at one table, dealt to cores. A side is known by its number: those of ring n are number 2 n and 2 n + 1.
#[derive(Drop)]
pub struct DealtSides {
    /// Which core has which side, and where.
    pub numbers: CoreShares<usize>,
    /// By core its sides, in the order of their numbers.
    pub sides: Vec<HistorySides>,
}

// The side that is next by number goes to a core.
fn number_side(shares: CoreShares<usize>, owner: usize) -> Result<CoreShares<usize>, AllocError>
    requires there { owner < length shares.holdings.items }
    ensures gives { IfOk result (λ d. Gives owner (length shares.owners.items) shares d) }
{
    let number = shares.owners.len();
    shares.give(owner, number)
}

// By number, which core has which side of these rings.
fn number_sides(
    alloc: Global,
    rings: &[RingEnds],
    cores: usize,
) -> Result<CoreShares<usize>, AllocError>
    requires rings { AllByRecursion (IsRingOf cores) rings.now }
    ensures numbered { IfOk result (NumbersSides cores rings.now) }
{
    let mut shares = CoreShares::new(alloc, cores)?;
    for k in 0..rings.len() {
        let ring = rings[k];
        shares = number_side(shares, ring.first)?;
        shares = number_side(shares, ring.second)?;
    }
    Ok(shares)
}

// The next core, with its sides of these numbers.
fn next_sides(
    alloc: Global,
    left: &mut CoresLeft,
    numbers: &[usize],
) -> Result<HistorySides, AllocError>
    requires more { left.old.next < left.old.cores }
    requires mine { AreMine left.old.sides left.old.next numbers.now }
    ensures sides { IfOk result (λ sides. states_in sides.lent
        ≡ map (first_shown (new_core left.old.table left.old.sides left.old.next)) numbers.now) }
    ensures left { OnOk result (left.new ≡ without_next left.old) }
{
    let Some(core) = left.core()? else {
        unreachable!();
    };
    HistorySides::of(alloc, core, numbers)
}

// The sides of all cores, by their numbers.
fn sides_by(
    alloc: Global,
    left: CoresLeft,
    holdings: &[Vec<usize>],
) -> Result<Vec<HistorySides>, AllocError>
    requires first { left.next ≡ 0 }
    requires many { length holdings.now ≡ left.cores }
    requires mine { AreAllMine left.sides 0 (map (λ holding. holding.items) holdings.now) }
    ensures sides { IfOk result (λ sides. hands_in sides.items
        ≡ first_hands left.table left.sides 0 (map (λ holding. holding.items) holdings.now)) }
{
    let mut left = left;
    let mut sides = Vec::new(alloc);
    for k in 0..holdings.len() {
        sides.push(next_sides(alloc, &mut left, &holdings[k])?)?;
    }
    Ok(sides)
}

/// New rings at one table, all empty, whose sides are dealt to so many cores.
///
/// # Errors
/// Out of memory (E99).
pub fn deal(alloc: Global, ends: &[RingEnds], cores: usize) -> Result<DealtSides, AllocError>
    requires rings { AllByRecursion (IsRingOf cores) ends.now }
    ensures deals { IfOk result (Deals ends.now cores) }
{
    let numbers = number_sides(alloc, ends, cores)?;
    let left = rings(alloc, ends, cores)?;
    let sides = sides_by(alloc, left, &numbers.holdings)?;
    Ok(DealtSides { numbers, sides })
}
