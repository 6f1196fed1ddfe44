//! A core's sides, made and gone over.

ghost use Rattle.std.specs.Prelude.{◌≡◌, ◌<◌, [], length, map, Some, IfOk, MatchOption};
ghost use Rattle.std.specs.List.{AllByRecursion};
ghost use Rattle.fl_history_rings.specs.Cores.{Owns};
ghost use Rattle.fl_history_sides.specs.States.{TheHistorySide, first_shown};
ghost use Rattle.fl_history_sides.specs.Lent.{TheRest, AreFirst, state_of, rest_of, states_in, Lends};
ghost use Rattle.fl_history_sides.specs.Core.{IsDistinct, IsOwnSide, AreSidesOf};
ghost use Rattle.fl_history_sides.specs.Ways.{history_ways};

use crate::lent::LentSide;
use fl_core_run::CoreSides;
use fl_history_rings::{RingSide, RingsCore};
use std::alloc::{AllocError, Global};

/// The sides of a core at a table of rings, by the numbers by which the core names them. There may be none.
#[derive(Drop)]
pub struct HistorySides {
    lent: Option<LentSide>,
}

// The sides of these numbers, while the core has done nothing yet.
fn sides_of(alloc: Global, core: &RingsCore, numbers: &[usize]) -> Result<Vec<RingSide>, AllocError>
    requires new { core.now.steps ≡ [] }
    requires mine { AllByRecursion (λ n. Owns core.now.sides n core.now.number) numbers.now }
    ensures sides { IfOk result (λ sides. AreFirst core.now numbers.now sides.items) }
{
    let mut sides = Vec::new(alloc);
    for k in 0..numbers.len() {
        let Ok(side) = core.side(numbers[k]) else {
            unreachable!();
        };
        let Ok(()) = sides.push(side) else {
            return Err(AllocError);
        };
    }
    Ok(sides)
}

impl HistorySides {
    /// The core with its sides of these numbers, while it has done nothing yet. Side `n` is that of number
    /// `numbers[n]` in the table. Where there are no numbers, or no memory, the core is dropped.
    ///
    /// # Errors
    /// Out of memory.
    pub fn of(alloc: Global, core: RingsCore, numbers: &[usize]) -> Result<HistorySides, AllocError>
        requires new { core.steps ≡ [] }
        requires mine { AllByRecursion (λ n. Owns core.sides n core.number) numbers.now }
        requires apart { IsDistinct numbers.now }
        ensures made { IfOk result (λ made. states_in made.lent ≡ map (first_shown core) numbers.now) }
    {
        let Ok(sides) = sides_of(alloc, &core, numbers) else {
            return Err(AllocError);
        };
        if sides.is_empty() {
            return Ok(HistorySides { lent: None });
        }
        let lent = LentSide { core, sides, at: 0 };
        Ok(HistorySides { lent: Some(lent) })
    }

    /// The sides are moved into memory that is asked for now, so into that of the thread on which this is called. Where there is none, they stay where they
    /// are.
    pub fn take_own_memory(&mut self, alloc: Global)
        ensures same { self.new ≡ self.old }
    {
        if let Some(lent) = &mut self.lent {
            lent.take_own_memory(alloc);
        }
    }

    /// The core with its sides, where it has any.
    pub fn into_lent(self) -> Option<LentSide>
        ensures lent { result ≡ self.lent }
    {
        let HistorySides { lent } = self;
        lent
    }

    /// The sides of a core that comes with them.
    pub fn of_lent(lent: Option<LentSide>) -> HistorySides
        ensures lent { result.lent ≡ lent }
    {
        HistorySides { lent }
    }

    /// The core again, where it has sides.
    pub fn into_core(self) -> Option<RingsCore>
        ensures core { MatchOption result (states_in self.lent ≡ [])
            (λ core. (0 < length (states_in self.lent)) × AreSidesOf core (states_in self.lent)
            × AllByRecursion (IsOwnSide core) (states_in self.lent)) }
    {
        let HistorySides { lent } = self;
        let lent = lent?;
        Some(lent.into_core())
    }
}

impl CoreSides for HistorySides {
    type Lent = LentSide;

    ghost use Rattle.std.specs.Prelude.{Some, refl};
    ghost use Rattle.fl_history_sides.specs.Given.{lent_stands, returned_stands};

    ghost State = { TheHistorySide };

    ghost Rest = { TheRest };

    ghost states = { λ s. states_in s.lent };

    ghost state_of = { state_of };

    ghost rest_of = { rest_of };

    ghost lends = { λ s n a. Lends s.lent n a };

    ghost returned = { λ s n b. record { lent = Some b } };

    ghost ways = { history_ways };

    #[inline(always)]
    fn count(&self) -> usize {
        match &self.lent {
            None => 0,
            Some(lent) => lent.count(),
        }
    }

    // All that the core did is shown by its sides.
    #[inline(always)]
    fn shows(&self) {
        if let Some(lent) = &self.lent {
            lent.shows();
        }
    }

    #[inline(always)]
    fn side(&mut self, n: usize) -> &mut LentSide {
        let Some(lent) = &mut self.lent else {
            unreachable!();
        };
        lent.at = n;
        lent
    }

    ghost stands = { λ s n a lent. lent_stands s.lent n a lent };

    ghost gives_back = { λ s n a b lent same. returned_stands s.lent n a b lent same };

    ghost puts_are = { λ a look b put. put };

    ghost takes_are = { λ a look b took. took };

    ghost front_is = { λ a. refl };
}
