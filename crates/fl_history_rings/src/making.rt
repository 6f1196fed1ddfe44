//! Rings made, and the cores at them given out.

ghost use Rattle.std.specs.Prelude.{ℕ, ◌≡◌, ◌+◌, ◌*◌, ◌<◌, ◌≤◌, [], ◌∷◌, ◌++◌, IfOk, IfSome, OnOk, OnErr};
ghost use Rattle.std.specs.Prelude.{MatchOption};
ghost use Rattle.std.specs.List.{AllByRecursion};
ghost use Rattle.fl_history_rings.specs.Rings.{sides_of};
ghost use Rattle.fl_history_rings.specs.Rule.{words_of, first_view, ArePaired};
ghost use Rattle.fl_history_rings.specs.Seats.{IsLaid, HaveSlots};
ghost use Rattle.fl_history_rings.specs.Cores.{IsRingOf, all_left, next_core, without_next};

use crate::board::{Plan, RingEnds, RingsBoard, RingsSeat, RingsTable, SideEnd};
use crate::one_core::RingsCore;
use crate::plays::PartCores;
use std::alloc::{AllocError, Global};
use std::marker::Model;
use std::sync::Arc;

/// The cores at the rings of a table that aren't given out yet.
#[derive(Drop)]
pub struct CoresLeft {
    pub(crate) board: Arc<RingsBoard, Global>,
    pub(crate) seat: RingsSeat,
    pub(crate) next: usize,
}

impl Model for CoresLeft {
    ghost use Rattle.std.specs.Arc.{arc_value};
    ghost use Rattle.fl_history_rings.specs.Cores.{TheCoresLeft, left_shown, AreLeft};

    ghost Value = { TheCoresLeft };

    ghost view = { λ s. left_shown (arc_value s.board) s.seat s.next };

    ghost invariant = { λ s. AreLeft (arc_value s.board) s.seat s.next };
}

/// New rings, all empty, and so many cores at them. Sides 2k and 2k + 1 are those of ring k.
///
/// # Errors
/// Out of memory, also where the slots are more than a word can count.
pub fn rings(alloc: Global, rings: &[RingEnds], cores: usize) -> Result<CoresLeft, AllocError>
    requires rings { AllByRecursion (IsRingOf cores) rings.now }
    ensures left { IfOk result (λ left. left ≡ all_left left.table (sides_of rings.now) cores) }
{
    let Ok(sides) = sides_of(alloc, rings) else {
        return Err(AllocError);
    };
    lay(alloc, sides, cores)
}

// The sides of these rings, two by two.
fn sides_of(alloc: Global, rings: &[RingEnds]) -> Result<Vec<SideEnd>, AllocError>
    ensures sides { IfOk result (λ sides. sides.items ≡ sides_of rings.now) }
{
    let mut sides = Vec::new(alloc);
    for k in 0..rings.len() {
        let ring = rings[k];
        let Ok(()) = push_both(&mut sides, ring) else {
            return Err(AllocError);
        };
    }
    Ok(sides)
}

// Both sides of a ring more.
fn push_both(sides: &mut Vec<SideEnd>, ring: RingEnds) -> Result<(), AllocError>
    ensures more { OnOk result (sides.new.items ≡ sides.old.items ++ sides_of (ring ∷ [])) }
{
    let slots = ring.slots;
    sides.push(SideEnd {
        slots,
        core: ring.first,
    })?;
    sides.push(SideEnd {
        slots,
        core: ring.second,
    })?;
    Ok(())
}

// The table of these sides.
fn lay(alloc: Global, sides: Vec<SideEnd>, cores: usize) -> Result<CoresLeft, AllocError>
    requires slots { HaveSlots sides.items }
    requires paired { ArePaired sides.items }
    ensures left { IfOk result (λ left. left ≡ all_left left.table sides.items cores) }
{
    let Some(count) = words_of(sides.as_slice()) else {
        return Err(AllocError);
    };
    let Ok(words) = vec![in alloc; 0; count] else {
        return Err(AllocError);
    };
    let plan = Plan { cores, sides };
    let Ok((table, seat)) = RingsTable::of_words(alloc, words.as_slice(), &plan) else {
        return Err(AllocError);
    };
    cores_left(alloc, table, seat, plan)
}

// How many words the table of these rings has.
fn words_of(sides: &[SideEnd]) -> Option<usize>
    ensures { IfSome result (λ count. count ≡ words_of sides.now + 1) }
{
    let mut count: usize = 1;
    for k in 0..sides.len() {
        let slots = sides[k].slots;
        let Some(more) = words_behind(count, slots) else {
            return None;
        };
        count = more;
    }
    Some(count)
}

// With the way of one side more.
fn words_behind(before: usize, slots: usize) -> Option<usize>
    ensures { IfSome result (λ count. count ≡ before + 8 * slots) }
{
    before.checked_add(slots.checked_mul(8)?)
}

// The cores at the rings of a new table.
fn cores_left(
    alloc: Global,
    table: RingsTable,
    seat: RingsSeat,
    plan: Plan,
) -> Result<CoresLeft, AllocError>
    requires table { (seat.table_id ≡ table.shared.table_id) × (table.shared.key ≡ plan)
        × IsLaid table.shared.table_id plan }
    requires seat { seat.me ≡ (first_view plan.sides.items plan.cores, []) }
    ensures left { IfOk result (λ left. left ≡ all_left left.table plan.sides.items plan.cores) }
{
    let Ok(board) = Arc::new(alloc, RingsBoard { table, plan }) else {
        return Err(AllocError);
    };
    let left = CoresLeft {
        board,
        seat,
        next: 0,
    };
    Ok(left)
}

impl CoresLeft {
    /// The next core, with its seat; `None` once all are given out.
    ///
    /// # Errors
    /// Out of memory: the core isn't given out.
    pub fn core(&mut self) -> Result<Option<RingsCore>, AllocError>
        ensures given { IfOk result (λ given. MatchOption given
            ((self.new ≡ self.old) × (self.old.cores ≤ self.old.next))
            (λ core. (self.old.next < self.old.cores) × (core ≡ next_core self.old)
            × (self.new ≡ without_next self.old))) }
        ensures kept { OnErr result (self.new ≡ self.old) }
    {
        let plan = &self.board.plan;
        if self.next >= plan.cores {
            return Ok(None);
        }
        let Ok(board) = Arc::try_clone(&self.board) else {
            return Err(AllocError);
        };
        let seat = board.table.shared.split_seat::<PartCores>(&mut self.seat);
        let number = self.next;
        self.next += 1;
        let core = RingsCore {
            board,
            seat,
            number,
        };
        Ok(Some(core))
    }
}
