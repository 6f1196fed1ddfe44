//! What the sides of a core tell of it: laws, as contracts of functions that do nothing.

ghost use Rattle.fl_history_sides.specs.Laws.{SidesAreShared, SidesStay, OneTellsAll, SidesTellCore, CoresFollow};
ghost use Rattle.fl_history_sides.specs.Laws.{RingsAreNear};

/// What a side of a core does in a row, a side of a ring that has a table of its own does.
pub fn law_sides_are_shared()
    ensures shared { SidesAreShared }
{}

/// Whatever a side does, it stays a side of its core, under its number.
pub fn law_sides_stay()
    ensures stay { SidesStay }
{}

/// A core that did something is as one of its sides tells.
pub fn law_one_tells_all()
    ensures tells { OneTellsAll }
{}

/// Where a core has sides, they are of no other.
pub fn law_sides_tell_core()
    ensures tell { SidesTellCore }
{}

/// Where one side of a core goes on and the others stay, the core did what that side noted, behind all that
/// it had done.
pub fn law_cores_follow()
    ensures follow { CoresFollow }
{}

/// Of a ring whose two cores are gathered, what one side took is the first of what the other put, and what one
/// knows to be taken was taken.
pub fn law_rings_are_near()
    ensures near { RingsAreNear }
{}
