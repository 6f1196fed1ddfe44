//! Cores that ran, gathered again.

ghost use Rattle.std.specs.Prelude.{◌≡◌, ◌<◌, List, [], length, Some};
ghost use Rattle.atomic_table.specs.Seated.{TableId};
ghost use Rattle.fl_history_rings.specs.declared.board.SideEnd.{SideEnd};
ghost use Rattle.fl_history_rings.specs.Cores.{TheCore};
ghost use Rattle.fl_history_sides.specs.Core.{AreSidesOf};
ghost use Rattle.fl_history_sides.specs.Lent.{states_in};
ghost use Rattle.fl_history_shares.specs.Dealt.{hands_in};
ghost use Rattle.fl_history_shares.specs.Settled.{IsCoreOf, AreAt, AreAtOne, AreSettled, FitsIn, gathered_with, Gathers, SettledAreNear};

use fl_history_rings::{Gathering, RingsCore};
use fl_history_sides::HistorySides;

// These with a core more, of the same table.
fn with_core(gathering: Option<Gathering>, core: RingsCore) -> Gathering
    requires fits { FitsIn gathering core }
    ensures with { result ≡ gathered_with gathering core }
{
    match gathering {
        None => Gathering::of(core),
        Some(gathering) => {
            let mut gathering = gathering;
            gathering.add(core);
            gathering
        }
    }
}

// These with a core more, where it has sides.
fn with_sides(gathering: Option<Gathering>, sides: HistorySides) -> Option<Gathering>
    requires fits { (core : TheCore) → 0 < length (states_in sides.lent) → AreSidesOf core (states_in sides.lent) → FitsIn gathering core }
    ensures none { states_in sides.lent ≡ [] → result ≡ gathering }
    ensures some { 0 < length (states_in sides.lent)
        → (core : TheCore) × IsCoreOf core (states_in sides.lent) × (result ≡ Some (gathered_with gathering core)) }
{
    match sides.into_core() {
        None => gathering,
        Some(core) => Some(with_core(gathering, core)),
    }
}

// All of these that have sides, gathered.
fn gather(hands: Vec<HistorySides>) -> Option<Gathering>
    requires one { AreAtOne (hands_in hands.items) }
    ensures gathers { Gathers (hands_in hands.items) result }
{
    let mut hands = hands;
    let Some(last) = hands.pop() else {
        return None;
    };
    let before = gather(hands);
    with_sides(before, last)
}

/// The cores with sides at one table, gathered: all that they did has one order.
pub fn settle(hands: Vec<HistorySides>)
    requires one { AreAtOne (hands_in hands.items) }
    ensures settled { (table : TableId) (ends : List SideEnd) → AreAt table ends (hands_in hands.items)
        → AreSettled ends (hands_in hands.items) }
{
    let Some(mut gathering) = gather(hands) else {
        return;
    };
    gathering.settle();
}

/// Of each ring of cores that are settled, what each side took is the first of what the other put.
pub fn law_settled_are_near()
    ensures near { SettledAreNear }
{}
