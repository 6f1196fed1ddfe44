//! What holds of every table, and of every stretch.

ghost use Rattle.std.specs.Prelude.{◌≡◌, ◌++◌, ℕ, List, None, Some};
ghost use Rattle.fl_base.specs.declared.fragment.Frag.{Frag};
ghost use Rattle.fl_base.specs.Prefix.{IsPrefix};
ghost use Rattle.fl_hop.specs.Table.{TheCircuits, hop_at};
ghost use Rattle.fl_hop.specs.Numbers.{OpenedHere, OpenedThere, Given, next_own, next_due};
ghost use Rattle.fl_hop.specs.Joined.{Sound};
ghost use Rattle.fl_hop.specs.Entries.{OpenedLeads, PassedLeads, ArrivedLeads};
ghost use Rattle.fl_hop.specs.Limits.{LinksSuffice};
ghost use Rattle.fl_hop.specs.Later.{Later};
ghost use Rattle.fl_hop.specs.Carried.{OneEntry, OneStep, Joins, StoodThere, StoodToo};
ghost use Rattle.fl_hop.specs.Carried.{CarriedOn, CarriedIn, OwnAlone, SetAside, Leg, Along};
ghost use Rattle.fl_hop.specs.Adds.{PassageAdds, ForwardsAdd};
ghost use Rattle.fl_hop.specs.OfCircuit.{of_circuit};

use crate::circuits::Circuits;
use fl_link::{PutSide, TakeSide};

/// In every table entries lead both ways, from the client to the server, and no two share a side; they stand at numbers
/// that were given; and no two links go to one core.
pub fn law_never_shared(circuits: &Circuits)
    ensures sound { Sound circuits.now }
{
    // The parts of a table say this.
    let _ = &circuits.cells;
}

/// In every table no number of a link is both cores', and number 0, the monitors' own, has no entry. The number of a core's
/// next opening was given by nobody, and stays given afterwards (`later_on`): so no number is given twice.
pub fn law_numbers_apart()
    ensures apart { (t : TheCircuits) → Sound t → (l n : ℕ) → OpenedHere t l n → OpenedThere t l n → ⊥ }
    ensures zero { (t : TheCircuits) → Sound t → (l : ℕ) → hop_at t l 0 ≡ None }
    ensures own { (t : TheCircuits) → Sound t → (l n : ℕ) → next_own t l ≡ Some n → Given t l n → ⊥ }
    ensures due { (t : TheCircuits) → Sound t → (l n : ℕ) → next_due t l ≡ Some n → Given t l n → ⊥ }
{}

/// After each kind of opening its entry stands, of its binding: at the number that was given, at the one that was taken, or at
/// both, leading from each to the other.
pub fn law_openings_lead()
    ensures opened { OpenedLeads }
    ensures passed_on { PassedLeads }
    ensures arrived { ArrivedLeads }
{}

/// Among the cores of a world, 0 to 15, no link is refused for there being too many: whoever has 15 has one to each other
/// core.
pub fn law_links_suffice()
    ensures suffice { LinksSuffice }
{}

/// What a table became, and what that became: a table keeps what each call keeps. An entry's number names it for ever.
pub fn law_later_on()
    ensures same { (t : TheCircuits) → Later t t }
    ensures further { (t u v : TheCircuits) → Later t u → Later u v → Later t v }
    ensures one { OneEntry }
{}

/// A step alone is a stretch, and one stretch and then another are one. An entry that stands at a stretch's start or finish
/// stood at some moment of it; one that stood at some moment of either of two stood at some moment of both together.
pub fn law_stretches_join()
    ensures one { OneStep }
    ensures joins { Joins }
    ensures there { StoodThere }
    ensures stood { StoodToo }
{}

/// Over any stretch of forwards, writes and monitors' messages at one core, what was put under the number of an entry that
/// stood at some moment of it is what was taken under the number on its other side, whatever else shares the links.
pub fn law_carried_on()
    ensures carried { CarriedOn }
{}

/// And what came to an end is what was taken under its entry's number.
pub fn law_carried_in()
    ensures carried { CarriedIn }
{}

/// And what was put under the number that an end at this core writes on is what the end wrote.
pub fn law_own_alone()
    ensures alone { OwnAlone }
{}

/// A fragment's passage, as [`look`](Circuits::look) and then [`move_on`](crate::move_on) or [`deliver`](crate::deliver) do it
/// over two sides, is one step of a stretch, or none where it stayed; what the sides took and put is what that step says.
pub fn law_passage_adds<T: TakeSide, P: PutSide>()
    ensures adds { PassageAdds T.takes P.puts T.front }
{}

/// A forward over the sides of a core's links is one step of a stretch, or none; each side took and put what that step says.
pub fn law_forward_adds<S: TakeSide + PutSide>()
    ensures adds { ForwardsAdd S.takes S.puts S.front }
{}

/// Of one list and then another a circuit carries what it carries of each; so of a prefix a prefix. It tells no epochs and
/// no counts.
pub fn law_circuits_join()
    ensures joins { (c : ℕ) (frags more : List Frag) → of_circuit c (frags ++ more) ≡ of_circuit c frags ++ of_circuit c more }
    ensures prefix { (c : ℕ) (got sent : List Frag) → IsPrefix got sent → IsPrefix (of_circuit c got) (of_circuit c sent) }
    ensures set_aside { SetAside }
{}

/// Along a route, what comes out at its end is a prefix of what was put in at its start.
pub fn law_along()
    ensures prefix { (ins outs : List Frag) (legs : List Leg) → Along ins legs outs → IsPrefix outs ins }
{}
