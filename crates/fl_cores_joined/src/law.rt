//! What cores do together, joined to one world: laws, as the contracts of functions that do nothing.

ghost use Rattle.fl_cores_joined.specs.Exchanges.{ApartMayChange, EventsExchange, StepsExchange};
ghost use Rattle.fl_cores_joined.specs.Exchanges.{OpeningsGoAhead, OpeningsStayBehind};
ghost use Rattle.fl_cores_joined.specs.OwnEvents.{JoinedHaveSidesAcross, OwnEventsJoin, SidesStayAcross};
ghost use Rattle.fl_cores_joined.specs.Rings.{TrueStepsAreTheRings, TrueStepsHappen};
ghost use Rattle.fl_cores_joined.specs.Laws.{WritesJoin, TurnsJoin, AcksJoin};
ghost use Rattle.fl_cores_joined.specs.Laws.{CallsJoin, RulesJoin, OpensJoin};
ghost use Rattle.fl_cores_joined.specs.Laws.{MonitorsJoin, TellsJoin, LooksJoin};
ghost use Rattle.fl_cores_joined.specs.Laws.{ArrivalsJoin, PassesJoin, HearsJoin};
ghost use Rattle.fl_cores_joined.specs.Entries.{StepsInterleave, FollowedStepsInterleave};
ghost use Rattle.fl_cores_joined.specs.Runs.{RunsJoin};
ghost use Rattle.fl_cores_joined.specs.RenamedRuns.{NumbersAreGiven, RunsJoinInAnyOrder, RunsJoinUnder};

use fl_endpoint::law_on_another_circuit;
use fl_world_refines::law_steps_agree;

/// A step of a side over shared words whose loads find what stands there is the same step of the ring that
/// its two sides make, and what each side took is still the first of what the other put. There are such
/// steps: puts, with a look or without, that find room or none; takes, misses and tells.
pub fn law_true_steps()
    ensures rings { TrueStepsAreTheRings }
    ensures happen { TrueStepsHappen }
{}

/// A write of an end of one core is the machine's, into a queue, onto a ring between two of the cores, or
/// onto a link; so are a dispatcher's turn, whatever the end that is due takes from, and an acknowledgement
/// over a ring.
pub fn law_ends_join()
    ensures writes { WritesJoin }
    ensures turns { TurnsJoin }
    ensures acks { AcksJoin }
{
    law_steps_agree();
}

/// A call that an end of one core makes is the machine's, and so is a reply rule that is set there, and a
/// circuit that a core asks for, for the binding that the machine makes next.
pub fn law_jobs_join()
    ensures calls { CallsJoin }
    ensures rules { RulesJoin }
    ensures opens { OpensJoin }
{
    law_steps_agree();
}

/// What a core does on a link is the machine's: its monitor writes, what was read is told, a look finds
/// nothing that is to go on, or it finds a fragment for an end of the core, which arrives there, or one that
/// is passed on over another link, or a monitors' message, which is heard.
pub fn law_links_join()
    ensures says { MonitorsJoin }
    ensures tells { TellsJoin }
    ensures looks { LooksJoin }
    ensures arrivals { ArrivalsJoin }
    ensures passes { PassesJoin }
    ensures hears { HearsJoin }
{
    law_steps_agree();
}

/// Where cores do one thing after another, each look finds what stands in its ring at that moment, and
/// circuits are asked for as accepted jobs do, in the order of their numbers, that is a run of the machine,
/// with the cores' answers, to a state that the cores show, as long as each core is whole in the end.
pub fn law_runs_join()
    ensures runs { RunsJoin }
{
    law_steps_agree();
}

/// What cores do entry by entry, where others' entries may come between a look and what follows it, comes to
/// the same where each look happens at the moment of what follows it; looks that nothing followed yet are
/// still to come then, and find what they found.
pub fn law_steps_interleave()
    ensures steps { StepsInterleave }
    ensures followed { FollowedStepsInterleave }
{}

/// Neighbours of two cores, of which neither puts anything to where the other goes, as of two that go over no ring
/// in common, may change places: in two events, and in what cores do step by step, which ends with the same cores
/// then.
pub fn law_neighbours_exchange()
    ensures events { EventsExchange }
    ensures apart { ApartMayChange }
    ensures steps { StepsExchange }
{}

/// An opening may change places with what another core does just before it, or just after.
pub fn law_openings_move()
    ensures ahead { OpeningsGoAhead }
    ensures behind { OpeningsStayBehind }
{}

/// What a core does in its place by itself, as its own log tells it, is an event among others' as soon as each of its
/// sides, which are no two of its links' or ends', finds what stands for it, of what the one across put. Sides of cores
/// that make a world are across from each other, and stay so whatever happens.
pub fn law_own_events_join()
    ensures events { OwnEventsJoin }
    ensures across { JoinedHaveSidesAcross }
    ensures stay { SidesStayAcross }
{}

/// Where openings are accepted in any order, each under a number that no binding has yet, what cores do is a run of the
/// machine under a renaming of bindings: one that joins no two, keeps those that the machine has, and gives accepted
/// openings the machine's next numbers. Under it the answers are the cores', and they show the state in the end. They
/// begin without circuits or monitors' messages; or, for a renaming that is given, show a state under it. Circuits are
/// asked for as accepted jobs do, each core's links are over the rings that are told as links' and its ends over none of
/// them, and each core is whole in the end.
pub fn law_runs_join_in_any_order()
    ensures numbers { NumbersAreGiven }
    ensures under { RunsJoinUnder }
    ensures runs { RunsJoinInAnyOrder }
{
    law_steps_agree();
    law_on_another_circuit();
}
