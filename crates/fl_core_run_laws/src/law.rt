//! What holds of turns, whatever the sides: laws, as the contracts of functions that do nothing.

ghost use Rattle.fl_core_run.specs.Run.{ways};
ghost use Rattle.fl_core_run_laws.specs.Logs.{TurnsAreLogged, CountedAreTurns, ProgressTellHandled, LogsLook};
ghost use Rattle.fl_core_run_laws.specs.Made.{LogsMakeJobs, DoneAreFirst};
ghost use Rattle.fl_core_run_laws.specs.Lending.{StaysLent, LentServes};
ghost use Rattle.fl_core_run_laws.specs.Carried.{LogsCarryQueues, RulesComeFirst, SentAreMade, SentAreReplies};
ghost use Rattle.fl_core_run_laws.specs.Led.{LeadsAtFirst};
ghost use Rattle.fl_core_run_laws.specs.Flows.{LogsFlow};
ghost use Rattle.fl_core_run_laws.specs.Agree.{EndsAgree, CarriedOffLinks};

use fl_endpoint::{law_handles_in_order, law_on_another_circuit};
use fl_link::{PutSide, TakeSide, law_queue_conserves};

/// Whatever changes a core in its turns is an event of its log, with each look directly before what is made of what it found;
/// and no dispatcher handles more calls than the core took turns. What an end's progress has as handled are just the calls
/// that its end handled, in order.
pub fn law_turns_are_logged<S: PutSide + TakeSide>()
    ensures logged { TurnsAreLogged (ways S.puts S.takes S.front) }
    ensures handled { ProgressTellHandled (ways S.puts S.takes S.front) }
{}

/// The calls that an end made are those of its jobs, in order: just those that its end's progress has as done, which are the first of all that were handed in.
pub fn law_jobs_are_made<S: PutSide + TakeSide>()
    ensures made { LogsMakeJobs (ways S.puts S.takes S.front) }
    ensures first { DoneAreFirst (ways S.puts S.takes S.front) }
{}

/// Whatever happens at a core, each of its sides of rings changes by looks, puts and takes alone.
pub fn law_sides_go<S: PutSide + TakeSide>()
    ensures goes { LogsLook (ways S.puts S.takes S.front) }
{}

/// What came out through each queue of a core, local or of arrivals, is what went in, in order, up to what stands there.
pub fn law_queues_carry<S: PutSide + TakeSide>()
    ensures queues { LogsCarryQueues (ways S.puts S.takes S.front) }
{
    law_queue_conserves();
}

/// Where the reply rules of an end are the first of its jobs, they are set before it handles a call.
pub fn law_rules_come_first<S: PutSide + TakeSide>()
    ensures rules { RulesComeFirst (ways S.puts S.takes S.front) }
{}

/// An end without rules that gets none sends the calls that it made; one that made none sends the replies by its rules to those that it handled.
pub fn law_sent_by_rules()
    ensures made { SentAreMade }
    ensures replies { SentAreReplies }
{}

/// What an end put are the fragments of what it sent, in order, up to what is left to put; what it took reads as the calls that it handled, and a rest.
///
/// Where the core's table leads to its ends of circuits, it led what went over the links, and leads to them still: by an entry went out what came in by its
/// other side, in order; to an end of a circuit came what came in by its number, and it took that in order; and what it put went out under its number.
pub fn law_logs_flow<S: PutSide + TakeSide>()
    ensures flows { LogsFlow (ways S.puts S.takes S.front) }
{
    law_on_another_circuit();
}

/// A core's table leads to its ends of circuits where there is none yet, and its monitor has nothing to say.
pub fn law_leads_at_first()
    ensures leads { LeadsAtFirst }
{}

/// Of two ends of one binding: where what one took is the first of what the other put, as links carry it, what it handled is the first of what that sent.
pub fn law_ends_agree()
    ensures agree { EndsAgree }
    ensures off_links { CarriedOffLinks }
{
    law_handles_in_order();
    law_on_another_circuit();
}

/// Where all sides and queues that a core's links and ends name are lent, they stay lent; and then no step is left out for want of one.
pub fn law_sides_stay_lent<S: PutSide + TakeSide>()
    ensures stay { StaysLent (ways S.puts S.takes S.front) }
    ensures serve { LentServes (ways S.puts S.takes S.front) }
{}

/// The turns that a core counts are turns, so many.
pub fn law_counted_are_turns<S: PutSide + TakeSide>()
    ensures turns { CountedAreTurns (ways S.puts S.takes S.front) }
{}
