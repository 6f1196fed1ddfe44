//! What a core knows of openings, and tells of them.

ghost use Rattle.std.specs.Prelude.{◌≡◌, ◌<◌, length};
ghost use Rattle.fl_core_run.specs.Run.{run_by};
ghost use Rattle.fl_core_run.specs.OpeningStatus.{refusal_at, MayUse, Exchanges, ExchangesAt, AreWords, stock, ExchangesAll, SaidNothing};

use crate::core_sides::CoreSides;
use crate::running::RunningCore;
use fl_base::EndId;
use fl_cores_table::EndSeat;

/// What a core knows, at an end, of the opening of its binding. A word of the run's table is named by the job's place among those that open.
#[derive(Clone, Copy)]
pub enum OpeningStatus {
    /// No job opens the binding.
    Silent,
    /// A job of this core does. If it is refused, this word tells the other end's core.
    Tells(usize),
    /// A job of the other end's core does. If it is refused, this word tells.
    Hears(usize),
    /// It was refused, for the fault of this number.
    Refused(u64),
}

// The number with which an end's opening was refused, by its end's progress, or 0.
fn refusal_at<S: CoreSides>(run: &RunningCore<S>, name: EndId) -> u32
    ensures refusal { result ≡ refusal_at (run_by S.states run.now) name }
{
    match run.progress_of(name) {
        None => 0,
        Some(place) => run.progresses[place].refused(),
    }
}

// Tells a refusal that is to be told, or learns of one where the end isn't there.
fn exchange<S: CoreSides>(
    run: &RunningCore<S>,
    name: EndId,
    word: OpeningStatus,
    seat: &mut EndSeat,
) -> OpeningStatus
    requires may { MayUse word seat.old.knows }
    ensures exchanges { Exchanges (run_by S.states run.now) name word seat.old result seat.new }
    ensures quiet { SaidNothing seat.old seat.new }
{
    match word {
        OpeningStatus::Silent => word,
        OpeningStatus::Refused(_) => word,
        OpeningStatus::Tells(job) => {
            let number = u64::from(refusal_at(run, name));
            if number == 0 {
                return word;
            }
            seat.refuse(job, number);
            OpeningStatus::Refused(number)
        }
        OpeningStatus::Hears(job) => match run.core.place(name) {
            Some(_) => word,
            None => {
                let number = seat.refusal(job);
                if number == 0 {
                    return word;
                }
                OpeningStatus::Refused(number)
            }
        },
    }
}

// Does so for the end at a place of the list.
fn exchange_at<S: CoreSides>(
    run: &RunningCore<S>,
    ends: &[EndId],
    k: usize,
    words: &mut [OpeningStatus],
    seat: &mut EndSeat,
)
    requires end { k < length ends.now }
    requires word { k < length words.old }
    requires may { AreWords words.old seat.old.knows }
    ensures exchanges { ExchangesAt
        (run_by S.states run.now) ends.now k (stock words.old seat.old) (stock words.new seat.new) }
    ensures as_many { length words.new ≡ length words.old }
    ensures may { AreWords words.new seat.new.knows }
    ensures quiet { SaidNothing seat.old seat.new }
{
    words[k] = exchange(run, ends[k], words[k], seat);
}

/// For each end tells a refusal that is to be told, and learns of one where the end isn't there.
#[tactic(auto, using(crate::proofs::Stock::quiet, crate::proofs::Stock::quiet_then))]
pub(crate) fn exchange_all<S: CoreSides>(
    run: &RunningCore<S>,
    ends: &[EndId],
    words: &mut [OpeningStatus],
    seat: &mut EndSeat,
)
    requires as_many { length words.old ≡ length ends.now }
    requires may { AreWords words.old seat.old.knows }
    ensures exchanges { ExchangesAll
        (run_by S.states run.now) ends.now (stock words.old seat.old) (stock words.new seat.new) }
    ensures as_many { length words.new ≡ length ends.now }
    ensures may { AreWords words.new seat.new.knows }
    ensures quiet { SaidNothing seat.old seat.new }
{
    for k in 0..ends.len() {
        exchange_at(run, ends, k, words, seat);
    }
}
