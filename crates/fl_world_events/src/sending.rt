//! Calls and writes of ends.

ghost use Rattle.std.specs.Prelude.{◌≡◌, ◌<◌, ◌%◌, length, IfOk, OnErr, Err};
ghost use Rattle.fl_value_data.specs.Value.{call_of};
ghost use Rattle.fl_link.specs.Queue.{QueuePuts, next_epoch_of};
ghost use Rattle.fl_link.specs.Cursor.{epoch_at};
ghost use Rattle.fl_ring.specs.Duo.{side_of, got};
ghost use Rattle.fl_ring.specs.Side.{SidePuts};
ghost use Rattle.fl_world_refines.specs.View.{which_at};
ghost use Rattle.fl_world_refines.specs.Lending.{answer_at};
ghost use Rattle.fl_world_refines.specs.Sending.{IsCalled, IsShown, PreviewsWith};
ghost use Rattle.fl_world_refines.specs.Sending.{IsWritten, WritesWith};
ghost use Rattle.fl_model.specs.Views.{answer_of, brief_of};
ghost use Rattle.fl_world_events.specs.Last.{NotRefused};
ghost use Rattle.fl_world_events.specs.Parts.{InCore, ByQueue, ByRing, CallsIn, CallsWith, KeptOrNone};

use crate::lending::{law_whole, which_at};
use fl_base::{Frag, faults};
use fl_core::Core;
use fl_endpoint::{EndFault, WriteAnswer};
use fl_link::QueueLink;
use fl_model::{Answer, BriefAnswer};
use fl_ring::OneDuo;
use fl_value_data::Call;
use fl_world_refines::Binding;
use std::alloc::AllocError;

// ---- calls

// What is answered where an end refuses a call.
#[inline(always)]
fn call_fault(fault: EndFault) -> Result<BriefAnswer, AllocError>
    ensures called { IfOk result (λ a. IsCalled (Err fault) (brief_of a)) }
    ensures memory { OnErr result (fault ≡ EndFault.Memory) }
{
    match fault {
        EndFault::Memory => Err(AllocError),
        _ => Ok(BriefAnswer::Refused(fault.number())),
    }
}

// What is answered for an end's answer to a call.
#[inline(always)]
fn answer_call(outcome: Result<(), EndFault>) -> Result<BriefAnswer, AllocError>
    ensures called { IfOk result (λ a. IsCalled outcome (brief_of a)) }
    ensures memory { OnErr result (outcome ≡ Err EndFault.Memory) }
{
    match outcome {
        Ok(()) => Ok(BriefAnswer::Accepted),
        Err(fault) => call_fault(fault),
    }
}

/// The end at a place of a core's board makes a call.
///
/// # Errors
/// Out of memory.
#[inline(always)]
pub fn call_in(core: &mut Core, place: usize, call: &Call) -> Result<BriefAnswer, AllocError>
    requires place { place < length core.old.board.seats }
    ensures calls { IfOk result (λ a. InCore (CallsIn place (call_of call.now) (brief_of a)) core.old core.new) }
    ensures kept { OnErr result (core.new ≡ core.old) }
    ensures last { OnErr result (NotRefused (λ a k. CallsIn place (call_of call.now) a core.old k)) }
{
    law_whole(core);
    let outcome = core.call(place, call);
    law_whole(core);
    answer_call(outcome)
}

/// The end that a binding keeps makes a call.
///
/// # Errors
/// Out of memory.
pub fn call_kept(
    binding: &mut Binding,
    call: &Call,
    spare: &mut Vec<u64>,
) -> Result<BriefAnswer, AllocError>
    ensures calls { IfOk result (λ a. KeptOrNone (CallsWith (call_of call.now) (brief_of a)) (brief_of a) binding.old binding.new) }
    ensures kept { OnErr result (binding.new ≡ binding.old) }
    ensures last { OnErr result (NotRefused (λ a b. KeptOrNone (CallsWith (call_of call.now) a) a binding.old b)) }
{
    match &mut binding.unmade {
        None => Ok(BriefAnswer::Refused(faults::WRONG_NAME)),
        Some(end) => answer_call(end.call(call, spare)),
    }
}

// ---- shows

// What is answered for a fragment that is shown.
fn answer_show(outcome: Result<Option<Frag>, EndFault>) -> Answer
    ensures shown { IsShown outcome (answer_of result) }
{
    match outcome {
        Err(fault) => Answer::Refused(fault.number()),
        Ok(next) => match next {
            Some(frag) => Answer::Words(frag),
            None => Answer::Nothing,
        },
    }
}

/// The end at a place of a core's board shows its next fragment, over a queue.
pub fn show_by_queue(core: &Core, place: usize, queue: &QueueLink) -> Answer
    requires place { place < length core.now.board.seats }
    ensures shows { PreviewsWith (next_epoch_of queue.now) 0 core.now place (answer_of result) }
{
    answer_show(core.show(place, queue))
}

/// The end at a place of a core's board shows its next fragment, over side m of a ring.
pub fn show_by_ring(core: &Core, place: usize, ring: &mut OneDuo, m: usize) -> Answer
    requires place { place < length core.now.board.seats }
    ensures shows { PreviewsWith (epoch_at ring.old.size (side_of (which_at m) ring.old).sent) (got (side_of (which_at m) ring.old) % 65536)
        core.now place (answer_of result) }
    ensures kept { ring.new ≡ ring.old }
{
    let side = ring.side(which_at(m));
    answer_show(core.show(place, &side))
}

// ---- writes

// What is answered for what an end's write came to.
#[inline(always)]
fn wrote(outcome: Result<WriteAnswer, EndFault>) -> BriefAnswer
    ensures wrote { IsWritten outcome (brief_of result) }
{
    match outcome {
        Err(fault) => BriefAnswer::Refused(fault.number()),
        Ok(answer) => match answer {
            WriteAnswer::Written { number, count } => BriefAnswer::Written {
                k: number,
                n: count,
            },
            WriteAnswer::Full => BriefAnswer::Full,
            WriteAnswer::Nothing => BriefAnswer::Nothing,
        },
    }
}

/// The end at a place of a core's board writes, over a queue.
#[inline(always)]
pub fn write_by_queue(core: &mut Core, place: usize, queue: &mut QueueLink) -> BriefAnswer
    requires place { place < length core.old.board.seats }
    ensures writes { ByQueue (WritesWith QueuePuts (answer_at place (brief_of result))) core.old queue.old core.new queue.new }
{
    law_whole(core);
    let outcome = core.write(place, queue);
    law_whole(core);
    wrote(outcome)
}

/// The end at a place of a core's board writes, over side m of a ring.
#[inline(always)]
pub fn write_by_ring(core: &mut Core, place: usize, ring: &mut OneDuo, m: usize) -> BriefAnswer
    requires place { place < length core.old.board.seats }
    ensures writes { ByRing m (WritesWith SidePuts (answer_at place (brief_of result))) core.old ring.old core.new ring.new }
{
    law_whole(core);
    let mut side = ring.side(which_at(m));
    let outcome = core.write(place, &mut side);
    law_whole(core);
    wrote(outcome)
}
