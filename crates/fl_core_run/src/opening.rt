//! A job that opens a circuit.

ghost use Rattle.std.specs.Prelude.{◌≡◌, ◌<◌, length, IfOk, OnOk, OnErr};
ghost use Rattle.fl_core_run.specs.Run.{run_by, AtProgress};
ghost use Rattle.fl_core_run.specs.EndProgress.{advanced, with_refusal};
ghost use Rattle.fl_core_run.specs.Inside.{HasLeft, OfProgress};
ghost use Rattle.fl_core_run.specs.LogEntries.{IsCopyOf, NotesOpened};
ghost use Rattle.fl_core_run.specs.Steps.{lacks_to_open, may_ask, OpensIf};
ghost use Rattle.fl_core_run.specs.Wants.{BeginsCircuit};

use crate::core_sides::CoreSides;
use crate::ends::advance;
use crate::running::{RunningCore, law_sound};
use fl_base::{EndId, MAX_BINDINGS, Side};
use fl_compile::Program;
use fl_core::{BoardFault, OpenFault, OpenRequest};
use fl_monitor::MonitorFault;
use std::alloc::AllocError;

// Whether a circuit can be asked for.
fn may_ask<S: CoreSides>(run: &RunningCore<S>, request: &OpenRequest) -> bool
    ensures may { result ≡ may_ask (run_by S.states run.now) request.now }
{
    let client = EndId {
        binding: request.opening.binding as usize,
        side: Side::Client,
    };
    request.dispatcher < run.core.board().dispatchers()
        && request.interface < run.programs.len()
        && (request.opening.binding as usize) < MAX_BINDINGS
        && !run.core.place(client).is_some()
        && run.core.monitor().has_room(request.link)
}

// A copy of the program at a place.
fn copy<S: CoreSides>(run: &RunningCore<S>, n: usize) -> Result<Program, AllocError>
    requires { n < length run.now.programs.items }
    ensures copy { IfOk result (λ p. IsCopyOf run.now.programs.items n p) }
{
    match run.programs.get(n) {
        None => unreachable!(),
        Some(source) => {
            let program = source.duplicate(run.alloc)?;
            Ok(program)
        }
    }
}

// Whether memory was refused.
fn is_memory(answer: Result<usize, OpenFault>) -> bool
    ensures memory { result ≡ lacks_to_open answer }
{
    match answer {
        Ok(_) => false,
        Err(fault) => match fault {
            OpenFault::Board(fault) => matches!(fault, BoardFault::Memory),
            OpenFault::Monitor(fault) => matches!(fault, MonitorFault::Memory),
        },
    }
}

// Notes that an opening is refused, and with it its job is done.
fn refuse<S: CoreSides>(run: &mut RunningCore<S>, progress: Option<usize>, number: u32)
    requires left { HasLeft run.old.progresses.items progress }
    ensures refused { OfProgress progress (run_by S.states run.old)
        (λ name. AtProgress name (λ d. advanced (with_refusal number d))
        (run_by S.states run.old) (run_by S.states run.new)) }
{
    match progress {
        None => (),
        Some(place) => {
            let at = &mut run.progresses[place];
            at.refuse(number);
            at.advance();
        }
    }
}

// Notes what came of asking.
fn note<S: CoreSides>(
    run: &mut RunningCore<S>,
    progress: Option<usize>,
    answer: Result<usize, OpenFault>,
)
    requires left { HasLeft run.old.progresses.items progress }
    ensures notes { OfProgress progress (run_by S.states run.old) (λ name. NotesOpened name answer
        (run_by S.states run.old) (run_by S.states run.new)) }
{
    match answer {
        Ok(_) => advance(run, progress),
        Err(OpenFault::Monitor(MonitorFault::OutboxFull)) => (),
        Err(fault) => refuse(run, progress, u32::from(fault.number())),
    }
}

/// Asks for a circuit for an end whose next job that is, where it can be asked for; else the job waits. What refuses it is found before a copy of the
/// program is made.
///
/// # Errors
/// Out of memory, only where the circuit would be begun. Nothing has happened then.
pub(crate) fn open<S: CoreSides>(
    run: &mut RunningCore<S>,
    progress: Option<usize>,
    request: &OpenRequest,
) -> Result<(), AllocError>
    requires left { HasLeft run.old.progresses.items progress }
    ensures opens { OnOk result (OfProgress progress (run_by S.states run.old)
        (λ name. OpensIf S.ways (may_ask (run_by S.states run.old) request.now) name
        request.now (run_by S.states run.old) (run_by S.states run.new))) }
    ensures kept { OnErr result (run_by S.states run.new ≡ run_by S.states run.old) }
    ensures begins { OnErr result (BeginsCircuit (run_by S.states run.old) request.now) }
{
    law_sound(run);
    if !may_ask(run, request) {
        return Ok(());
    }
    if let Err(fault) = run
        .core
        .may_open(request.dispatcher, request.link, &request.opening)
    {
        note(run, progress, Err(fault));
        return Ok(());
    }
    let program = copy(run, request.interface)?;
    let answer = run.core.open(request.dispatcher, program, request.link, &request.opening);
    if is_memory(answer) {
        return Err(AllocError);
    }
    note(run, progress, answer);
    Ok(())
}
