//! A message from its tape.

ghost use Rattle.std.specs.Prelude.{◌≡◌, ◌≤◌, ◌<◌, ◌^◌, All, length, map};
ghost use Rattle.fl_base.specs.Numbered.{core_id};
ghost use Rattle.fl_monitor.specs.Tapes.{opening_on, opened_on, refused_on, message_on, IsOpeningTape, IsOpenedTape, IsRefusedTape, IsTapeOfMessage};

use crate::message::MonitorMessage;
use crate::path::{MAX_ROUTE, Path};
use fl_base::{Circuit, CoreId, IRef, MsgNo};

// The route over the cores of these numbers.
fn route(numbers: &[u64]) -> Path
    requires few { length numbers.now ≤ 16 }
    requires small { All (λ n. n < 2 ^ 8) numbers.now }
    ensures route { result ≡ map core_id numbers.now }
{
    let mut cores = [CoreId(0); MAX_ROUTE];
    for (place, number) in numbers.iter().enumerate() {
        cores[place] = CoreId(*number as u8);
    }
    let Some(path) = Path::new(&cores[..numbers.len()]) else {
        unreachable!();
    };
    path
}

// The opening that has a tape.
fn opening_on(tape: &[u64]) -> MonitorMessage
    requires tape { IsOpeningTape tape.now }
    ensures message { result ≡ opening_on tape.now }
{
    MonitorMessage::OpenCircuit {
        circuit: Circuit(tape[0] as u16),
        binding: tape[1] as u32,
        service: IRef(tape[2] as u32),
        path: route(&tape[4..]),
    }
}

// The answer that a circuit is open, which has a tape.
fn opened_on(tape: &[u64]) -> MonitorMessage
    requires tape { IsOpenedTape tape.now }
    ensures message { result ≡ opened_on tape.now }
{
    MonitorMessage::CircuitOpened {
        circuit: Circuit(tape[0] as u16),
    }
}

// The answer that a circuit is refused, which has a tape.
fn refused_on(tape: &[u64]) -> MonitorMessage
    requires tape { IsRefusedTape tape.now }
    ensures message { result ≡ refused_on tape.now }
{
    MonitorMessage::CircuitRefused {
        circuit: Circuit(tape[0] as u16),
        reason: tape[1] as u32,
    }
}

/// The message of this number that has this tape. Takes no memory.
pub(crate) fn message_on(number: MsgNo, tape: &[u64]) -> MonitorMessage
    requires tape { IsTapeOfMessage number.0 tape.now }
    ensures message { result ≡ message_on number.0 tape.now }
{
    if number.0 == 0 {
        return opening_on(tape);
    }
    if number.0 == 1 {
        return opened_on(tape);
    }
    refused_on(tape)
}
