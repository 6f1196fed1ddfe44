//! Calls of one fragment of messages that have no codec, with strings, arrays or structs: the fragment is made of the numbers by stub
//! code, with no value between them, and no memory. Each function may find nothing at any time: what the numbers or the fragment are
//! then the long way tells.

ghost use Rattle.std.specs.Prelude.{◌≡◌, ◌<◌, ◌≤◌, true, length, take, IfSome};
ghost use Rattle.fl_base.specs.Control.{bare};
ghost use Rattle.fl_value_data.specs.Value.{TheCall};
ghost use Rattle.fl_value_data.specs.Fits.{fits_of};
ghost use Rattle.fl_layout.specs.Places.{count};
ghost use Rattle.fl_compile.specs.Programs.{program_of};
ghost use Rattle.fl_endpoint.specs.Stored.{IsOwn};
ghost use Rattle.fl_c_operations.specs.Shorts.{IsFragOfTape, IsFragOfNumbers};

use crate::calls::{first_and_rest, message_at};
use crate::tapes::is_tape;
use fl_base::{Circuit, Frag, MsgNo};
use fl_compile::Program;
use fl_machine::{first_frag, law_sends_fragments};
use fl_stub::Op;

// The most bytes of a call of one fragment.
const MOST_BYTES: usize = 56;

// Tells a message of which each call is one fragment. It may miss some.
fn is_one(program: &Program, msg: MsgNo) -> bool
    requires known { msg.0 < length (program_of program.now).interface.messages }
    ensures one { result ≡ true → (c : TheCall) → fits_of (program_of program.now).interface c ≡ true → c.msg ≡ msg.0
        → count (program_of program.now).plan (program_of program.now).interface c ≡ 1 }
{
    if program.plans().greatest(msg) > MOST_BYTES {
        return false;
    }
    true
}

// The only fragment, on a circuit, of the call of a message that has this tape. It may find none.
fn tape_frag(program: &Program, circuit: Circuit, msg: MsgNo, tape: &[u64]) -> Option<Frag>
    requires known { msg.0 < length (program_of program.now).interface.messages }
    ensures short { IfSome result (λ f. IsFragOfTape (program_of program.now) circuit.0 msg.0 tape.now f) }
    ensures own { IfSome result IsOwn }
{
    // Both have 16 bits, which the proof knows once they are read.
    let (_msg, _circuit) = (msg.0, circuit.0);
    law_sends_fragments();
    if !is_one(program, msg) {
        return None;
    }
    if !is_tape(msg, tape, program.interface(), program.plan()) {
        return None;
    }
    let Some(code) = program.send_code(msg) else {
        return None;
    };
    Some(first_frag(code, msg, circuit, tape))
}

/// The only fragment, on a circuit, of the call of these numbers: its message's, and its tape. It may find none.
#[inline(never)]
pub(crate) fn taped_frag(program: &Program, circuit: Circuit, numbers: &[u64]) -> Option<Frag>
    ensures short { IfSome result (λ f. IsFragOfNumbers (program_of program.now) circuit.0 numbers.now f) }
    ensures own { IfSome result IsOwn }
{
    let Some((message, tape)) = first_and_rest(numbers) else {
        return None;
    };
    let Some(msg) = message_at(program, message) else {
        return None;
    };
    let Some(frag) = tape_frag(program, circuit, msg, tape) else {
        return None;
    };
    Some(frag)
}

/// A call of one fragment, by its message and its tape.
#[derive(Drop)]
pub(crate) struct TapedCall {
    pub(crate) msg: MsgNo,
    // The tape is the first of these.
    numbers: [u64; 7],
    count: usize,
    ghost few: { count ≤ 7 },
}

impl TapedCall {
    /// Its tape.
    pub(crate) fn tape(&self) -> &[u64]
        ensures tape { result.now ≡ take self.now.count self.now.numbers }
    {
        &self.numbers[..self.count]
    }
}

// The number of so many bytes, 1 to 8, from a place on, which lies in one word.
fn number_at(words: &[u64; 7], used: usize, width: usize) -> u64
    requires inside { used < 56 }
    requires some { 1 ≤ width }
    requires narrow { width ≤ 8 }
{
    let above = words[used / 8] >> (8 * (used % 8)) as u32;
    above & (u64::MAX >> (64 - 8 * width) as u32)
}

// The tape that send code would be given for these words; how many numbers it has. What they are no clause says: who asks makes the
// fragment of them again.
fn read_tape(ops: &[Op], words: &[u64; 7], tape: &mut [u64; 7]) -> Option<usize>
    ensures few { IfSome result (λ count. count ≤ 7) }
{
    let mut count = 0;
    let mut used = 0;
    for op in ops {
        let (width, is_number) = match op {
            Op::Emit(width) => (*width as usize, true),
            Op::Pad(zeros) => (*zeros as usize, false),
            Op::Align => ((8 - used % 8) % 8, false),
            Op::End => return Some(count),
            _ => return None,
        };
        if width > MOST_BYTES - used {
            return None;
        }
        if is_number {
            if count >= 7 || width == 0 || width > 8 {
                return None;
            }
            tape[count] = number_at(words, used, width);
            count += 1;
        }
        used += width;
    }
    None
}

// Tells that two fragments are one.
fn are_same(one: &Frag, other: &Frag) -> bool
    ensures same { result ≡ true → one.now ≡ other.now }
{
    if one.control != other.control {
        return false;
    }
    if one.words[0] != other.words[0] {
        return false;
    }
    if one.words[1] != other.words[1] {
        return false;
    }
    if one.words[2] != other.words[2] {
        return false;
    }
    if one.words[3] != other.words[3] {
        return false;
    }
    if one.words[4] != other.words[4] {
        return false;
    }
    if one.words[5] != other.words[5] {
        return false;
    }
    if one.words[6] != other.words[6] {
        return false;
    }
    true
}

/// The call whose only fragment this is, off circuits, whatever its epoch and the count that it tells. It may find none.
#[inline(never)]
pub(crate) fn taped_call(program: &Program, frag: &Frag) -> Option<TapedCall>
    ensures short { IfSome result (λ call. IsFragOfTape (program_of program.now) 0 call.msg.0 (take call.count call.numbers) (bare frag.now)) }
{
    let Some(msg) = message_at(program, u64::from(frag.msg().0)) else {
        return None;
    };
    let Some(code) = program.send_code(msg) else {
        return None;
    };
    let mut numbers = [0; 7];
    let Some(count) = read_tape(code.ops(), &frag.words, &mut numbers) else {
        return None;
    };
    let Some(again) = tape_frag(program, Circuit(0), msg, &numbers[..count]) else {
        return None;
    };
    if !are_same(&again, &frag.bare()) {
        return None;
    }
    Some(TapedCall {
        msg,
        numbers,
        count,
    })
}
