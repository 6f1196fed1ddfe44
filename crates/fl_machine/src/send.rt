//! Runs of send code.

ghost use Rattle.std.specs.Prelude.{◌≡◌, ◌≢◌, ◌+◌, ◌<◌, ◌≤◌, ◌^◌, ◌++◌, ◌∷◌, ℕ, true, List, [], take, drop, map, length, slice_get, slice_index};
ghost use Rattle.std.specs.Prelude.{Some, IfSome, IsTrue};
ghost use Rattle.fl_stub.specs.declared.op.Op.TheVariants.{Emit as emit_op};
ghost use Rattle.std.specs.List.{range_with_len};
ghost use Rattle.fl_base.specs.Control.{control_word};
ghost use Rattle.fl_stub.specs.declared.op.Column.TheVariants.{Send as send};
ghost use Rattle.fl_stub.specs.Frames.{block_of};
ghost use Rattle.fl_stub.specs.Meaning.{Turns, number_bytes};
ghost use Rattle.fl_stub.specs.Given.{bytes_given};
ghost use Rattle.fl_stub.specs.Locations.{IsLocation, IsSettled, bytes_from};
ghost use Rattle.fl_machine.specs.Cursors.{location_of, low_byte as low_byte_of, IsRun};
ghost use Rattle.fl_machine.specs.Filling.{Holds, Puts, PutsRun};
ghost use Rattle.fl_machine.specs.Straight.{straight_location, GivesNumber};
ghost use Rattle.fl_wire.specs.Payload.{word as word_of};
ghost use Rattle.fl_machine.specs.Sending.{frags_holding, frags_left, RunsOn};

use crate::cursor::{SendCursor, is_op, low_byte, low_bytes};
use crate::intake::op_at;
use fl_base::{Circuit, Frag, MsgNo, control};
use fl_stub::{Op, VerifiedCode};
use std::marker::Model;

/// A run of send code: the fragments of one call that are still to be given. It keeps no reference; each call is
/// lent the code that the run was started with.
#[derive(Drop)]
pub struct SendRun {
    msg: MsgNo,
    circuit: Circuit,
    tape: Vec<u64>,
    begins: bool,
    cursor: SendCursor,
}

impl Model for SendRun {
    ghost use Rattle.fl_machine.specs.Sending.{TheSending};
    ghost use Rattle.fl_machine.specs.Cursors.{location_of};

    ghost Value = { TheSending };

    ghost view = { λ r. record { msg = r.msg.0; circuit = r.circuit.0; begins = r.begins; location = location_of r.tape.items r.cursor } };
}

// Eight bytes of a fragment as a word.
#[inline(always)]
fn word(buffer: &[u8; 56], index: usize) -> u64
    requires { index < 7 }
    ensures { result ≡ word_of buffer.now index }
{
    let at = 8 * index;
    u64::from_le_bytes([
        buffer[at],
        buffer[at + 1],
        buffer[at + 2],
        buffer[at + 3],
        buffer[at + 4],
        buffer[at + 5],
        buffer[at + 6],
        buffer[at + 7],
    ])
}

#[inline(always)]
fn frag_with(buffer: &[u8; 56], begins: bool, msg: MsgNo, circuit: Circuit) -> Frag
    ensures { result ≡ record { words = map (word_of buffer.now) (range_with_len 0 7); control = control_word begins msg.0 circuit.0 } }
{
    Frag {
        words: [
            word(buffer, 0),
            word(buffer, 1),
            word(buffer, 2),
            word(buffer, 3),
            word(buffer, 4),
            word(buffer, 5),
            word(buffer, 6),
        ],
        control: control(begins, msg, circuit),
    }
}

// A number's eight bytes from a place on.
#[inline(always)]
fn put_number(buffer: &mut [u8; 56], at: usize, number: u64)
    requires { at + 8 ≤ 56 }
    ensures { buffer.new ≡ take at buffer.old ++ (number_bytes 8 number ++ drop (at + 8) buffer.old) }
{
    let bytes = number.to_le_bytes();
    buffer[at] = bytes[0];
    buffer[at + 1] = bytes[1];
    buffer[at + 2] = bytes[2];
    buffer[at + 3] = bytes[3];
    buffer[at + 4] = bytes[4];
    buffer[at + 5] = bytes[5];
    buffer[at + 6] = bytes[6];
    buffer[at + 7] = bytes[7];
}

// The next bytes of a number, put at a place; the place behind them.
#[inline(always)]
fn put_last(
    buffer: &mut [u8; 56],
    at: usize,
    cursor: &mut SendCursor,
    ops: &[Op],
    tape: &[u64],
) -> usize
    requires place { at < 56 }
    requires location { IsLocation ops.now (location_of tape.now cursor.old) }
    requires busy { cursor.old.width ≢ 0 }
    ensures { (put : List ℕ) → length put ≡ at → Holds buffer.old put
        → Puts ops.now (location_of tape.now cursor.old) (location_of tape.now cursor.new) put buffer.new result }
{
    if at > 48 {
        buffer[at] = cursor.next_byte(ops, tape);
        return at + 1;
    }
    let (number, width) = cursor.take_bytes(ops, tape);
    put_number(buffer, at, number);
    at + width
}

// The lowest bytes of a number and of so many others, put from a place on.
#[inline(always)]
fn put_bytes(
    buffer: &mut [u8; 56],
    at: usize,
    first: u64,
    numbers: &[u64],
    from: usize,
    others: usize,
)
    requires inside { at + (others + 1) ≤ 56 }
    requires there { from + others ≤ length numbers.now }
    ensures holds { (put : List ℕ) → length put ≡ at → Holds buffer.old put
        → Holds buffer.new (put ++ map low_byte_of (first ∷ take others (drop from numbers.now))) }
{
    buffer[at] = low_byte(first);
    let mut index = 0;
    while index < others {
        buffer[at + 1 + index] = low_byte(numbers[from + index]);
        index += 1;
    }
}

// The numbers of a loop over one byte, as long as bytes are free; the place behind them.
#[inline(always)]
fn put_span(
    buffer: &mut [u8; 56],
    at: usize,
    cursor: &mut SendCursor,
    ops: &[Op],
    tape: &[u64],
) -> usize
    requires place { at < 56 }
    requires location { IsLocation ops.now (location_of tape.now cursor.old) }
    requires run { IsRun ops.now cursor.old }
    ensures place { result ≤ 56 }
    ensures location { IsLocation ops.now (location_of tape.now cursor.new) }
    ensures run { IsRun ops.now cursor.new }
    ensures width { cursor.new.width ≡ cursor.old.width }
    ensures puts { (put : List ℕ) → length put ≡ at → Holds buffer.old put
        → PutsRun ops.now (location_of tape.now cursor.old) (location_of tape.now cursor.new) put buffer.new result }
{
    if cursor.width() != 1 {
        return at;
    }
    let many = cursor.bytes_there(tape, 56 - at);
    if many == 0 {
        return at;
    }
    put_bytes(buffer, at, cursor.number(), tape, cursor.next(), many - 1);
    cursor.pass_bytes(ops, tape, many - 1);
    at + many
}

// The numbers of a loop over one number, as long as eight bytes are free, of one byte as long as any is; the place behind them.
#[inline(always)]
fn put_run(
    buffer: &mut [u8; 56],
    at: usize,
    cursor: &mut SendCursor,
    ops: &[Op],
    tape: &[u64],
) -> usize
    requires place { at < 56 }
    requires location { IsLocation ops.now (location_of tape.now cursor.old) }
    ensures place { result ≤ 56 }
    ensures location { IsLocation ops.now (location_of tape.now cursor.new) }
    ensures width { cursor.new.width ≡ cursor.old.width }
    ensures puts { (put : List ℕ) → length put ≡ at → Holds buffer.old put
        → PutsRun ops.now (location_of tape.now cursor.old) (location_of tape.now cursor.new) put buffer.new result }
{
    if !cursor.is_run(ops) {
        return at;
    }
    let width = cursor.width();
    let mut end = put_span(buffer, at, cursor, ops, tape);
    while end <= 48 && cursor.turns_left() > 0 {
        put_number(buffer, end, cursor.take_turn(ops, tape));
        end += width;
    }
    end
}

// The next bytes, put at a place; the place behind them.
#[inline(always)]
fn put_next(
    buffer: &mut [u8; 56],
    at: usize,
    cursor: &mut SendCursor,
    ops: &[Op],
    tape: &[u64],
) -> usize
    requires place { at < 56 }
    requires location { IsLocation ops.now (location_of tape.now cursor.old) }
    requires busy { cursor.old.width ≢ 0 }
    ensures { (put : List ℕ) → length put ≡ at → Holds buffer.old put
        → Puts ops.now (location_of tape.now cursor.old) (location_of tape.now cursor.new) put buffer.new result }
{
    let at = put_run(buffer, at, cursor, ops, tape);
    if at == 56 {
        return at;
    }
    put_last(buffer, at, cursor, ops, tape)
}

// A number that an instruction gives alone, before its bytes are cut, and how many bytes it has: if eight bytes are free.
#[inline(always)]
fn number_at(
    filled: usize,
    ops: &[Op],
    place: usize,
    tape: &[u64],
    next: usize,
) -> Option<(u64, u32)>
    ensures room { IfSome result (λ r. filled + 8 ≤ 56) }
    ensures op { IfSome result (λ r. slice_get ops.now place ≡ Some (emit_op r.1)) }
    ensures there { IfSome result (λ r. next < length tape.now) }
    ensures number { IfSome result (λ r. r.0 ≡ slice_index tape.now next) }
    ensures place { IfSome result (λ r. place + 1 < 2 ^ 64) }
{
    if filled > 48 || next >= tape.len() {
        return None;
    }
    match op_at(ops, place) {
        Some(Op::Emit(width)) => Some((tape[next], width)),
        _ => None,
    }
}

// The numbers that a fragment begins with, outside loops, as long as each is followed by another; the place behind them.
#[inline(always)]
fn put_numbers(buffer: &mut [u8; 56], cursor: &mut SendCursor, ops: &[Op], tape: &[u64]) -> usize
    requires location { IsLocation ops.now (location_of tape.now cursor.old) }
    requires settled { IsSettled ops.now (location_of tape.now cursor.old) }
    requires none { Holds buffer.old [] }
    ensures place { result ≤ 56 }
    ensures location { IsLocation ops.now (location_of tape.now cursor.new) }
    ensures settled { IsSettled ops.now (location_of tape.now cursor.new) }
    ensures puts { PutsRun ops.now (location_of tape.now cursor.old) (location_of tape.now cursor.new) [] buffer.new result }
{
    if cursor.is_idle() || cursor.depth != 0 {
        return 0;
    }
    let mut place = cursor.place;
    let mut next = cursor.next;
    let mut phase = cursor.phase;
    let mut value = cursor.value;
    let mut width = cursor.width;
    let mut filled = 0;
    while let Some((number, more)) = number_at(filled, ops, place, tape, next) {
        put_number(buffer, filled, value);
        filled += width as usize;
        value = low_bytes(number, more);
        width = more;
        place += 1;
        next += 1;
        phase = (phase % 8 + more) % 8;
    }
    cursor.place = place;
    cursor.next = next;
    cursor.phase = phase;
    cursor.value = value;
    cursor.width = width;
    filled
}

// The next 56 bytes, zeros after their end.
#[inline(always)]
fn fill(cursor: &mut SendCursor, ops: &[Op], tape: &[u64]) -> [u8; 56]
    requires location { IsLocation ops.now (location_of tape.now cursor.old) }
    requires settled { IsSettled ops.now (location_of tape.now cursor.old) }
    ensures location { IsLocation ops.now (location_of tape.now cursor.new) }
    ensures settled { IsSettled ops.now (location_of tape.now cursor.new) }
    ensures bytes { (i : ℕ) → i < 56 → slice_index result i ≡ slice_index (bytes_from ops.now (location_of tape.now cursor.old)) i }
    ensures left { bytes_from ops.now (location_of tape.now cursor.new) ≡ drop 56 (bytes_from ops.now (location_of tape.now cursor.old)) }
{
    let mut buffer = [0; 56];
    let mut filled = put_numbers(&mut buffer, cursor, ops, tape);
    while filled < 56 && !cursor.is_idle() {
        filled = put_next(&mut buffer, filled, cursor, ops, tape);
        cursor.settle(ops, tape);
    }
    buffer
}

// As `first_frag`, for all code.
#[inline(never)]
fn run_first(code: &VerifiedCode, msg: MsgNo, circuit: Circuit, tape: &[u64]) -> Frag
    requires { code.now.column ≡ send }
    ensures { Some result ≡ slice_get (frags_holding true msg.0 circuit.0 (bytes_given (block_of code.now.ops) tape.now)) 0 }
{
    let ops = code.ops();
    let mut cursor = SendCursor::new();
    cursor.settle(ops, tape);
    let buffer = fill(&mut cursor, ops, tape);
    frag_with(&buffer, true, msg, circuit)
}

// What an instruction gives that gives a number alone, or zeros, which are a number that the tape hasn't: the number, how many bytes
// it has, and where the tape goes on. `None` for others, where the tape has no more, and where eight bytes aren't free.
#[inline(always)]
fn given_at(
    filled: usize,
    ops: &[Op],
    place: usize,
    tape: &[u64],
    next: usize,
) -> Option<(u64, u32, usize)>
    requires location { IsLocation ops.now (straight_location tape.now place next filled) }
    ensures room { IfSome result (λ r. filled + 8 ≤ 56) }
    ensures inside { IfSome result (λ r. place < length ops.now) }
    ensures place { IfSome result (λ r. place + 1 < 2 ^ 64) }
    ensures given { IfSome result (λ r. GivesNumber ops.now (straight_location tape.now place next filled)
        (straight_location tape.now (place + 1) r.2 (filled + r.1)) r.0 r.1) }
{
    if filled > 48 {
        return None;
    }
    let Some(op) = op_at(ops, place) else {
        return None;
    };
    match op {
        Op::Emit(width) => {
            if next >= tape.len() {
                return None;
            }
            Some((low_bytes(tape[next], width), width, next + 1))
        }
        Op::Pad(zeros) => Some((0, zeros, next)),
        _ => None,
    }
}

// Puts the bytes of a call whose send code gives numbers and zeros alone; whether these are all. For other code, and where a number or
// zeros begin behind byte 48, it is false.
#[inline(always)]
fn put_straight(buffer: &mut [u8; 56], ops: &[Op], tape: &[u64]) -> bool
    requires location { IsLocation ops.now (straight_location tape.now 0 0 0) }
    requires none { Holds buffer.old [] }
    ensures bytes { IsTrue result → (i : ℕ) → i < 56 → slice_index buffer.new i ≡ slice_index (bytes_from ops.now (straight_location tape.now 0 0 0)) i }
{
    let mut place = 0;
    let mut next = 0;
    let mut filled = 0;
    while let Some((number, width, after)) = given_at(filled, ops, place, tape, next) {
        put_number(buffer, filled, number);
        filled += width as usize;
        next = after;
        place += 1;
    }
    is_op(ops, place, Op::End)
}

/// The first fragment of a call, by its message's send code and its tape: that which [`SendRun::start`]'s run gives first.
/// A call of one fragment needs no run, which would be moved about. Takes no memory.
#[inline]
pub fn first_frag(code: &VerifiedCode, msg: MsgNo, circuit: Circuit, tape: &[u64]) -> Frag
    requires { code.now.column ≡ send }
    ensures { Some result ≡ slice_get (frags_holding true msg.0 circuit.0 (bytes_given (block_of code.now.ops) tape.now)) 0 }
{
    let mut buffer = [0; 56];
    if put_straight(&mut buffer, code.ops(), tape) {
        return frag_with(&buffer, true, msg, circuit);
    }
    run_first(code, msg, circuit, tape)
}

impl SendRun {
    /// The run that gives the fragments of a call, by its message's send code and its tape. Takes no memory.
    #[inline]
    pub fn start(code: &VerifiedCode, msg: MsgNo, circuit: Circuit, tape: Vec<u64>) -> SendRun
        requires { code.now.column ≡ send }
        ensures runs { RunsOn code.now result }
        ensures given { frags_left code.now result ≡ frags_holding true msg.0 circuit.0 (bytes_given (block_of code.now.ops) tape.items) }
        ensures meant { (bytes : List ℕ) → Turns (block_of code.now.ops) tape.items bytes
            → frags_left code.now result ≡ frags_holding true msg.0 circuit.0 bytes }
    {
        let cursor = SendCursor::new();
        // Settled where it lies, so that the loops aren't copied.
        let mut run = SendRun {
            msg,
            circuit,
            tape,
            begins: true,
            cursor,
        };
        run.cursor.settle(code.ops(), &run.tape);
        run
    }

    /// The next fragment, which stays the next; `None` after the last. Asks for the code of the start. Takes no memory.
    #[inline]
    pub fn peek_frag(&self, code: &VerifiedCode) -> Option<Frag>
        requires { RunsOn code.now self.now }
        ensures frag { result ≡ slice_get (frags_left code.now self.now) 0 }
    {
        if !self.begins && self.cursor.is_idle() {
            return None;
        }
        let mut cursor = self.cursor;
        let buffer = fill(&mut cursor, code.ops(), &self.tape);
        Some(frag_with(&buffer, self.begins, self.msg, self.circuit))
    }

    /// The next fragment; `None` after the last. Asks for the code of the start. Takes no memory.
    #[inline]
    pub fn next_frag(&mut self, code: &VerifiedCode) -> Option<Frag>
        requires { RunsOn code.now self.old }
        ensures runs { RunsOn code.now self.new }
        ensures frag { result ≡ slice_get (frags_left code.now self.old) 0 }
        ensures left { frags_left code.now self.new ≡ drop 1 (frags_left code.now self.old) }
    {
        if !self.begins && self.cursor.is_idle() {
            return None;
        }
        let buffer = fill(&mut self.cursor, code.ops(), &self.tape);
        let begins = self.begins;
        self.begins = false;
        Some(frag_with(&buffer, begins, self.msg, self.circuit))
    }
}
