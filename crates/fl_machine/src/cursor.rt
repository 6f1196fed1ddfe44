//! Where a run of send code stands, and how it goes on.

ghost use Rattle.std.specs.Prelude.{◌≡◌, ◌≢◌, ◌==◌, ◌+◌, ◌-◌, ◌%◌, ◌<◌, ◌≤◌, ◌^◌, ℕ, suc, true};
ghost use Rattle.std.specs.Prelude.{false, List, [], ◌∷◌, ◌++◌, map, take, drop, length, slice_get, Some, IsTrue};
ghost use Rattle.fl_stub.specs.declared.op.Op.TheVariants.{Emit as emit_op, Pad as pad_op, Times as times_op, Length as length_op, Back as back_op};
ghost use Rattle.fl_stub.specs.declared.op.Column.{Column as the_column};
ghost use Rattle.fl_stub.specs.Structure.{is_width};
ghost use Rattle.fl_stub.specs.Rests.{IsPlaceIn};
ghost use Rattle.fl_stub.specs.Meaning.{number_bytes, gap_to_8};
ghost use Rattle.fl_stub.specs.Given.{first_of_tape, rest_of_tape};
ghost use Rattle.fl_stub.specs.Frames.{frames_of};
ghost use Rattle.fl_stub.specs.Locations.{TheEndLocation, TheLoop, IsLocation, IsSettled, StepsTo, bytes_from, outer};
ghost use Rattle.fl_machine.specs.Cursors.{location_of, loops_of, inside_after as inside_after_of, turns_of, low_byte as low_byte_of, Gives, IsRun};

use fl_stub::Op;

/// An open loop: the place of its first instruction, and the turns that it makes after this one.
#[derive(Clone, Copy)]
pub struct Loop {
    pub(crate) start: usize,
    pub(crate) turns: u64,
}

/// Where a run of send code stands.
#[derive(Clone, Copy)]
pub struct SendCursor {
    // The next instruction.
    pub(crate) place: usize,
    // The open loops, the innermost last, and how many.
    loops: [Loop; 8],
    pub(crate) depth: usize,
    // The next number of the tape.
    pub(crate) next: usize,
    // The place in the payload, modulo 8.
    pub(crate) phase: u32,
    // A number of which so many bytes are still to be given.
    pub(crate) value: u64,
    pub(crate) width: u32,
}

// The lowest byte of a number.
#[inline(always)]
pub(crate) fn low_byte(number: u64) -> u8
    ensures { result ≡ low_byte_of number }
{
    (number % 256) as u8
}

// The number without the bytes above so many.
#[inline(always)]
pub(crate) fn low_bytes(value: u64, width: u32) -> u64
    requires { is_width width ≡ true }
    ensures bytes { number_bytes width result ≡ number_bytes width value }
    ensures small { result < 256 ^ width }
{
    match width {
        1 => value % 256,
        2 => value % 65_536,
        4 => value % 4_294_967_296,
        _ => value,
    }
}

// How many loops are open inside a loop after an instruction; `None` at the loop's own end.
fn inside_after(inside: usize, op: Op) -> Option<usize>
    requires { inside + 1 < 2 ^ 64 }
    ensures { result ≡ inside_after_of inside op }
{
    match op {
        Op::Times(_) | Op::Each => Some(inside + 1),
        Op::Back => inside.checked_sub(1),
        _ => Some(inside),
    }
}

// The place behind the loop whose first instruction this is.
pub(crate) fn behind(ops: &[Op], start: usize) -> usize
    ensures place { (column : the_column) (depth : ℕ) → IsPlaceIn column ops.now (suc depth) start → IsPlaceIn column ops.now depth result }
    ensures frames { (column : the_column) (depth : ℕ) → IsPlaceIn column ops.now (suc depth) start
        → frames_of (drop result ops.now) ≡ outer (frames_of (drop start ops.now)) }
{
    let mut inside = 0;
    let mut place = start;
    while place < ops.len() {
        let Some(next) = inside_after(inside, ops[place]) else {
            return place + 1;
        };
        inside = next;
        place += 1;
    }
    place
}

// Whether this instruction stands there.
pub(crate) fn is_op(ops: &[Op], place: usize, op: Op) -> bool
    ensures { IsTrue result → slice_get ops.now place ≡ Some op }
{
    match ops.get(place) {
        Some(there) => *there == op,
        None => false,
    }
}

impl SendCursor {
    /// At the first instruction.
    #[inline(always)]
    pub(crate) fn new() -> SendCursor
        ensures { (tape : List ℕ) → location_of tape result ≡ record { place = 0; loops = []; tape = tape; at = 0; value = 0; width = 0 } }
    {
        SendCursor {
            place: 0,
            loops: [Loop { start: 0, turns: 0 }; 8],
            depth: 0,
            next: 0,
            phase: 0,
            value: 0,
            width: 0,
        }
    }

    // The next number of the tape; 0 behind its end.
    #[inline(always)]
    fn take_number(&mut self, tape: &[u64]) -> u64
        ensures number { result ≡ first_of_tape (drop self.old.next tape.now) }
        ensures location { location_of tape.now self.new ≡ record (location_of tape.now self.old) { tape = rest_of_tape (drop self.old.next tape.now) } }
        ensures rest { self.new ≡ record self.old { next = self.new.next } }
        ensures fits { result < 2 ^ 64 }
    {
        let Some(number) = tape.get(self.next) else {
            return 0;
        };
        self.next += 1;
        *number
    }

    // Past this instruction, with these bytes to be given.
    #[inline(always)]
    fn give(&mut self, value: u64, width: u32)
        requires room { self.old.place + 1 < 2 ^ 64 }
        requires width { width ≤ 8 }
        ensures location { (tape : List ℕ) → location_of tape self.new
            ≡ record (location_of tape self.old) { place = self.old.place + 1; at = (self.old.phase + width) % 8; value = value; width = width } }
    {
        self.place += 1;
        self.phase = (self.phase % 8 + width) % 8;
        self.value = value;
        self.width = width;
    }

    // Into a loop that begins there.
    #[inline(always)]
    fn enter(&mut self, start: usize, turns: u64)
        requires { self.old.depth < 8 }
        ensures { (tape : List ℕ) → location_of tape self.new
            ≡ record (location_of tape self.old) { place = start; loops = (record { start = start; turns = turns }) ∷ loops_of self.old.loops self.old.depth } }
    {
        self.loops[self.depth] = Loop { start, turns };
        self.depth += 1;
        self.place = start;
    }

    #[inline(always)]
    fn emit(&mut self, ops: &[Op], tape: &[u64], width: u32)
        requires op { slice_get ops.now self.old.place ≡ Some (emit_op width) }
        requires location { IsLocation ops.now (location_of tape.now self.old) }
        requires idle { self.old.width ≡ 0 }
        ensures { StepsTo ops.now (location_of tape.now self.old) (location_of tape.now self.new) }
    {
        let number = self.take_number(tape);
        self.give(low_bytes(number, width), width);
    }

    #[inline(always)]
    fn pad(&mut self, ops: &[Op], tape: &[u64], zeros: u32)
        requires op { slice_get ops.now self.old.place ≡ Some (pad_op zeros) }
        requires location { IsLocation ops.now (location_of tape.now self.old) }
        requires idle { self.old.width ≡ 0 }
        ensures { StepsTo ops.now (location_of tape.now self.old) (location_of tape.now self.new) }
    {
        self.give(0, zeros);
    }

    #[inline(always)]
    fn align(&mut self, ops: &[Op], tape: &[u64])
        requires op { slice_get ops.now self.old.place ≡ Some Op.Align }
        requires location { IsLocation ops.now (location_of tape.now self.old) }
        requires idle { self.old.width ≡ 0 }
        ensures { StepsTo ops.now (location_of tape.now self.old) (location_of tape.now self.new) }
    {
        self.give(0, (8 - self.phase % 8) % 8);
    }

    #[inline(always)]
    fn repeat(&mut self, ops: &[Op], tape: &[u64], turns: u32)
        requires op { slice_get ops.now self.old.place ≡ Some (times_op turns) }
        requires location { IsLocation ops.now (location_of tape.now self.old) }
        ensures { StepsTo ops.now (location_of tape.now self.old) (location_of tape.now self.new) }
    {
        self.enter(self.place + 1, u64::from(turns) - 1);
    }

    fn count(&mut self, ops: &[Op], tape: &[u64], most: u32)
        requires op { slice_get ops.now self.old.place ≡ Some (length_op most) }
        requires location { IsLocation ops.now (location_of tape.now self.old) }
        requires idle { self.old.width ≡ 0 }
        ensures { StepsTo ops.now (location_of tape.now self.old) (location_of tape.now self.new) }
    {
        let turns = self.take_number(tape);
        self.value = turns;
        self.width = 8;
        let start = self.place + 2;
        if turns == 0 {
            self.place = behind(ops, start);
            return;
        }
        self.enter(start, turns - 1);
    }

    #[inline(always)]
    fn turn(&mut self, ops: &[Op], tape: &[u64])
        requires op { slice_get ops.now self.old.place ≡ Some back_op }
        requires location { IsLocation ops.now (location_of tape.now self.old) }
        ensures { StepsTo ops.now (location_of tape.now self.old) (location_of tape.now self.new) }
    {
        let last = self.depth - 1;
        let inner = self.loops[last];
        self.depth = last;
        if inner.turns == 0 {
            self.place += 1;
            return;
        }
        self.enter(inner.start, inner.turns - 1);
    }

    // One instruction; false at the end of the code.
    #[inline(always)]
    fn advance(&mut self, ops: &[Op], tape: &[u64]) -> bool
        requires location { IsLocation ops.now (location_of tape.now self.old) }
        requires idle { self.old.width ≡ 0 }
        ensures goes { IsTrue result → StepsTo ops.now (location_of tape.now self.old) (location_of tape.now self.new) }
        ensures stays { result ≡ false → self.new ≡ self.old }
        ensures ended { result ≡ false → bytes_from ops.now (location_of tape.now self.old) ≡ [] }
    {
        let Some(op) = ops.get(self.place) else {
            return false;
        };
        match *op {
            Op::Emit(width) => self.emit(ops, tape, width),
            Op::Pad(zeros) => self.pad(ops, tape, zeros),
            Op::Align => self.align(ops, tape),
            Op::Times(turns) => self.repeat(ops, tape, turns),
            Op::Length(most) => self.count(ops, tape, most),
            Op::Back => self.turn(ops, tape),
            _ => return false,
        }
        true
    }

    /// Whether no byte is to be given before the next instruction.
    #[inline(always)]
    pub(crate) fn is_idle(&self) -> bool
        ensures { result ≡ (self.now.width == 0) }
    {
        self.width == 0
    }

    /// A number's bytes: the number, and how many of its bytes.
    #[inline(always)]
    pub(crate) fn take_bytes(&mut self, ops: &[Op], tape: &[u64]) -> (u64, usize)
        requires { IsLocation ops.now (location_of tape.now self.old) }
        ensures number { result.0 ≡ self.old.value }
        ensures width { result.1 ≡ self.old.width }
        ensures location { IsLocation ops.now (location_of tape.now self.new) }
        ensures bytes { bytes_from ops.now (location_of tape.now self.old)
            ≡ number_bytes self.old.width self.old.value ++ bytes_from ops.now (location_of tape.now self.new) }
    {
        let taken = (self.value, self.width as usize);
        self.value = 0;
        self.width = 0;
        taken
    }

    /// Whether the innermost loop is over one number alone, and that number's bytes are the next.
    #[inline(always)]
    pub(crate) fn is_run(&self, ops: &[Op]) -> bool
        requires { self.now.depth ≤ 8 }
        ensures { IsTrue result → IsRun ops.now self.now }
    {
        if self.depth == 0 {
            return false;
        }
        let start = self.loops[self.depth - 1].start;
        start < self.place
            && self.place - start == 1
            && is_op(ops, self.place, Op::Back)
            && is_op(ops, start, Op::Emit(self.width))
    }

    /// How many bytes of a number are to be given.
    pub(crate) fn width(&self) -> usize
        ensures { result ≡ self.now.width }
    {
        self.width as usize
    }

    /// The turns that the innermost loop makes after this one.
    pub(crate) fn turns_left(&self) -> u64
        requires low { 0 < self.now.depth }
        requires high { self.now.depth ≤ 8 }
        ensures { result ≡ turns_of self.now }
    {
        self.loops[self.depth - 1].turns
    }

    /// A number's bytes, and on to the number of the loop's next turn.
    pub(crate) fn take_turn(&mut self, ops: &[Op], tape: &[u64]) -> u64
        requires location { IsLocation ops.now (location_of tape.now self.old) }
        requires run { IsRun ops.now self.old }
        requires more { 0 < turns_of self.old }
        ensures number { result ≡ self.old.value }
        ensures width { self.new.width ≡ self.old.width }
        ensures run { IsRun ops.now self.new }
        ensures turns { turns_of self.old ≡ turns_of self.new + 1 }
        ensures location { IsLocation ops.now (location_of tape.now self.new) }
        ensures bytes { bytes_from ops.now (location_of tape.now self.old)
            ≡ number_bytes self.old.width self.old.value ++ bytes_from ops.now (location_of tape.now self.new) }
    {
        let taken = self.value;
        let number = self.take_number(tape);
        self.value = low_bytes(number, self.width);
        self.phase = (self.phase % 8 + self.width) % 8;
        self.loops[self.depth - 1].turns -= 1;
        taken
    }

    /// How many bytes of a loop over one byte can be given together, at most so many: that of the turn's number, and those of the
    /// turns behind it, but the last number that is then taken from the tape stays to be given.
    #[inline(always)]
    pub(crate) fn bytes_there(&self, tape: &[u64], most: usize) -> usize
        requires low { 0 < self.now.depth }
        requires high { self.now.depth ≤ 8 }
        ensures most { result ≤ most }
        ensures turns { result ≤ turns_of self.now }
        ensures there { 0 < result → self.now.next + result ≤ length tape.now }
    {
        if self.next >= tape.len() {
            return 0;
        }
        let there = (tape.len() - self.next).min(most);
        self.turns_left().min(there as u64) as usize
    }

    /// The number whose bytes are given next.
    #[inline(always)]
    pub(crate) fn number(&self) -> u64
        ensures { result ≡ self.now.value }
    {
        self.value
    }

    /// The place on the tape of the number behind that one.
    #[inline(always)]
    pub(crate) fn next(&self) -> usize
        ensures { result ≡ self.now.next }
    {
        self.next
    }

    /// Past the numbers of a loop over one byte, the one to be given and so many others, and on to that of the turn behind them: as
    /// by `take_turn` so often.
    #[inline(always)]
    pub(crate) fn pass_bytes(&mut self, ops: &[Op], tape: &[u64], others: usize)
        requires location { IsLocation ops.now (location_of tape.now self.old) }
        requires run { IsRun ops.now self.old }
        requires one { self.old.width ≡ 1 }
        requires few { others < 56 }
        requires more { others + 1 ≤ turns_of self.old }
        requires there { self.old.next + (others + 1) ≤ length tape.now }
        ensures width { self.new.width ≡ 1 }
        ensures run { IsRun ops.now self.new }
        ensures location { IsLocation ops.now (location_of tape.now self.new) }
        ensures bytes { bytes_from ops.now (location_of tape.now self.old)
            ≡ map low_byte_of (self.old.value ∷ take others (drop self.old.next tape.now)) ++ bytes_from ops.now (location_of tape.now self.new) }
    {
        let many = others + 1;
        self.value = tape[self.next + others] % 256;
        self.next += many;
        self.phase = (self.phase % 8 + many as u32) % 8;
        self.loops[self.depth - 1].turns -= many as u64;
    }

    /// The next of a number's bytes.
    pub(crate) fn next_byte(&mut self, ops: &[Op], tape: &[u64]) -> u8
        requires location { IsLocation ops.now (location_of tape.now self.old) }
        requires busy { self.old.width ≢ 0 }
        ensures { Gives ops.now (location_of tape.now self.old) (location_of tape.now self.new) result }
    {
        let byte = self.value % 256;
        self.value /= 256;
        self.width -= 1;
        byte as u8
    }

    /// On to the next bytes, or to the end of the code.
    #[inline(always)]
    pub(crate) fn settle(&mut self, ops: &[Op], tape: &[u64])
        requires { IsLocation ops.now (location_of tape.now self.old) }
        ensures location { IsLocation ops.now (location_of tape.now self.new) }
        ensures settled { IsSettled ops.now (location_of tape.now self.new) }
        ensures bytes { bytes_from ops.now (location_of tape.now self.old) ≡ bytes_from ops.now (location_of tape.now self.new) }
    {
        while self.width == 0 {
            if !self.advance(ops, tape) {
                return;
            }
        }
    }
}
