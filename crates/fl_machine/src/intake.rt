//! Where a run of receive code stands, and how it takes bytes.

ghost use Rattle.std.specs.Prelude.{◌≡◌, ◌≢◌, ◌+◌, ◌-◌, ◌*◌, ◌%◌, ◌<◌, ◌≤◌, ◌^◌, ◌++◌, ℕ, true, false, List, [], ◌∷◌};
ghost use Rattle.std.specs.Prelude.{take, drop, length, slice_get, Some, IfOk, IfErr, IfSome, IfNone, IsTrue};
ghost use Rattle.fl_stub.specs.declared.op.Column.TheVariants.{Receive as receive};
ghost use Rattle.fl_stub.specs.declared.op.Op.TheVariants.{Times as times_op, Back as back_op, Done as done_op};
ghost use Rattle.fl_stub.specs.declared.mark.ByteKind.TheVariants.{Length as length_mark, Zero as zero_mark};
ghost use Rattle.fl_stub.specs.Structure.{IsCode, is_width};
ghost use Rattle.fl_stub.specs.Frames.{block_of};
ghost use Rattle.fl_stub.specs.Meaning.{number_bytes};
ghost use Rattle.fl_stub.specs.Streams.{LeavesPayloads};
ghost use Rattle.fl_stub.specs.Rests.{no_more, is_taken, taken_field, zeros_field, told};
ghost use Rattle.fl_machine.specs.declared.intake.Fed.TheVariants.{Part as part, Whole as whole};
ghost use Rattle.fl_machine.specs.Cursors.{loops_of};
ghost use Rattle.fl_machine.specs.Taking.{Stands, TakesPart, TakesWhole, TakesWrong, IsFedBy, bytes_left, IsTaking, IsAtField, HasField};
ghost use Rattle.fl_machine.specs.Taking.{Passes, PassesOne, StepsOver, Grows, AreZeros, FirstSet, IsRunOf, AreWithin, inner_loop};
ghost use Rattle.fl_machine.specs.Taking.{after_bytes, words_bytes, field_view, rest_of, HasRoom};

use crate::cursor::{Loop, behind, is_op};
use fl_stub::{ByteKind, Op};

/// What taking a fragment came to.
#[derive(Clone, Copy, Debug, PartialEq, Eq)]
pub enum Fed {
    /// The call goes on in the next fragment.
    Part,
    /// The call is whole.
    Whole,
}

/// Bytes that are one number, or zeros.
#[derive(Clone, Copy)]
pub(crate) struct ByteField {
    mark: ByteKind,
    // How many bytes.
    pub(crate) width: u32,
    // The least number and the greatest; 0 and 0 for zeros.
    pub(crate) least: u64,
    pub(crate) last: u64,
    // Whether the number is put on the tape.
    pub(crate) told: bool,
}

/// Where a run of receive code stands.
#[derive(Clone, Copy)]
pub struct RecvCursor {
    // The next instruction.
    pub(crate) place: usize,
    // The open loops, the innermost last, and how many.
    pub(crate) loops: [Loop; 8],
    pub(crate) depth: usize,
    // How many numbers were taken.
    pub(crate) count: usize,
    // The place in the payload, modulo 8.
    pub(crate) phase: u32,
    // The next instruction has got so many of its bytes, which as a number are `value`.
    pub(crate) value: u64,
    pub(crate) have: u32,
}

// A word's eight bytes from a place on.
#[inline(always)]
fn put_word(buffer: &mut [u8; 64], at: usize, word: u64)
    requires { at + 8 ≤ 64 }
    ensures { buffer.new ≡ take at buffer.old ++ (number_bytes 8 word ++ drop (at + 8) buffer.old) }
{
    let bytes = word.to_le_bytes();
    buffer[at] = bytes[0];
    buffer[at + 1] = bytes[1];
    buffer[at + 2] = bytes[2];
    buffer[at + 3] = bytes[3];
    buffer[at + 4] = bytes[4];
    buffer[at + 5] = bytes[5];
    buffer[at + 6] = bytes[6];
    buffer[at + 7] = bytes[7];
}

// Puts the bytes of a fragment's words into a buffer with eight more behind them, so that eight can be read at each place.
#[inline(always)]
pub(crate) fn spread(buffer: &mut [u8; 64], words: &[u64; 7])
    ensures { take 56 buffer.new ≡ words_bytes words.now }
{
    let mut index = 0;
    while index < 7 {
        put_word(buffer, 8 * index, words[index]);
        index += 1;
    }
}

// The eight bytes from a place on as a number.
#[inline(always)]
pub(crate) fn word_at(buffer: &[u8; 64], at: usize) -> u64
    requires { at + 8 ≤ 64 }
    ensures { number_bytes 8 result ≡ take 8 (drop at buffer.now) }
{
    u64::from_le_bytes([
        buffer[at],
        buffer[at + 1],
        buffer[at + 2],
        buffer[at + 3],
        buffer[at + 4],
        buffer[at + 5],
        buffer[at + 6],
        buffer[at + 7],
    ])
}

// How many numbers so many bytes can be.
#[inline(always)]
fn power(bytes: usize) -> u64
    requires { bytes < 8 }
    ensures { result ≡ 256 ^ bytes }
{
    1 << (8 * bytes)
}

// The number in a word's first bytes.
#[inline(always)]
pub(crate) fn low_part(word: u64, bytes: usize) -> u64
    requires { bytes ≤ 8 }
    ensures { result ≡ word % 256 ^ bytes }
{
    if bytes == 8 {
        return word;
    }
    word % power(bytes)
}

// The number with so many zero bytes before it.
#[inline(always)]
fn raise(number: u64, bytes: u32) -> u64
    requires few { bytes < 8 }
    requires room { number * 256 ^ bytes < 2 ^ 64 }
    ensures { result ≡ number * 256 ^ bytes }
{
    number * power(bytes as usize)
}

// Past zeros, eight at a time.
#[inline(always)]
fn past_zeros(buffer: &[u8; 64], used: usize) -> usize
    requires { used ≤ 56 }
    ensures from { used ≤ result }
    ensures inside { result ≤ 56 }
    ensures zeros { AreZeros buffer.now used result }
{
    let mut at = used;
    while at < 56 && word_at(buffer, at) == 0 {
        at += 8;
    }
    at.min(56)
}

// Whether all bytes from a place up to the last of a fragment are zeros.
pub(crate) fn end_of(buffer: &[u8; 64], used: usize) -> Result<Fed, ByteKind>
    requires { used ≤ 56 }
    ensures whole { IfOk result (λ fed. (fed ≡ whole) × AreZeros buffer.now used 56) }
    ensures wrong { IfErr result (λ mark. (mark ≡ zero_mark) × FirstSet buffer.now used) }
{
    let mut at = past_zeros(buffer, used);
    while at < 56 {
        if buffer[at] != 0 {
            return Err(ByteKind::Zero);
        }
        at += 1;
    }
    Ok(Fed::Whole)
}

// The least and the greatest of some bytes.
#[inline(always)]
fn bounds_of(buffer: &[u8; 64], from: usize, many: usize) -> (u8, u8)
    requires inside { from + many ≤ 56 }
    ensures within { AreWithin result.0 result.1 (take many (drop from buffer.now)) }
{
    let mut low = 255;
    let mut high = 0;
    let mut index = 0;
    while index < many {
        let byte = buffer[from + index];
        low = byte.min(low);
        high = byte.max(high);
        index += 1;
    }
    (low, high)
}

// Puts bytes on a tape as numbers.
#[inline(always)]
fn put_bytes(tape: &mut [u64], count: usize, buffer: &[u8; 64], from: usize, many: usize)
    requires room { count + many ≤ length tape.old }
    requires inside { from + many ≤ 56 }
    ensures tape { take (count + many) tape.new ≡ take count tape.old ++ take many (drop from buffer.now) }
    ensures kept { take count tape.new ≡ take count tape.old }
    ensures long { length tape.new ≡ length tape.old }
{
    let mut index = 0;
    while index < many {
        let number = u64::from(buffer[from + index]);
        tape[count + index] = number;
        index += 1;
    }
}

// Puts bytes on a tape, if a field may have each as its number; how many.
#[inline(always)]
fn copy_span(
    tape: &mut [u64],
    count: usize,
    field: ByteField,
    buffer: &[u8; 64],
    from: usize,
    most: usize,
) -> usize
    requires room { count + most ≤ length tape.old }
    requires inside { from + most ≤ 56 }
    ensures some { result ≤ most }
    ensures tape { take (count + result) tape.new ≡ take count tape.old ++ take result (drop from buffer.now) }
    ensures right { AreWithin field.least field.last (take result (drop from buffer.now)) }
    ensures kept { take count tape.new ≡ take count tape.old }
    ensures long { length tape.new ≡ length tape.old }
{
    let (low, high) = bounds_of(buffer, from, most);
    let (low, high) = (u64::from(low), u64::from(high));
    if low < field.least || high > field.last {
        return 0;
    }
    put_bytes(tape, count, buffer, from, most);
    most
}

// As `copy_span`, with loops of their own for a whole fragment, whose length is known.
#[inline(always)]
fn copy_bytes(
    tape: &mut [u64],
    count: usize,
    field: ByteField,
    buffer: &[u8; 64],
    from: usize,
    most: usize,
) -> usize
    requires room { count + most ≤ length tape.old }
    requires inside { from + most ≤ 56 }
    ensures some { result ≤ most }
    ensures tape { take (count + result) tape.new ≡ take count tape.old ++ take result (drop from buffer.now) }
    ensures right { AreWithin field.least field.last (take result (drop from buffer.now)) }
    ensures kept { take count tape.new ≡ take count tape.old }
    ensures long { length tape.new ≡ length tape.old }
{
    if most == 56 {
        return copy_span(tape, count, field, buffer, from, 56);
    }
    copy_span(tape, count, field, buffer, from, most)
}

#[inline(always)]
fn is_length(mark: ByteKind) -> bool
    ensures yes { IsTrue result → mark ≡ length_mark }
    ensures no { result ≡ false → mark ≢ length_mark }
{
    matches!(mark, ByteKind::Length)
}

#[inline(always)]
pub(crate) fn is_last(op: Op) -> bool
    ensures yes { IsTrue result → op ≡ done_op }
    ensures no { result ≡ false → op ≢ done_op }
{
    matches!(op, Op::Done)
}

#[inline(always)]
pub(crate) fn op_at(ops: &[Op], place: usize) -> Option<Op>
    ensures { result ≡ slice_get ops.now place }
{
    match ops.get(place) {
        Some(op) => Some(*op),
        None => None,
    }
}

// The greatest number of so many bytes.
#[inline(always)]
pub(crate) fn greatest(width: u32) -> u64
    requires { is_width width ≡ true }
    ensures { result + 1 ≡ 256 ^ width }
{
    match width {
        1 => 255,
        2 => 65_535,
        4 => 4_294_967_295,
        _ => u64::MAX,
    }
}

impl ByteField {
    #[inline(always)]
    pub(crate) fn number(width: u32, least: u64, last: u64) -> ByteField
        ensures { result ≡ record { mark = ByteKind.Number; width = width; least = least; last = last; told = true } }
    {
        ByteField {
            mark: ByteKind::Number,
            width,
            least,
            last,
            told: true,
        }
    }

    #[inline(always)]
    pub(crate) fn zeros(width: u32) -> ByteField
        ensures { field_view result ≡ zeros_field width }
    {
        ByteField {
            mark: ByteKind::Zero,
            width,
            least: 0,
            last: 0,
            told: false,
        }
    }

    // What an instruction takes, at a place modulo 8.
    #[inline(always)]
    pub(crate) fn of(op: Op, phase: u32) -> ByteField
        requires { is_taken op ≡ true }
        ensures { (at : ℕ) → phase % 8 ≡ at % 8 → field_view result ≡ taken_field op at }
    {
        match op {
            Op::Read(width) => ByteField::number(width, 0, greatest(width)),
            Op::ReadBool => ByteField::number(1, 0, 1),
            Op::ReadEnum(count) => ByteField::number(4, 0, u64::from(count) - 1),
            Op::ReadChar => ByteField::number(1, 0, 255),
            Op::ReadText => ByteField::number(1, 1, 255),
            Op::ReadLength(most) => ByteField {
                mark: ByteKind::Length,
                width: 8,
                least: 0,
                last: u64::from(most),
                told: true,
            },
            Op::Skip(zeros) => ByteField::zeros(zeros),
            _ => ByteField::zeros((8 - phase % 8) % 8),
        }
    }
}

impl RecvCursor {
    /// At the first instruction.
    #[inline(always)]
    pub(crate) fn new() -> RecvCursor
        ensures stands { (ops : List Op) → IsCode receive ops (block_of ops) → Stands ops [] result [] }
        ensures none { result.count ≡ 0 }
    {
        RecvCursor {
            place: 0,
            loops: [Loop { start: 0, turns: 0 }; 8],
            depth: 0,
            count: 0,
            phase: 0,
            value: 0,
            have: 0,
        }
    }

    /// Back to the first instruction.
    #[inline(always)]
    pub(crate) fn renew(&mut self)
        ensures stands { (ops : List Op) → IsCode receive ops (block_of ops) → Stands ops [] self.new [] }
        ensures none { self.new.count ≡ 0 }
    {
        self.place = 0;
        self.depth = 0;
        self.count = 0;
        self.phase = 0;
        self.value = 0;
        self.have = 0;
    }

    /// How many numbers were taken.
    #[inline(always)]
    pub(crate) fn count(&self) -> usize
        ensures { result ≡ self.now.count }
    {
        self.count
    }

    // Into a loop that begins there.
    #[inline(always)]
    fn enter(&mut self, start: usize, turns: u64)
        requires { self.old.depth < 8 }
        ensures loops { loops_of self.new.loops self.new.depth ≡ (record { start = start; turns = turns }) ∷ loops_of self.old.loops self.old.depth }
        ensures others { self.new ≡ record self.old { place = start; loops = self.new.loops; depth = self.new.depth } }
    {
        self.loops[self.depth] = Loop { start, turns };
        self.depth += 1;
        self.place = start;
    }

    #[inline(always)]
    fn repeat(&mut self, ops: &[Op], turns: u32)
        requires op { slice_get ops.now self.old.place ≡ Some (times_op turns) }
        requires stance { IsTaking ops.now self.old }
        ensures { PassesOne ops.now self.old self.new }
    {
        self.enter(self.place + 1, u64::from(turns) - 1);
    }

    #[inline(always)]
    fn turn(&mut self, ops: &[Op])
        requires op { slice_get ops.now self.old.place ≡ Some back_op }
        requires stance { IsTaking ops.now self.old }
        ensures { PassesOne ops.now self.old self.new }
    {
        let last = self.depth - 1;
        let inner = self.loops[last];
        self.depth = last;
        if inner.turns == 0 {
            self.place += 1;
            return;
        }
        self.enter(inner.start, inner.turns - 1);
    }

    // Past the next instruction, if it takes no bytes.
    #[inline(always)]
    fn pass(&mut self, ops: &[Op]) -> bool
        requires { IsTaking ops.now self.old }
        ensures passes { IsTrue result → PassesOne ops.now self.old self.new }
        ensures stays { result ≡ false → self.new ≡ self.old }
        ensures settled { result ≡ false → IsAtField ops.now self.old }
    {
        let Some(op) = op_at(ops, self.place) else {
            return false;
        };
        match op {
            Op::Times(turns) => self.repeat(ops, turns),
            Op::Back => self.turn(ops),
            Op::Align => {
                if self.phase % 8 != 0 {
                    return false;
                }
                self.place += 1;
            }
            _ => return false,
        }
        true
    }

    // On to the next instruction that takes bytes, or to the end of the code.
    #[inline(always)]
    pub(crate) fn settle(&mut self, ops: &[Op])
        requires { IsTaking ops.now self.old }
        ensures passes { Passes ops.now self.old self.new }
        ensures settled { IsAtField ops.now self.new }
    {
        while self.pass(ops) {}
    }

    // What the next instruction takes; `None` at the end of the code.
    #[inline(always)]
    fn field(&self, ops: &[Op]) -> Option<ByteField>
        requires stance { IsTaking ops.now self.now }
        requires settled { IsAtField ops.now self.now }
        ensures some { IfSome result (λ field. HasField ops.now self.now field) }
        ensures none { IfNone result ((at : ℕ) → rest_of ops.now self.now at ≡ no_more) }
    {
        let Some(op) = op_at(ops, self.place) else {
            return None;
        };
        if is_last(op) {
            return None;
        }
        Some(ByteField::of(op, self.phase))
    }

    // The number that a field's bytes are up to now, with those that are there, and how many these are.
    #[inline(always)]
    fn grow(&self, field: ByteField, buffer: &[u8; 64], used: usize) -> (u64, usize)
        requires less { self.now.have < field.width }
        requires narrow { field.width ≤ 8 }
        requires small { self.now.value < 256 ^ self.now.have }
        requires room { used < 56 }
        ensures some { 0 < result.1 }
        ensures inside { used + result.1 ≤ 56 }
        ensures within { self.now.have + result.1 ≤ field.width }
        ensures all { self.now.have + result.1 < field.width → used + result.1 ≡ 56 }
        ensures grows { Grows self.now.have self.now.value result.0 result.1 (bytes_left buffer.now used) (bytes_left buffer.now (used + result.1)) }
    {
        let wanted = (field.width - self.have) as usize;
        let there = wanted.min(56 - used);
        let more = low_part(word_at(buffer, used), there);
        (self.value + raise(more, self.have), there)
    }

    // Puts a field's number on the tape.
    #[inline(always)]
    fn tell(&mut self, tape: &mut [u64], field: ByteField, number: u64)
        requires { field.told ≡ true → self.old.count < length tape.old }
        ensures others { self.new ≡ record self.old { count = self.new.count } }
        ensures tape { take self.new.count tape.new ≡ take self.old.count tape.old ++ told field.told number }
        ensures kept { take self.old.count tape.new ≡ take self.old.count tape.old }
        ensures long { length tape.new ≡ length tape.old }
        ensures count { self.old.count ≤ self.new.count }
        ensures inside { self.old.count ≤ length tape.old → self.new.count ≤ length tape.new }
        ensures most { self.new.count ≤ self.old.count + 1 }
    {
        if field.told {
            tape[self.count] = number;
            self.count += 1;
        }
    }

    // Past an instruction that has got its bytes.
    #[inline(always)]
    fn step_over(&mut self, ops: &[Op], field: ByteField, number: u64)
        requires stance { IsTaking ops.now self.old }
        requires field { HasField ops.now self.old field }
        requires narrow { field.width ≤ 8 }
        ensures { StepsOver ops.now self.old self.new field number }
    {
        self.value = 0;
        self.have = 0;
        self.phase = (self.phase % 8 + field.width) % 8;
        if !is_length(field.mark) {
            self.place += 1;
            return;
        }
        let start = self.place + 2;
        if number == 0 {
            self.place = behind(ops, start);
            return;
        }
        self.enter(start, number - 1);
    }

    // Whether the innermost loop is over this number alone, and none of its bytes was taken.
    #[inline(always)]
    fn is_run(&self, ops: &[Op], field: ByteField) -> bool
        requires stance { IsTaking ops.now self.now }
        requires field { HasField ops.now self.now field }
        ensures { IsTrue result → IsRunOf ops.now self.now field }
    {
        if self.depth == 0 || self.have != 0 || !field.told || is_length(field.mark) {
            return false;
        }
        self.loops[self.depth - 1].start == self.place && is_op(ops, self.place + 1, Op::Back)
    }

    // The turns that the innermost loop makes after this one.
    #[inline(always)]
    pub(crate) fn turns_left(&self) -> u64
        requires low { 0 < self.now.depth }
        requires high { self.now.depth ≤ 8 }
        ensures turns { result ≡ (inner_loop self.now).turns }
        ensures wide { length self.now.loops ≡ 8 }
    {
        self.loops[self.depth - 1].turns
    }

    // Past so many numbers of one byte that were put on the tape, in a loop over one.
    fn pass_turns(&mut self, many: usize)
        requires low { 0 < self.old.depth }
        requires high { self.old.depth ≤ 8 }
        requires few { many ≤ 56 }
        requires room { self.old.count + many < 2 ^ 64 }
        requires more { many ≤ (inner_loop self.old).turns }
        ensures passed { self.new ≡ after_bytes self.old many }
        ensures wide { length self.old.loops ≡ 8 }
    {
        self.count += many;
        self.phase = (self.phase % 8 + many as u32) % 8;
        self.loops[self.depth - 1].turns -= many as u64;
    }

    // How many bytes a loop over one byte can take from those of the fragment, with room for all on the tape.
    fn bytes_wanted(&self, tape: &[u64], used: usize) -> usize
        requires low { 0 < self.now.depth }
        requires high { self.now.depth ≤ 8 }
        requires inside { used ≤ 56 }
        requires count { self.now.count ≤ length tape.now }
        ensures inside { used + result ≤ 56 }
        ensures turns { result ≤ (inner_loop self.now).turns }
        ensures room { self.now.count + result ≤ length tape.now }
    {
        let there = (tape.len() - self.count).min(56 - used);
        self.turns_left().min(there as u64) as usize
    }

    // Takes the bytes of a loop over one byte, if all are right; where the next bytes are.
    fn take_bytes(
        &mut self,
        ops: &[Op],
        tape: &mut [u64],
        field: ByteField,
        buffer: &[u8; 64],
        used: usize,
    ) -> usize
        requires room { used < 56 }
        requires field { HasField ops.now self.old field }
        requires run { IsRunOf ops.now self.old field }
        requires stance { IsTaking ops.now self.old }
        requires count { self.old.count ≤ length tape.old }
        ensures fed { (before all : List ℕ) → IsFedBy ops.now before tape.old self.old all (bytes_left buffer.now used)
            → IsFedBy ops.now before tape.new self.new all (bytes_left buffer.now result) }
        ensures end { (used ≤ result) × (result ≤ 56) }
        ensures field { HasField ops.now self.new field }
        ensures run { IsRunOf ops.now self.new field }
        ensures kept { take self.old.count tape.new ≡ take self.old.count tape.old }
        ensures long { length tape.new ≡ length tape.old }
        ensures count { (self.old.count ≤ self.new.count) × (self.new.count ≤ length tape.new) }
        ensures pace { self.new.count + used ≤ self.old.count + result }
    {
        if field.width != 1 {
            return used;
        }
        let most = self.bytes_wanted(tape, used);
        let many = copy_bytes(tape, self.count, field, buffer, used, most);
        if many == 0 {
            return used;
        }
        self.pass_turns(many);
        used + many
    }

    // Takes the numbers of a loop over one number, as long as they are right and all their bytes are there; where the next
    // bytes are.
    fn take_run(
        &mut self,
        ops: &[Op],
        tape: &mut [u64],
        field: ByteField,
        buffer: &[u8; 64],
        used: usize,
    ) -> usize
        requires room { used < 56 }
        requires settled { IsAtField ops.now self.old }
        requires field { HasField ops.now self.old field }
        requires fed { (before all : List ℕ) × IsFedBy ops.now before tape.old self.old all (bytes_left buffer.now used) }
        requires tape { HasRoom ops.now self.old.count (56 - used) (length tape.old) }
        requires count { self.old.count ≤ length tape.old }
        ensures fed { (before all : List ℕ) → IsFedBy ops.now before tape.old self.old all (bytes_left buffer.now used)
            → IsFedBy ops.now before tape.new self.new all (bytes_left buffer.now result) }
        ensures end { (used ≤ result) × (result ≤ 56) }
        ensures settled { IsAtField ops.now self.new }
        ensures field { HasField ops.now self.new field }
        ensures kept { take self.old.count tape.new ≡ take self.old.count tape.old }
        ensures long { length tape.new ≡ length tape.old }
        ensures count { (self.old.count ≤ self.new.count) × (self.new.count ≤ length tape.new) }
        ensures pace { self.new.count + used ≤ self.old.count + result }
    {
        if !self.is_run(ops, field) {
            return used;
        }
        let start = self.take_bytes(ops, tape, field, buffer, used);
        self.take_turns(ops, tape, field, buffer, start)
    }

    // Takes those of a field's bytes that are there; where the next bytes are.
    #[inline(always)]
    pub(crate) fn take_field(
        &mut self,
        ops: &[Op],
        tape: &mut [u64],
        field: ByteField,
        buffer: &[u8; 64],
        used: usize,
    ) -> Result<usize, ByteKind>
        requires room { used < 56 }
        requires settled { IsAtField ops.now self.old }
        requires field { HasField ops.now self.old field }
        requires fed { (before all : List ℕ) × IsFedBy ops.now before tape.old self.old all (bytes_left buffer.now used) }
        requires tape { HasRoom ops.now self.old.count (56 - used) (length tape.old) }
        requires count { self.old.count ≤ length tape.old }
        ensures fed { IfOk result (λ end. (before all : List ℕ) → IsFedBy ops.now before tape.old self.old all (bytes_left buffer.now used)
            → IsFedBy ops.now before tape.new self.new all (bytes_left buffer.now end)) }
        ensures wrong { IfErr result (λ mark. (before all : List ℕ) → IsFedBy ops.now before tape.old self.old all (bytes_left buffer.now used)
            → LeavesPayloads (block_of ops.now) all mark) }
        ensures end { IfOk result (λ end. (used < end) × (end ≤ 56)) }
        ensures settled { IfOk result (λ end. IsAtField ops.now self.new) }
        ensures kept { take self.old.count tape.new ≡ take self.old.count tape.old }
        ensures long { length tape.new ≡ length tape.old }
        ensures count { (self.old.count ≤ self.new.count) × (self.new.count ≤ length tape.new) }
        ensures pace { IfOk result (λ end. self.new.count + used ≤ self.old.count + end) }
    {
        let (number, there) = self.grow(field, buffer, used);
        if number > field.last {
            return Err(field.mark);
        }
        if self.have + (there as u32) < field.width {
            self.value = number;
            self.have += there as u32;
            return Ok(used + there);
        }
        if number < field.least {
            return Err(field.mark);
        }
        self.tell(tape, field, number);
        self.step_over(ops, field, number);
        self.settle(ops);
        Ok(used + there)
    }

    // Takes the bytes of a field, behind those of the numbers before it in a loop over it alone; where the next bytes are.
    #[inline(always)]
    fn take_next(
        &mut self,
        ops: &[Op],
        tape: &mut [u64],
        field: ByteField,
        buffer: &[u8; 64],
        used: usize,
    ) -> Result<usize, ByteKind>
        requires room { used < 56 }
        requires settled { IsAtField ops.now self.old }
        requires field { HasField ops.now self.old field }
        requires fed { (before all : List ℕ) × IsFedBy ops.now before tape.old self.old all (bytes_left buffer.now used) }
        requires tape { HasRoom ops.now self.old.count (56 - used) (length tape.old) }
        requires count { self.old.count ≤ length tape.old }
        ensures fed { IfOk result (λ end. (before all : List ℕ) → IsFedBy ops.now before tape.old self.old all (bytes_left buffer.now used)
            → IsFedBy ops.now before tape.new self.new all (bytes_left buffer.now end)) }
        ensures wrong { IfErr result (λ mark. (before all : List ℕ) → IsFedBy ops.now before tape.old self.old all (bytes_left buffer.now used)
            → LeavesPayloads (block_of ops.now) all mark) }
        ensures end { IfOk result (λ end. (used < end) × (end ≤ 56)) }
        ensures settled { IfOk result (λ end. IsAtField ops.now self.new) }
        ensures kept { take self.old.count tape.new ≡ take self.old.count tape.old }
        ensures long { length tape.new ≡ length tape.old }
        ensures count { (self.old.count ≤ self.new.count) × (self.new.count ≤ length tape.new) }
        ensures pace { IfOk result (λ end. self.new.count + used ≤ self.old.count + end) }
    {
        let start = self.take_run(ops, tape, field, buffer, used);
        if start == 56 {
            return Ok(start);
        }
        self.take_fields(ops, tape, field, buffer, start)
    }

    // On to the next bytes, unless the next instruction has got some.
    #[inline(always)]
    fn resume(&mut self, ops: &[Op])
        requires { (taken bytes : List ℕ) × Stands ops.now taken self.old bytes }
        ensures settled { IsAtField ops.now self.new }
        ensures count { self.new.count ≡ self.old.count }
        ensures stands { (taken bytes : List ℕ) → Stands ops.now taken self.old bytes → Stands ops.now taken self.new bytes }
    {
        if self.have == 0 {
            self.settle(ops);
        }
    }

    /// Takes the bytes of a fragment's seven words. After an `Err` the run is of no more use. Takes no memory.
    pub(crate) fn take_words(
        &mut self,
        ops: &[Op],
        tape: &mut [u64],
        words: &[u64; 7],
    ) -> Result<Fed, ByteKind>
        requires code { IsCode receive ops.now (block_of ops.now) }
        requires stands { (before bytes : List ℕ) × Stands ops.now (before ++ take self.old.count tape.old) self.old bytes }
        requires count { self.old.count ≤ length tape.old }
        requires room { HasRoom ops.now self.old.count 56 (length tape.old) }
        ensures part { IfOk result (λ fed. fed ≡ part → TakesPart ops.now tape.old self.old words.now tape.new self.new) }
        ensures whole { IfOk result (λ fed. fed ≡ whole → TakesWhole ops.now tape.old self.old words.now (take self.new.count tape.new)) }
        ensures wrong { IfErr result (λ mark. TakesWrong ops.now tape.old self.old words.now mark) }
        ensures few { IfOk result (λ fed. self.new.count ≤ self.old.count + 56) }
        ensures kept { take self.old.count tape.new ≡ take self.old.count tape.old }
        ensures grows { self.old.count ≤ self.new.count }
        ensures within { self.new.count ≤ length tape.new }
        ensures long { length tape.new ≡ length tape.old }
    {
        let mut buffer = [0; 64];
        spread(&mut buffer, words);
        self.resume(ops);
        let mut used = self.take_numbers(ops, tape, &buffer, 0);
        while used < 56 {
            let Some(field) = self.field(ops) else {
                return end_of(&buffer, used);
            };
            used = self.take_next(ops, tape, field, &buffer, used)?;
        }
        match self.field(ops) {
            Some(_) => Ok(Fed::Part),
            None => Ok(Fed::Whole),
        }
    }
}
