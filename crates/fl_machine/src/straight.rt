//! Numbers that lie in one fragment, taken without what a run stores of numbers that were begun: those of
//! straight instructions one after another, and those of a loop over one number, whose place and count are kept
//! in locals meanwhile.

ghost use Rattle.std.specs.Prelude.{◌≡◌, ◌%◌, ◌+◌, ◌-◌, ◌<◌, ◌≤◌, ◌++◌, ◌∷◌, [], ◌^◌, ℕ, List, true, take, length};
ghost use Rattle.std.specs.Prelude.{slice_set, IfSome, IfNone, IfOk, IfErr, IsTrue};
ghost use Rattle.fl_stub.specs.declared.op.Column.TheVariants.{Receive as receive};
ghost use Rattle.fl_stub.specs.declared.op.Op.TheVariants.{Read as read_op, Done as done_op};
ghost use Rattle.fl_stub.specs.Structure.{IsCode};
ghost use Rattle.fl_stub.specs.Frames.{block_of};
ghost use Rattle.fl_stub.specs.Streams.{IsPayload, LeavesPayloads};
ghost use Rattle.fl_stub.specs.Rests.{told, is_taken, taken_field};
ghost use Rattle.fl_machine.specs.Taking.{words_bytes, bytes_left, field_view, IsFed, IsFedBy, IsAtField};
ghost use Rattle.fl_machine.specs.Taking.{HasField, HasRoom, IsRunOf, run_at};
ghost use Rattle.fl_machine.specs.Straight.{is_straight as is_straight_op, straight_behind, HasNumber};

use crate::cursor::is_op;
use crate::intake::{
    ByteField, RecvCursor, end_of, greatest, is_last, low_part, op_at, spread, word_at,
};
use fl_stub::{ByteKind, Op};

// Whether an instruction takes bytes wherever it stands, and one number or zeros by them.
#[inline(always)]
fn is_straight(op: Op) -> bool
    ensures straight { IsTrue result → is_straight_op op ≡ true }
{
    match op {
        Op::Read(_) | Op::ReadBool | Op::ReadEnum(_) | Op::ReadChar | Op::ReadText | Op::Skip(_) =>
            true,
        _ => false,
    }
}

// A field's number by its bytes from a place on, if all are there and it is right.
#[inline(always)]
fn number_at(field: ByteField, buffer: &[u8; 64], used: usize) -> Option<u64>
    requires inside { used ≤ 56 }
    requires narrow { field.width ≤ 8 }
    ensures { IfSome result (λ number. HasNumber field buffer.now used number) }
{
    let width = field.width as usize;
    if width > 56 - used {
        return None;
    }
    let number = low_part(word_at(buffer, used), width);
    if number < field.least || number > field.last {
        return None;
    }
    Some(number)
}

// Puts a field's number behind so many, if it is one of the call's; how many they are then, if there is room.
#[inline(always)]
fn put(places: &mut [u64; 8], count: usize, field: ByteField, number: u64) -> Option<usize>
    requires few { count ≤ 8 }
    ensures few { IfSome result (λ more. more ≤ 8) }
    ensures tape { IfSome result
        (λ more. take more places.new ≡ take count places.old ++ told field.told number) }
{
    if !field.told {
        return Some(count);
    }
    if count >= 8 {
        return None;
    }
    places[count] = number;
    Some(count + 1)
}

/// Takes the words of a call's only fragment: how many numbers they are, which are then the first of the
/// places. `None` for code with loops, for more than eight numbers, and where the words aren't all of a call.
/// Takes no memory.
#[inline(always)]
pub(crate) fn take_straight(ops: &[Op], places: &mut [u64; 8], words: &[u64; 7]) -> Option<usize>
    requires code { IsCode receive ops.now (block_of ops.now) }
    ensures few { IfSome result (λ count. count ≤ 8) }
    ensures whole { IfSome result
        (λ count. IsPayload (block_of ops.now) (words_bytes words.now) (take count places.new)) }
{
    let mut buffer = [0; 64];
    spread(&mut buffer, words);
    let mut place = 0;
    let mut count = 0;
    let mut used = 0;
    while place < ops.len() {
        let Some(op) = op_at(ops, place) else {
            return None;
        };
        if is_last(op) {
            return match end_of(&buffer, used) {
                Ok(_) => Some(count),
                Err(_) => None,
            };
        }
        if !is_straight(op) {
            return None;
        }
        let field = ByteField::of(op, 0);
        let Some(number) = number_at(field, &buffer, used) else {
            return None;
        };
        let Some(more) = put(places, count, field, number) else {
            return None;
        };
        count = more;
        used += field.width as usize;
        place += 1;
    }
    None
}

// The only word that isn't 0, the first, if no other is.
#[inline(always)]
fn first_alone(words: &[u64; 7]) -> Option<u64>
    ensures alone { IfSome result (λ number. words.now ≡ number ∷ 0 ∷ 0 ∷ 0 ∷ 0 ∷ 0 ∷ 0 ∷ []) }
{
    match *words {
        [number, 0, 0, 0, 0, 0, 0] => Some(number),
        _ => None,
    }
}

// The width of the number that code takes, if it takes one and nothing else.
#[inline(always)]
fn width_alone(ops: &[Op]) -> Option<u32>
    ensures alone { IfSome result (λ width. ops.now ≡ read_op width ∷ done_op ∷ []) }
{
    match ops {
        [Op::Read(width), Op::Done] => Some(*width),
        _ => None,
    }
}

/// The words of a call's only fragment as one number, where code takes one and nothing else. `None` for other code, and where the
/// words aren't all of a call. Takes no memory.
#[inline(always)]
pub(crate) fn take_alone(ops: &[Op], words: &[u64; 7]) -> Option<u64>
    requires code { IsCode receive ops.now (block_of ops.now) }
    ensures whole { IfSome result (λ number. IsPayload (block_of ops.now) (words_bytes words.now) (number ∷ [])) }
{
    let Some(width) = width_alone(ops) else {
        return None;
    };
    let Some(number) = first_alone(words) else {
        return None;
    };
    if number > greatest(width) {
        return None;
    }
    Some(number)
}

// What a straight instruction takes, and its number by the bytes from a place on, if all are there and it is
// right: a number of eight bytes, which may be any, is told before the others.
#[inline(always)]
fn straight_number(op: Op, buffer: &[u8; 64], used: usize) -> Option<(ByteField, u64)>
    requires inside { used ≤ 56 }
    requires taken { is_straight_op op ≡ true → is_taken op ≡ true }
    requires narrow { (f : ByteField) → is_straight_op op ≡ true
        → ((at : ℕ) → 0 % 8 ≡ at % 8 → field_view f ≡ taken_field op at) → f.width ≤ 8 }
    ensures straight { IfSome result (λ r. is_straight_op op ≡ true) }
    ensures field { IfSome result (λ r. (at : ℕ) → 0 % 8 ≡ at % 8 → field_view r.0 ≡ taken_field op at) }
    ensures number { IfSome result (λ r. HasNumber r.0 buffer.now used r.1) }
{
    if let Op::Read(8) = op {
        if used > 48 {
            return None;
        }
        return Some((ByteField::number(8, 0, u64::MAX), word_at(buffer, used)));
    }
    if let Op::Read(width) = op {
        if width as usize > 56 - used {
            return None;
        }
        let number = low_part(word_at(buffer, used), width as usize);
        return Some((ByteField::number(width, 0, greatest(width)), number));
    }
    if let Op::Skip(zeros) = op {
        if zeros as usize > 56 - used || low_part(word_at(buffer, used), zeros as usize) != 0 {
            return None;
        }
        return Some((ByteField::zeros(zeros), 0));
    }
    if !is_straight(op) {
        return None;
    }
    let field = ByteField::of(op, 0);
    let Some(number) = number_at(field, buffer, used) else {
        return None;
    };
    Some((field, number))
}

// Puts a field's number on a tape behind so many, if it is one of the call's; how many they are then, if
// there is room.
#[inline(always)]
fn put_on(tape: &mut [u64], count: usize, field: ByteField, number: u64) -> Option<usize>
    requires count { count ≤ length tape.old }
    ensures tape { IfSome result
        (λ more. take more tape.new ≡ take count tape.old ++ told field.told number) }
    ensures more { IfSome result (λ more. (count ≤ more) × (more ≤ count + 1) × (more ≤ length tape.new)) }
    ensures kept { take count tape.new ≡ take count tape.old }
    ensures long { length tape.new ≡ length tape.old }
    ensures none { IfNone result (tape.new ≡ tape.old) }
{
    if !field.told {
        return Some(count);
    }
    if count >= tape.len() {
        return None;
    }
    tape[count] = number;
    Some(count + 1)
}

// The next number of a loop over one number, if its turn isn't the last, all its bytes are there, and it is
// right.
#[inline(always)]
fn turn_number(field: ByteField, buffer: &[u8; 64], used: usize, left: u64) -> Option<u64>
    requires inside { used ≤ 56 }
    requires narrow { field.width ≤ 8 }
    ensures more { IfSome result (λ number. 0 < left) }
    ensures number { IfSome result (λ number. HasNumber field buffer.now used number) }
{
    if left == 0 {
        return None;
    }
    number_at(field, buffer, used)
}

// Puts a number on a tape, at a place that it has.
#[inline(always)]
fn put_at(tape: &mut [u64], count: usize, number: u64)
    requires { count < length tape.old }
    ensures { tape.new ≡ slice_set tape.old count number }
{
    tape[count] = number;
}

impl RecvCursor {
    // Where a loop over one number is left: with so many turns after this one, behind so many numbers, at
    // this place in the payload.
    #[inline(always)]
    fn leave_run(&mut self, left: u64, count: usize, phase: u32)
        requires low { 0 < self.old.depth }
        requires high { self.old.depth ≤ 8 }
        ensures { self.new ≡ run_at self.old left count phase }
    {
        self.loops[self.depth - 1].turns = left;
        self.count = count;
        self.phase = phase;
    }

    // Takes the numbers of a loop over one number, but that of its last turn, as long as they are right and
    // all their bytes are there; where the next bytes are.
    #[inline(always)]
    pub(crate) fn take_turns(
        &mut self,
        ops: &[Op],
        tape: &mut [u64],
        field: ByteField,
        buffer: &[u8; 64],
        used: usize,
    ) -> usize
        requires inside { used ≤ 56 }
        requires narrow { field.width ≤ 8 }
        requires field { HasField ops.now self.old field }
        requires run { IsRunOf ops.now self.old field }
        requires fed { (before all : List ℕ) × IsFedBy ops.now before tape.old self.old all (bytes_left buffer.now used) }
        requires tape { HasRoom ops.now self.old.count (56 - used) (length tape.old) }
        requires count { self.old.count ≤ length tape.old }
        ensures fed { (before all : List ℕ) → IsFedBy ops.now before tape.old self.old all (bytes_left buffer.now used)
            → IsFedBy ops.now before tape.new self.new all (bytes_left buffer.now result) }
        ensures end { (used ≤ result) × (result ≤ 56) }
        ensures settled { IsAtField ops.now self.new }
        ensures field { HasField ops.now self.new field }
        ensures kept { take self.old.count tape.new ≡ take self.old.count tape.old }
        ensures long { length tape.new ≡ length tape.old }
        ensures count { (self.old.count ≤ self.new.count) × (self.new.count ≤ length tape.new) }
        ensures pace { self.new.count + used ≤ self.old.count + result }
    {
        let mut left = self.turns_left();
        let mut count = self.count;
        let mut phase = self.phase;
        let mut end = used;
        while let Some(number) = turn_number(field, buffer, end, left) {
            put_at(tape, count, number);
            left -= 1;
            count += 1;
            phase = (phase % 8 + field.width) % 8;
            end += field.width as usize;
        }
        self.leave_run(left, count, phase);
        end
    }

    // Takes the number of an instruction, if it is straight, all its bytes are there, and it is right: how many
    // numbers there are then, and where the next bytes are. The run stands where it stood before so many
    // instructions, which were straight.
    #[inline(always)]
    fn take_number(
        &self,
        ops: &[Op],
        place: usize,
        tape: &mut [u64],
        count: usize,
        buffer: &[u8; 64],
        used: usize,
    ) -> Option<(usize, usize)>
        requires inside { used ≤ 56 }
        requires count { count ≤ length tape.old }
        requires fed { (before all : List ℕ) × (phase : ℕ)
            × IsFed ops.now (before ++ take count tape.old) (straight_behind self.now place count phase) all
            (bytes_left buffer.now used) }
        ensures fed { IfSome result (λ r. (before all : List ℕ) (phase : ℕ)
            → IsFed ops.now (before ++ take count tape.old) (straight_behind self.now place count phase) all
            (bytes_left buffer.now used)
            → IsFed ops.now (before ++ take r.0 tape.new)
            (straight_behind self.now (place + 1) r.0 ((phase % 8 + (r.1 - used)) % 8)) all
            (bytes_left buffer.now r.1)) }
        ensures end { IfSome result (λ r. (used < r.1) × (r.1 ≤ 56)) }
        ensures more { IfSome result (λ r. (count ≤ r.0) × (r.0 + used ≤ count + r.1)
            × (r.0 ≤ length tape.new)) }
        ensures place { IfSome result (λ r. place + 1 < 2 ^ 64) }
        ensures kept { take count tape.new ≡ take count tape.old }
        ensures long { length tape.new ≡ length tape.old }
        ensures none { IfNone result (tape.new ≡ tape.old) }
    {
        let Some(op) = op_at(ops, place) else {
            return None;
        };
        let Some((field, number)) = straight_number(op, buffer, used) else {
            return None;
        };
        let Some(more) = put_on(tape, count, field, number) else {
            return None;
        };
        Some((more, used + field.width as usize))
    }

    // Whether the innermost loop is over the next instruction alone.
    #[inline(always)]
    fn is_alone(&self, ops: &[Op]) -> bool
        requires { self.now.depth ≤ 8 }
    {
        if self.depth == 0 || self.place >= ops.len() {
            return false;
        }
        self.loops[self.depth - 1].start == self.place && is_op(ops, self.place + 1, Op::Back)
    }

    /// Takes numbers from a place of a fragment on, as long as instructions are straight, and all bytes are
    /// there and right; where the next bytes are. None in a loop over one number alone, which `take_run`
    /// takes.
    #[inline(always)]
    pub(crate) fn take_numbers(
        &mut self,
        ops: &[Op],
        tape: &mut [u64],
        buffer: &[u8; 64],
        used: usize,
    ) -> usize
        requires inside { used ≤ 56 }
        requires settled { IsAtField ops.now self.old }
        requires fed { (before all : List ℕ) × IsFedBy ops.now before tape.old self.old all (bytes_left buffer.now used) }
        requires count { self.old.count ≤ length tape.old }
        ensures fed { (before all : List ℕ) → IsFedBy ops.now before tape.old self.old all (bytes_left buffer.now used)
            → IsFedBy ops.now before tape.new self.new all (bytes_left buffer.now result) }
        ensures end { (used ≤ result) × (result ≤ 56) }
        ensures settled { IsAtField ops.now self.new }
        ensures kept { take self.old.count tape.new ≡ take self.old.count tape.old }
        ensures long { length tape.new ≡ length tape.old }
        ensures count { (self.old.count ≤ self.new.count) × (self.new.count ≤ length tape.new) }
        ensures pace { self.new.count + used ≤ self.old.count + result }
    {
        if self.have != 0 || self.is_alone(ops) {
            return used;
        }
        let mut place = self.place;
        let mut count = self.count;
        let mut end = used;
        while let Some((more, next)) = self.take_number(ops, place, tape, count, buffer, end) {
            place += 1;
            count = more;
            end = next;
        }
        self.place = place;
        self.count = count;
        self.phase = (self.phase % 8 + (end - used) as u32) % 8;
        self.value = 0;
        self.have = 0;
        self.settle(ops);
        end
    }

    // Takes those of a field's bytes that are there, and the straight numbers behind it; where the next bytes
    // are.
    #[inline(always)]
    pub(crate) fn take_fields(
        &mut self,
        ops: &[Op],
        tape: &mut [u64],
        field: ByteField,
        buffer: &[u8; 64],
        used: usize,
    ) -> Result<usize, ByteKind>
        requires room { used < 56 }
        requires settled { IsAtField ops.now self.old }
        requires field { HasField ops.now self.old field }
        requires fed { (before all : List ℕ) × IsFedBy ops.now before tape.old self.old all (bytes_left buffer.now used) }
        requires tape { HasRoom ops.now self.old.count (56 - used) (length tape.old) }
        requires count { self.old.count ≤ length tape.old }
        ensures fed { IfOk result (λ end. (before all : List ℕ)
            → IsFedBy ops.now before tape.old self.old all (bytes_left buffer.now used)
            → IsFedBy ops.now before tape.new self.new all (bytes_left buffer.now end)) }
        ensures wrong { IfErr result (λ mark. (before all : List ℕ)
            → IsFedBy ops.now before tape.old self.old all (bytes_left buffer.now used)
            → LeavesPayloads (block_of ops.now) all mark) }
        ensures end { IfOk result (λ end. (used < end) × (end ≤ 56)) }
        ensures settled { IfOk result (λ end. IsAtField ops.now self.new) }
        ensures kept { take self.old.count tape.new ≡ take self.old.count tape.old }
        ensures long { length tape.new ≡ length tape.old }
        ensures count { (self.old.count ≤ self.new.count) × (self.new.count ≤ length tape.new) }
        ensures pace { IfOk result (λ end. self.new.count + used ≤ self.old.count + end) }
    {
        match self.take_field(ops, tape, field, buffer, used) {
            Ok(end) => Ok(self.take_numbers(ops, tape, buffer, end)),
            Err(mark) => Err(mark),
        }
    }
}
