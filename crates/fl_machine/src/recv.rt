//! Runs of receive code.

ghost use Rattle.std.specs.Prelude.{◌≡◌, ◌≢◌, ◌==◌, ◌⊎◌, ◌+◌, ◌≤◌, ◌++◌, ◌∷◌, [], true, false, take, length, List, None, IfOk, IfErr, IfSome, IsTrue};
ghost use Rattle.fl_base.specs.Control.{message_of, control_word, body};
ghost use Rattle.fl_value_data.specs.Value.{call_of};
ghost use Rattle.fl_value_data.specs.Fits.{fits_of};
ghost use Rattle.fl_wire.specs.Reading.{Means, IsWrong};
ghost use Rattle.fl_wire.specs.Wrong.{header_fault};
ghost use Rattle.fl_compile.specs.Laws.{fault_of as fault_of_mark};
ghost use Rattle.fl_compile.specs.Programs.{program_of};
ghost use Rattle.fl_machine.specs.Receiving.{plan_in, interface_in, fed_by, AddsPart, AddsLast, numbers_in, IsRefused, Remembers};
ghost use Rattle.fl_machine.specs.Receiving.{undone, Undoes, Feeds, stored_of, receiving, HoldsTapes, IsBegun, IsStored};
ghost use Rattle.fl_machine.specs.Receiving.{parts_in, StandsIn, AddsUpTo, HasFaultIn, IsRefusedIn, HasPlaces, MeansWhole};
ghost use Rattle.fl_machine.specs.Receiving.{IsNew, ended_as, stand_after, stand_of, IsTapeOf};
ghost use Rattle.fl_machine.specs.Kept.{counting, IsKeptIn, GoesOn, Ends, IsFaulty, Refuses};
ghost use Rattle.fl_machine.specs.Receiving.{Inside as inside, After as after};

use crate::intake::{Fed, RecvCursor};
use crate::straight::{take_alone, take_straight};
use fl_base::{FRAG_BYTES, Frag, MsgNo};
use fl_compact_calls::{CompactCall, NumberCall, has_plain_number};
use fl_compile::{Program, law_tells_faults};
use fl_stub::ByteKind;
use fl_value_data::{Call, Value, unflatten_in};
use fl_wire::{WireFault, follow_fault, is_line, start_fault};
use std::alloc::{AllocError, Global};
use std::marker::Model;
use std::mem;

/// A call of which so many fragments were fed, or which is to begin.
#[derive(Clone, Copy)]
pub(crate) struct PartialCall {
    msg: MsgNo,
    fed: usize,
    pub(crate) intake: RecvCursor,
}

/// A call that is whole: its tape is the first so many numbers.
#[derive(Clone, Copy)]
pub(crate) struct TapedCall {
    msg: MsgNo,
    count: usize,
}

/// What the last fragment fed left.
#[derive(Clone, Copy)]
pub(crate) enum Phase {
    /// No fragment was fed yet.
    Idle,
    /// A call under way.
    Busy,
    /// A whole call.
    Done(TapedCall),
}

/// What stood before the last accepted feed.
#[derive(Clone, Copy)]
pub(crate) struct BeforeFeed {
    phase: Phase,
    // Whether that feed began a call: then the numbers of before are on the spare tape.
    began: bool,
}

// What a run stores beside its program.
#[derive(Drop)]
pub(crate) struct RecvState {
    // The numbers taken; those of before, where the last feed began a call; and a tape to begin the next call on, so that
    // a refused fragment harms neither. One of the three has room for each call's numbers, and the others for those of two
    // fragments, which are enough: a call that goes on behind its second goes on on the longest, where nothing is of use then.
    tape: Vec<u64>,
    spare: Vec<u64>,
    fresh: Vec<u64>,
    phase: Phase,
    // The call under way, where one is; that of before the last accepted feed; and a place to go on at, so that a refused
    // fragment harms neither. Each lies where it is, and their places are swapped: a call has eight loops, which are dear to
    // move about.
    now: Box<PartialCall>,
    last: Box<PartialCall>,
    next: Box<PartialCall>,
    before: Option<BeforeFeed>,
}

/// A run of receive code of a program: fragments are fed to it, which it takes as calls.
#[derive(Drop)]
pub struct RecvRun {
    program: Program,
    stored: RecvState,
}

impl Model for RecvRun {
    ghost use Rattle.fl_machine.specs.Receiving.{TheReceiving};
    ghost use Rattle.std.specs.Coded.{codes};
    ghost use Rattle.fl_compile.specs.contracts.program.Program.{the_row};

    ghost Value = { TheReceiving };

    ghost coded = { Prim.hlevel (codes, the_row.coded) };

    ghost use Rattle.fl_machine.specs.Runs.{receiving_of, IsReceiving};

    ghost view = { receiving_of };

    ghost invariant = { IsReceiving };
}

// The fault of a byte that can't stand where another stands.
#[inline(always)]
fn fault_of(mark: ByteKind) -> WireFault
    ensures fault { result ≡ fault_of_mark mark }
{
    match mark {
        ByteKind::Length => WireFault::TooLong,
        ByteKind::Number => WireFault::OutOfType,
        ByteKind::Zero => WireFault::NotZero,
    }
}

impl PartialCall {
    // How many fragments were fed.
    #[inline(always)]
    pub(crate) fn fed(&self) -> usize
        ensures fed { result ≡ self.now.fed }
    {
        self.fed
    }

    // Forgets the numbers taken, where the fragments are kept.
    #[inline(always)]
    pub(crate) fn forget(&mut self)
        ensures forgets { self.new ≡ counting 0 self.old }
    {
        self.intake.count = 0;
    }

    // A call that is to begin.
    #[inline(always)]
    pub(crate) fn new() -> PartialCall
        ensures new { IsNew result }
    {
        PartialCall {
            msg: MsgNo(0),
            fed: 0,
            intake: RecvCursor::new(),
        }
    }

    // Makes it one that is to begin.
    #[inline(always)]
    fn renew(&mut self)
        ensures new { IsNew self.new }
    {
        self.msg = MsgNo(0);
        self.fed = 0;
        self.intake.renew();
    }

    // The call as one that is whole.
    #[inline(always)]
    pub(crate) fn to_ended(&self) -> TapedCall
        ensures ended { result ≡ ended_as self.now }
    {
        TapedCall {
            msg: self.msg,
            count: self.intake.count(),
        }
    }

    // The phase of a run behind the last fragment of it, by what that came to.
    #[inline(always)]
    fn after(&self, fed: Fed) -> Phase
        ensures stand { stand_of result self.now ≡ stand_after self.now fed }
    {
        match fed {
            Fed::Part => Phase::Busy,
            Fed::Whole => Phase::Done(self.to_ended()),
        }
    }

    // Takes a fragment whose control word is right, where the call lies: so its loops aren't copied. After an `Err` it is of no more use.
    #[inline(always)]
    fn take(&mut self, program: &Program, tape: &mut [u64], frag: &Frag) -> Result<Fed, WireFault>
        requires begun { IsBegun (program_of program.now).plan (program_of program.now).interface tape.old self.old }
        requires room { HasPlaces (program_of program.now) self.old.intake.count (length tape.old) }
        requires header { header_fault (program_of program.now).interface (parts_in (program_of program.now) tape.old self.old) frag.now ≡ None }
        requires message { message_of frag.now.control ≡ self.old.msg.0 }
        requires control { body frag.now.control ≡ control_word (self.old.fed == 0) self.old.msg.0 0 }
        ensures stands { IfOk result (λ fed. StandsIn (program_of program.now) tape.new (stand_after self.new fed)) }
        ensures adds { IfOk result (λ fed.
            AddsUpTo (program_of program.now) (parts_in (program_of program.now) tape.old self.old) frag.now tape.new (stand_after self.new fed)) }
        ensures grows { IfOk result (λ fed. self.old.intake.count ≤ numbers_in (stand_after self.new fed)) }
        ensures few { IfOk result (λ fed. numbers_in (stand_after self.new fed) ≤ self.old.intake.count + 56) }
        ensures wrong { IfErr result (λ fault. HasFaultIn (program_of program.now) (parts_in (program_of program.now) tape.old self.old) frag.now fault) }
        ensures kept { take self.old.intake.count tape.new ≡ take self.old.intake.count tape.old }
        ensures long { length tape.new ≡ length tape.old }
    {
        law_tells_faults();
        is_line(frag);
        let Some(code) = program.receive_code(self.msg) else {
            unreachable!();
        };
        match self.intake.take_words(code.ops(), tape, &frag.words) {
            Ok(Fed::Part) => {
                self.fed += 1;
                Ok(Fed::Part)
            }
            Ok(Fed::Whole) => Ok(Fed::Whole),
            Err(mark) => Err(fault_of(mark)),
        }
    }

    // As `take`, but none of its numbers is kept: they are put where those of any fragment may lie.
    #[inline(always)]
    fn look(
        &mut self,
        program: &Program,
        numbers: &mut [u64; 56],
        frag: &Frag,
    ) -> Result<Fed, WireFault>
        requires kept { (parts : List Frag) × IsKeptIn (program_of program.now) parts self.old }
        requires header { (parts : List Frag) → IsKeptIn (program_of program.now) parts self.old
            → header_fault (program_of program.now).interface parts frag.now ≡ None }
        requires message { message_of frag.now.control ≡ self.old.msg.0 }
        requires control { body frag.now.control ≡ control_word (self.old.fed == 0) self.old.msg.0 0 }
        ensures part { IfOk result (λ fed. fed ≡ Fed.Part → GoesOn (program_of program.now) self.old frag.now self.new) }
        ensures whole { IfOk result (λ fed. fed ≡ Fed.Whole → Ends (program_of program.now) self.old frag.now) }
        ensures wrong { IfErr result (λ fault. IsFaulty (program_of program.now) self.old frag.now fault) }
    {
        law_tells_faults();
        is_line(frag);
        let Some(code) = program.receive_code(self.msg) else {
            unreachable!();
        };
        match self.intake.take_words(code.ops(), numbers, &frag.words) {
            Ok(Fed::Part) => {
                self.fed += 1;
                self.intake.count = 0;
                Ok(Fed::Part)
            }
            Ok(Fed::Whole) => Ok(Fed::Whole),
            Err(mark) => Err(fault_of(mark)),
        }
    }

    // As `look`, where the fragment's bytes are all of one text, which goes on; whether it is so. Else nothing changes.
    #[inline(always)]
    fn pass(&mut self, program: &Program, frag: &Frag) -> bool
        requires kept { (parts : List Frag) × IsKeptIn (program_of program.now) parts self.old }
        requires control { body frag.now.control ≡ control_word (self.old.fed == 0) self.old.msg.0 0 }
        ensures passes { IsTrue result → GoesOn (program_of program.now) self.old frag.now self.new }
        ensures stays { result ≡ false → self.new ≡ self.old }
    {
        is_line(frag);
        let Some(code) = program.receive_code(self.msg) else {
            unreachable!();
        };
        if !self.intake.pass_text(code.ops(), &frag.words) {
            return false;
        }
        self.fed += 1;
        true
    }
}

// Takes a fragment where a call is to begin: it is the first of this one.
#[inline(always)]
pub(crate) fn begin(
    program: &Program,
    begun: &mut PartialCall,
    tape: &mut [u64],
    frag: &Frag,
) -> Result<Fed, WireFault>
    requires new { IsNew begun.old }
    requires room { HasPlaces (program_of program.now) 0 (length tape.old) }
    ensures stands { IfOk result (λ fed. StandsIn (program_of program.now) tape.new (stand_after begun.new fed)) }
    ensures adds { IfOk result (λ fed. AddsUpTo (program_of program.now) [] frag.now tape.new (stand_after begun.new fed)) }
    ensures few { IfOk result (λ fed. numbers_in (stand_after begun.new fed) ≤ 56) }
    ensures wrong { IfErr result (λ fault. IsRefusedIn (program_of program.now) [] frag.now fault) }
    ensures long { length tape.new ≡ length tape.old }
{
    let interface = program.interface();
    if let Some(fault) = start_fault(interface, frag) {
        return Err(fault);
    }
    begun.msg = frag.msg();
    begun.fed = 0;
    begun.take(program, tape, frag)
}

// Takes a fragment where a call is to begin, if it is all of a call, which code without loops takes: the call's numbers are then
// the first of the places.
#[inline(always)]
pub(crate) fn begin_straight(
    program: &Program,
    places: &mut [u64; 8],
    frag: &Frag,
) -> Option<TapedCall>
    ensures stands { IfSome result (λ ended. StandsIn (program_of program.now) places.new (after ended)) }
    ensures adds { IfSome result (λ ended. AddsUpTo (program_of program.now) [] frag.now places.new (after ended)) }
{
    is_line(frag);
    let interface = program.interface();
    if let Some(_) = start_fault(interface, frag) {
        return None;
    }
    let msg = frag.msg();
    let Some(code) = program.receive_code(msg) else {
        return None;
    };
    let Some(count) = take_straight(code.ops(), places, &frag.words) else {
        return None;
    };
    Some(TapedCall { msg, count })
}

// Takes a fragment where a call is to begin, if it is all of a call of one number, which code takes that takes nothing else.
#[inline(always)]
pub(crate) fn begin_alone(program: &Program, frag: &Frag) -> Option<(TapedCall, u64)>
    ensures stands { IfSome result (λ r. StandsIn (program_of program.now) (r.1 ∷ []) (after r.0)) }
    ensures adds { IfSome result (λ r. AddsUpTo (program_of program.now) [] frag.now (r.1 ∷ []) (after r.0)) }
{
    is_line(frag);
    let interface = program.interface();
    if let Some(_) = start_fault(interface, frag) {
        return None;
    }
    let msg = frag.msg();
    let Some(code) = program.receive_code(msg) else {
        return None;
    };
    let Some(number) = take_alone(code.ops(), &frag.words) else {
        return None;
    };
    let ended = TapedCall { msg, count: 1 };
    Some((ended, number))
}

// Takes a fragment inside a call.
#[inline(always)]
pub(crate) fn go_on(
    program: &Program,
    begun: &mut PartialCall,
    tape: &mut [u64],
    frag: &Frag,
) -> Result<Fed, WireFault>
    requires begun { StandsIn (program_of program.now) tape.old (inside begun.old) }
    requires room { HasPlaces (program_of program.now) begun.old.intake.count (length tape.old) }
    ensures stands { IfOk result (λ fed. StandsIn (program_of program.now) tape.new (stand_after begun.new fed)) }
    ensures adds { IfOk result (λ fed.
        AddsUpTo (program_of program.now) (parts_in (program_of program.now) tape.old begun.old) frag.now tape.new (stand_after begun.new fed)) }
    ensures grows { IfOk result (λ fed. begun.old.intake.count ≤ numbers_in (stand_after begun.new fed)) }
    ensures wrong { IfErr result (λ fault. IsRefusedIn (program_of program.now) (parts_in (program_of program.now) tape.old begun.old) frag.now fault) }
    ensures kept { take begun.old.intake.count tape.new ≡ take begun.old.intake.count tape.old }
    ensures long { length tape.new ≡ length tape.old }
{
    let _interface = program.interface();
    if let Some(fault) = follow_fault(begun.msg, frag) {
        return Err(fault);
    }
    begun.take(program, tape, frag)
}

// As `go_on`, but none of the fragment's numbers is kept.
#[inline(always)]
pub(crate) fn look_on(
    program: &Program,
    begun: &mut PartialCall,
    numbers: &mut [u64; 56],
    frag: &Frag,
) -> Result<Fed, WireFault>
    requires kept { (parts : List Frag) × IsKeptIn (program_of program.now) parts begun.old }
    ensures part { IfOk result (λ fed. fed ≡ Fed.Part → GoesOn (program_of program.now) begun.old frag.now begun.new) }
    ensures whole { IfOk result (λ fed. fed ≡ Fed.Whole → Ends (program_of program.now) begun.old frag.now) }
    ensures wrong { IfErr result (λ fault. Refuses (program_of program.now) begun.old frag.now fault) }
{
    let _interface = program.interface();
    let msg = begun.msg;
    if let Some(fault) = follow_fault(msg, frag) {
        return Err(fault);
    }
    begun.look(program, numbers, frag)
}

// As `look_on`, where the fragment's bytes are all of one text, which goes on; whether it is so. Else nothing changes.
#[inline(always)]
pub(crate) fn pass_text(program: &Program, begun: &mut PartialCall, frag: &Frag) -> bool
    requires kept { (parts : List Frag) × IsKeptIn (program_of program.now) parts begun.old }
    ensures passes { IsTrue result → GoesOn (program_of program.now) begun.old frag.now begun.new }
    ensures stays { result ≡ false → begun.new ≡ begun.old }
{
    let _interface = program.interface();
    let msg = begun.msg;
    if let Some(_) = follow_fault(msg, frag) {
        return false;
    }
    begun.pass(program, frag)
}

// The call of a whole tape. In line, so that the call isn't read back just after its parts were stored.
#[inline(always)]
pub(crate) fn whole(
    alloc: Global,
    room: Vec<Value>,
    program: &Program,
    ended: TapedCall,
    tape: &[u64],
) -> Result<Call, AllocError>
    requires ended { StandsIn (program_of program.now) tape.now (after ended) }
    ensures fits { IfOk result (λ call. fits_of (program_of program.now).interface (call_of call) ≡ true) }
    ensures means { IfOk result (λ call. MeansWhole (program_of program.now) tape.now ended (call_of call)) }
{
    let tape = &tape[..ended.count];
    let interface = program.interface();
    match unflatten_in(alloc, room, ended.msg, tape, interface, program.plan())? {
        Some(call) => Ok(call),
        None => unreachable!(),
    }
}

// The call of a whole tape, where its message has one argument alone, which is the number on the tape.
#[inline(always)]
pub(crate) fn whole_number(
    program: &Program,
    spare: &mut NumberCall,
    ended: TapedCall,
    tape: &[u64],
) -> Option<CompactCall>
    requires ended { StandsIn (program_of program.now) tape.now (after ended) }
    ensures fits { IfSome result (λ call. fits_of (program_of program.now).interface (call_of call) ≡ true) }
    ensures means { IfSome result (λ call. MeansWhole (program_of program.now) tape.now ended (call_of call)) }
{
    let _plan = program.plan();
    if !has_plain_number(program.interface(), ended.msg) {
        return None;
    }
    let Some(number) = tape.first() else {
        return None;
    };
    Some(CompactCall::of_number(spare, ended.msg, *number))
}

// The numbers of a call that is whole.
fn whole_tape(ended: TapedCall, tape: &[u64]) -> &[u64]
    requires within { ended.count ≤ length tape.now }
    ensures tape { result.now ≡ take ended.count tape.now }
{
    &tape[..ended.count]
}

// Puts numbers at the beginning of a tape.
fn put_first(numbers: &[u64], tape: &mut [u64])
    requires room { length numbers.now ≤ length tape.old }
    ensures first { take (length numbers.now) tape.new ≡ numbers.now }
    ensures long { length tape.new ≡ length tape.old }
{
    tape[..numbers.len()].copy_from_slice(numbers);
}

// Goes over to another tape, if that is longer, with the first so many numbers.
fn go_over(tape: &mut Vec<u64>, other: &mut Vec<u64>, count: usize)
    requires inside { count ≤ length tape.old.items }
    ensures kept { take count tape.new.items ≡ take count tape.old.items }
    ensures longest { (length tape.old.items ≤ length tape.new.items) × (length other.old.items ≤ length tape.new.items) }
    ensures other { (length other.new.items ≡ length other.old.items) ⊎ (length other.new.items ≡ length tape.old.items) }
{
    if other.len() <= tape.len() {
        return;
    }
    put_first(&tape[..count], other);
    mem::swap(tape, other);
}

impl RecvState {
    // Takes a fragment where a call is to begin, on the fresh tape.
    fn feed_first(&mut self, program: &Program, frag: &Frag) -> Result<Fed, WireFault>
        requires stored { IsStored (program_of program.now).plan (program_of program.now).interface (stored_of self.old) }
        requires outside { (receiving program.now (stored_of self.old)).parts ≡ [] }
        ensures stored { IsStored (program_of program.now).plan (program_of program.now).interface (stored_of self.new) }
        ensures feeds { Feeds (receiving program.now (stored_of self.old)) frag.now result (receiving program.now (stored_of self.new)) }
    {
        self.next.renew();
        match begin(program, &mut self.next, &mut self.fresh, frag) {
            Err(fault) => Err(fault),
            Ok(fed) => {
                mem::swap(&mut self.tape, &mut self.spare);
                mem::swap(&mut self.tape, &mut self.fresh);
                mem::swap(&mut self.last, &mut self.next);
                mem::swap(&mut self.now, &mut self.last);
                self.before = Some(BeforeFeed {
                    phase: self.phase,
                    began: true,
                });
                self.phase = self.now.after(fed);
                Ok(fed)
            }
        }
    }

    // Makes room for the numbers of one fragment more of the call under way. Behind a call's second fragment nothing of the call
    // before it is of use, so all tapes are free but its own.
    fn make_room(&mut self, program: &Program)
        requires stored { IsStored (program_of program.now).plan (program_of program.now).interface (stored_of self.old) }
        requires inside { (stored_of self.old).stand ≡ inside self.old.now.value }
        ensures stored { IsStored (program_of program.now).plan (program_of program.now).interface (stored_of self.new) }
        ensures inside { (stored_of self.new).stand ≡ inside self.new.now.value }
        ensures room { HasPlaces (program_of program.now) self.new.now.value.intake.count (length self.new.tape.items) }
        ensures same { receiving program.now (stored_of self.new) ≡ receiving program.now (stored_of self.old) }
    {
        let _plan = program.plan();
        let count = self.now.intake.count();
        if count <= FRAG_BYTES {
            return;
        }
        go_over(&mut self.tape, &mut self.spare, count);
        go_over(&mut self.tape, &mut self.fresh, count);
    }

    // Takes a fragment inside a call, with room for its numbers.
    fn feed_on(&mut self, program: &Program, frag: &Frag) -> Result<Fed, WireFault>
        requires stored { IsStored (program_of program.now).plan (program_of program.now).interface (stored_of self.old) }
        requires inside { (stored_of self.old).stand ≡ inside self.old.now.value }
        requires room { HasPlaces (program_of program.now) self.old.now.value.intake.count (length self.old.tape.items) }
        ensures stored { IsStored (program_of program.now).plan (program_of program.now).interface (stored_of self.new) }
        ensures feeds { Feeds (receiving program.now (stored_of self.old)) frag.now result (receiving program.now (stored_of self.new)) }
    {
        *self.next = *self.now;
        match go_on(program, &mut self.next, &mut self.tape, frag) {
            Err(fault) => Err(fault),
            Ok(fed) => {
                mem::swap(&mut self.last, &mut self.next);
                mem::swap(&mut self.now, &mut self.last);
                self.before = Some(BeforeFeed {
                    phase: self.phase,
                    began: false,
                });
                self.phase = self.now.after(fed);
                Ok(fed)
            }
        }
    }

    // Takes a fragment inside a call.
    fn feed_inside(&mut self, program: &Program, frag: &Frag) -> Result<Fed, WireFault>
        requires stored { IsStored (program_of program.now).plan (program_of program.now).interface (stored_of self.old) }
        requires inside { (stored_of self.old).stand ≡ inside self.old.now.value }
        ensures stored { IsStored (program_of program.now).plan (program_of program.now).interface (stored_of self.new) }
        ensures feeds { Feeds (receiving program.now (stored_of self.old)) frag.now result (receiving program.now (stored_of self.new)) }
    {
        self.make_room(program);
        self.feed_on(program, frag)
    }

    // Takes a fragment.
    fn feed(&mut self, program: &Program, frag: &Frag) -> Result<Fed, WireFault>
        requires stored { IsStored (program_of program.now).plan (program_of program.now).interface (stored_of self.old) }
        ensures stored { IsStored (program_of program.now).plan (program_of program.now).interface (stored_of self.new) }
        ensures feeds { Feeds (receiving program.now (stored_of self.old)) frag.now result (receiving program.now (stored_of self.new)) }
    {
        match self.phase {
            Phase::Busy => self.feed_inside(program, frag),
            _ => self.feed_first(program, frag),
        }
    }

    // Back to before the last accepted feed.
    fn undo(&mut self, program: &Program)
        requires stored { IsStored (program_of program.now).plan (program_of program.now).interface (stored_of self.old) }
        ensures stored { IsStored (program_of program.now).plan (program_of program.now).interface (stored_of self.new) }
        ensures undone { Undoes (receiving program.now (stored_of self.old)) (receiving program.now (stored_of self.new)) }
    {
        let _plan = program.plan();
        let Some(before) = self.before else {
            return;
        };
        if before.began {
            mem::swap(&mut self.tape, &mut self.spare);
        }
        mem::swap(&mut self.now, &mut self.last);
        self.phase = before.phase;
        self.before = None;
    }
}

impl RecvRun {
    /// A run of a program that nothing was fed to yet. `capacity` is how many numbers a tape may have: at least as many as
    /// the tape of any call (`fl_layout` tells the greatest of each message).
    ///
    /// # Errors
    /// Out of memory (E99), and nothing else. No other call but [`RecvRun::whole_call`] takes memory.
    pub fn new(alloc: Global, program: Program, capacity: usize) -> Result<RecvRun, AllocError>
        requires room { HoldsTapes (program_of program).plan (program_of program).interface capacity }
        ensures made { IfOk result (λ r. r ≡ record { program = program; parts = []; whole = []; before = None }) }
    {
        let short = capacity.min(2 * FRAG_BYTES);
        let tape = vec![in alloc; 0; short]?;
        let spare = vec![in alloc; 0; short]?;
        let fresh = vec![in alloc; 0; capacity]?;
        Ok(RecvRun {
            program,
            stored: RecvState {
                tape,
                spare,
                fresh,
                phase: Phase::Idle,
                now: Box::new(alloc, PartialCall::new())?,
                last: Box::new(alloc, PartialCall::new())?,
                next: Box::new(alloc, PartialCall::new())?,
                before: None,
            },
        })
    }

    /// Takes a fragment, whatever its epoch and the count that it tells: `Part` where its call goes on, `Whole` where it is
    /// the last of its call. A refused fragment changes nothing. Takes no memory.
    ///
    /// # Errors
    /// The first fault of a fragment that can't follow those since the last whole call: in its control word a reserved bit
    /// or a circuit that isn't 0 (E63), no first fragment where one is due (E60), a first fragment inside a call (E61), a
    /// message that the interface doesn't have or that changes (E62); else its first byte at fault, where nothing stands
    /// (E63), in a number, an enumerator or a string (E65) or in a length (E66).
    pub fn feed(&mut self, frag: &Frag) -> Result<Fed, WireFault>
        ensures feeds { Feeds self.old frag.now result self.new }
        ensures part { IfOk result (λ fed. fed ≡ Fed.Part → AddsPart (plan_in self.old) (interface_in self.old) self.old.parts frag.now (fed_by self.new)) }
        ensures whole { IfOk result (λ fed. fed ≡ Fed.Whole → AddsLast (plan_in self.old) (interface_in self.old) self.old.parts frag.now (fed_by self.new)) }
        ensures right { IfOk result (λ fed. IsWrong (plan_in self.old) (interface_in self.old) (self.old.parts ++ frag.now ∷ []) → ⊥) }
        ensures before { IfOk result (λ fed. Remembers self.old self.new) }
        ensures wrong { IfErr result (λ fault. IsRefused (plan_in self.old) (interface_in self.old) self.old.parts frag.now fault) }
        ensures same { IfErr result (λ fault. self.new ≡ self.old) }
    {
        self.stored.feed(&self.program, frag)
    }

    /// The program whose calls the run takes.
    pub fn program(&self) -> &Program
        ensures program { result.now ≡ self.now.program }
    {
        &self.program
    }

    /// The call that the last fragment fed made whole, also after an [`RecvRun::undo`] that leads back there.
    ///
    /// # Errors
    /// Out of memory (E99), and nothing else: that the call is whole is asked, so nothing is refused before memory is taken, and
    /// nothing changes.
    pub fn whole_call(&self, alloc: Global) -> Result<Call, AllocError>
        requires whole { self.now.whole ≢ [] }
        ensures fits { IfOk result (λ call. fits_of (interface_in self.now) (call_of call) ≡ true) }
        ensures means { IfOk result (λ call. Means (plan_in self.now) (interface_in self.now) self.now.whole (call_of call) 0) }
    {
        let Phase::Done(ended) = self.stored.phase else {
            unreachable!();
        };
        whole(
            alloc,
            Vec::new(alloc),
            &self.program,
            ended,
            &self.stored.tape,
        )
    }

    /// The tape of the call that the last fragment fed made whole: its numbers in the plan's order. Takes no memory.
    pub fn whole_tape(&self) -> &[u64]
        requires whole { self.now.whole ≢ [] }
        ensures tape { IsTapeOf (plan_in self.now) (interface_in self.now) self.now.whole result.now }
    {
        let Phase::Done(ended) = self.stored.phase else {
            unreachable!();
        };
        whole_tape(ended, &self.stored.tape)
    }

    /// Back to before the last accepted feed; nothing where none was since [`RecvRun::new`] or the last `undo`. Takes no
    /// memory.
    pub fn undo(&mut self)
        ensures undone { self.new ≡ undone self.old self.old.before }
    {
        self.stored.undo(&self.program);
    }
}
