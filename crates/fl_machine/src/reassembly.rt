//! A program's calls that are put together again from their fragments, one after another.

ghost use Rattle.std.specs.Prelude.{◌≡◌, ◌<◌, ◌≤◌, ◌++◌, ◌∷◌, [], length, Option, IsSome, Some, None, Ok, IfOk, IfSome};
ghost use Rattle.fl_value_data.specs.Value.{TheCall, call_of};
ghost use Rattle.fl_compile.specs.Programs.{program_of};
ghost use Rattle.fl_compile_tape.specs.Frags.{HasFrags};
ghost use Rattle.fl_machine.specs.Faults.{take_number};
ghost use Rattle.fl_machine.specs.Receiving.{HoldsParts, StandsIn, AddsUpTo};
ghost use Rattle.fl_machine.specs.Kept.{EndsCallIn};
ghost use Rattle.fl_machine.specs.declared.recv.PartialCall.{PartialCall};
ghost use Rattle.fl_machine.specs.Receiving.{After as after};
ghost use Rattle.fl_machine.specs.Reassembling.{TheReassembly, AreWhole, Takes, IsUnderWay, GoesOnFrom};
ghost use Rattle.fl_machine.specs.Reassembling.{new_reassembly, parts_under, reassembly_on};

use crate::intake::Fed;
use crate::recv::{
    PartialCall, TapedCall, begin, begin_alone, look_on, pass_text, whole, whole_number,
};
use fl_base::{FRAG_BYTES, Frag};
use fl_compact_calls::{CompactCall, NumberCall};
use fl_compile::Program;
use fl_compile_tape::{ReadingRoom, call_of_frags};
use fl_value_data::{Call, Value};
use fl_wire::WireFault;
use std::alloc::{AllocError, Global};
use std::mem;
use thiserror::Error;

/// What taking a fragment came to.
#[derive(Debug, Drop)]
pub enum Taken {
    /// Its call goes on in the next fragment.
    Part,
    /// It is the last of this call.
    Whole(CompactCall),
}

/// Why a fragment isn't taken.
#[derive(Clone, Copy, Debug, PartialEq, Eq, Drop, Error)]
pub enum TakeFault {
    /// It can't follow those before it.
    #[error("{0}")]
    Wire(WireFault),
    /// Memory ran out, over a fragment that is the last of its call (E99).
    #[error("out of memory")]
    Memory,
}

impl TakeFault {
    /// The fault's number, as answers show it.
    pub fn number(self) -> u8
        ensures number { result ≡ take_number self }
    {
        match self {
            TakeFault::Wire(fault) => fault.number(),
            TakeFault::Memory => 99,
        }
    }
}

// A program, and of its call under way what isn't in the room.
#[derive(Drop)]
pub(crate) struct Assembly {
    pub(crate) program: Program,
    pub(crate) begun: Option<PartialCall>,
}

// Whether the call that a fragment begins has at most eight arguments, for whose numbers `take_straight` has places, and may be all in
// that fragment: fewer than eight mostly are.
#[inline(always)]
pub(crate) fn has_few_args(program: &Program, frag: &Frag) -> bool {
    let plans = program.plans();
    let msg = frag.msg();
    match plans.interface.messages.get(usize::from(msg.0)) {
        Some(message) => match message.args.len() {
            8 => plans.greatest(msg) <= FRAG_BYTES,
            count => count < 8,
        },
        None => false,
    }
}

// A call that was read, in memory that was used before.
#[inline(always)]
fn told(alloc: Global, room: Option<Box<Call>>, call: Call) -> Result<Taken, TakeFault>
    ensures told { (s : TheReassembly) (f : Frag) → AreWhole s (s.parts ++ f ∷ []) (call_of call) → Takes s f result s }
{
    match CompactCall::keep_in(alloc, room, call) {
        Ok(call) => Ok(Taken::Whole(call)),
        Err(_) => Err(TakeFault::Memory),
    }
}

// The list of a call that was done with.
#[inline(always)]
fn list_of(alloc: Global, room: &mut Option<Box<Call>>) -> Vec<Value> {
    match room {
        None => Vec::new(alloc),
        Some(call) => mem::replace(&mut call.args, Vec::new(alloc)),
    }
}

// The call of one fragment, whose numbers are these. Out of line, so that a number that is told by itself has nothing of it.
#[inline(never)]
pub(crate) fn tell(
    alloc: Global,
    room: Option<Box<Call>>,
    program: &Program,
    ended: TapedCall,
    tape: &[u64],
    frag: &Frag,
) -> Result<Taken, TakeFault>
    requires stands { StandsIn (program_of program.now) tape.now (after ended) }
    requires adds { AddsUpTo (program_of program.now) [] frag.now tape.now (after ended) }
    ensures takes { Takes (new_reassembly program.now) frag.now result (new_reassembly program.now) }
{
    let _plan = program.plan();
    let mut room = room;
    let list = list_of(alloc, &mut room);
    match whole(alloc, list, program, ended, tape) {
        Ok(call) => told(alloc, room, call),
        Err(_) => Err(TakeFault::Memory),
    }
}

// The call of one fragment, where its one number is its argument's value.
#[inline(always)]
pub(crate) fn tell_number(
    program: &Program,
    spare: &mut Option<NumberCall>,
    ended: TapedCall,
    tape: &[u64],
    frag: &Frag,
) -> Option<Taken>
    requires stands { StandsIn (program_of program.now) tape.now (after ended) }
    requires adds { AddsUpTo (program_of program.now) [] frag.now tape.now (after ended) }
    ensures takes { IfSome result (λ taken. Takes (new_reassembly program.now) frag.now (Ok taken) (new_reassembly program.now)) }
{
    let _plan = program.plan();
    let Some(spare) = spare else {
        return None;
    };
    match whole_number(program, spare, ended, tape) {
        Some(call) => Some(Taken::Whole(call)),
        None => None,
    }
}

// The call that a fragment is, where it is to begin one and is all of one of one number, which is its argument's value.
#[inline(always)]
pub(crate) fn tell_alone(
    program: &Program,
    spare: &mut Option<NumberCall>,
    frag: &Frag,
) -> Option<Taken>
    ensures takes { IfSome result (λ taken. Takes (new_reassembly program.now) frag.now (Ok taken) (new_reassembly program.now)) }
{
    let Some((ended, number)) = begin_alone(program, frag) else {
        return None;
    };
    tell_number(program, spare, ended, &[number], frag)
}

// Keeps a fragment behind which a call goes on, in a room that has those before it.
#[inline(always)]
fn keep(
    program: &Program,
    begun: &PartialCall,
    room: &mut [Frag],
    frag: &Frag,
) -> Result<Taken, TakeFault>
    requires goes_on { (o : Option PartialCall)
        × GoesOnFrom (program_of program.now) room.old o frag.now begun.now }
    requires some { 0 < begun.now.fed }
    requires inside { begun.now.fed ≤ length room.old }
    ensures under_way { IsUnderWay (program_of program.now) room.new (Some begun.now) }
    ensures takes { (o : Option PartialCall) → GoesOnFrom (program_of program.now) room.old o frag.now begun.now
        → Takes (reassembly_on program.now room.old o) frag.now result
        (reassembly_on program.now room.new (Some begun.now)) }
{
    let _plan = program.plan();
    let last = begun.fed() - 1;
    room[last] = frag.bare();
    Ok(Taken::Part)
}

// The call whose fragments these are, by its message's prepared code.
#[inline(always)]
fn read(
    alloc: Global,
    list: Vec<Value>,
    program: &Program,
    frags: &[Frag],
    reading: &mut ReadingRoom,
) -> Result<Call, AllocError>
    requires whole { (call : TheCall) × HasFrags (program_of program.now) call.msg frags.now call }
    ensures call { IfOk result (λ call. (c : TheCall) → HasFrags (program_of program.now) c.msg frags.now c
        → call_of call ≡ c) }
{
    let Some(first) = frags.first() else {
        unreachable!();
    };
    let msg = first.msg();
    call_of_frags(alloc, list, program, msg, frags, reading)
}

// Takes the last fragment of the call under way.
#[inline(always)]
fn take_last(
    alloc: Global,
    program: &Program,
    begun: &PartialCall,
    room: &mut [Frag],
    reading: &mut ReadingRoom,
    spare: &mut Option<Box<Call>>,
    frag: &Frag,
) -> Result<Taken, TakeFault>
    requires under_way { IsUnderWay (program_of program.now) room.old (Some begun.now) }
    requires ends { EndsCallIn (program_of program.now) (parts_under room.old (Some begun.now)) frag.now }
    requires inside { begun.now.fed < length room.old }
    ensures under_way { IsUnderWay (program_of program.now) room.new (Some begun.now) }
    ensures takes { Takes (reassembly_on program.now room.old (Some begun.now)) frag.now result
        (reassembly_on program.now room.new (Some begun.now)) }
{
    let _plan = program.plan();
    let count = begun.fed();
    room[count] = frag.bare();
    let mut memory = mem::replace(spare, None);
    let list = list_of(alloc, &mut memory);
    match read(alloc, list, program, &room[..count + 1], reading) {
        Ok(call) => told(alloc, memory, call),
        Err(_) => Err(TakeFault::Memory),
    }
}

// Takes a fragment between two calls.
#[inline(always)]
fn take_begun(
    alloc: Global,
    program: &Program,
    under: &mut Option<PartialCall>,
    numbers: &mut [u64; 56],
    room: &mut [Frag],
    spare: &mut Option<Box<Call>>,
    frag: &Frag,
) -> Result<Taken, TakeFault>
    requires between { under.old ≡ None }
    requires holds { HoldsParts (program_of program.now).plan (program_of program.now).interface (length room.old) }
    ensures under_way { IsUnderWay (program_of program.now) room.new under.new }
    ensures takes { Takes (reassembly_on program.now room.old under.old) frag.now result (reassembly_on program.now room.new under.new) }
{
    let _plan = program.plan();
    let mut begun = PartialCall::new();
    match begin(program, &mut begun, numbers, frag) {
        Ok(Fed::Part) => {
            begun.forget();
            *under = Some(begun);
            keep(program, &begun, room, frag)
        }
        Ok(Fed::Whole) => tell(
            alloc,
            mem::replace(spare, None),
            program,
            begun.to_ended(),
            &*numbers,
            frag,
        ),
        Err(fault) => Err(TakeFault::Wire(fault)),
    }
}

// Takes a fragment of the call under way, where the call lies: behind its last fragment, or one at fault, it
// stands as it stood. Out of line, so that a fragment that is only kept has nothing of it.
#[inline(never)]
fn take_slowly(
    alloc: Global,
    program: &Program,
    begun: &mut PartialCall,
    numbers: &mut [u64; 56],
    room: &mut [Frag],
    reading: &mut ReadingRoom,
    spare: &mut Option<Box<Call>>,
    frag: &Frag,
) -> Result<Taken, TakeFault>
    requires under_way { IsUnderWay (program_of program.now) room.old (Some begun.old) }
    requires holds { HoldsParts (program_of program.now).plan (program_of program.now).interface
        (length room.old) }
    ensures under_way { IsUnderWay (program_of program.now) room.new (Some begun.new) }
    ensures takes { Takes (reassembly_on program.now room.old (Some begun.old)) frag.now result
        (reassembly_on program.now room.new (Some begun.new)) }
{
    let _plan = program.plan();
    let before = *begun;
    match look_on(program, begun, numbers, frag) {
        Ok(Fed::Part) => keep(program, begun, room, frag),
        Ok(Fed::Whole) => {
            *begun = before;
            take_last(alloc, program, begun, room, reading, spare, frag)
        }
        Err(fault) => {
            *begun = before;
            Err(TakeFault::Wire(fault))
        }
    }
}

// Takes a fragment of the call under way, where the call lies: one whose bytes are all of one text, which goes on, is only kept.
#[inline(always)]
fn take_under(
    alloc: Global,
    program: &Program,
    begun: &mut PartialCall,
    numbers: &mut [u64; 56],
    room: &mut [Frag],
    reading: &mut ReadingRoom,
    spare: &mut Option<Box<Call>>,
    frag: &Frag,
) -> Result<Taken, TakeFault>
    requires under_way { IsUnderWay (program_of program.now) room.old (Some begun.old) }
    requires holds { HoldsParts (program_of program.now).plan (program_of program.now).interface
        (length room.old) }
    ensures under_way { IsUnderWay (program_of program.now) room.new (Some begun.new) }
    ensures takes { Takes (reassembly_on program.now room.old (Some begun.old)) frag.now result
        (reassembly_on program.now room.new (Some begun.new)) }
{
    let _plan = program.plan();
    if pass_text(program, begun, frag) {
        return keep(program, begun, room, frag);
    }
    take_slowly(alloc, program, begun, numbers, room, reading, spare, frag)
}

// Takes a fragment of the call under way.
#[inline(always)]
fn take_next(
    alloc: Global,
    program: &Program,
    under: &mut Option<PartialCall>,
    numbers: &mut [u64; 56],
    room: &mut [Frag],
    reading: &mut ReadingRoom,
    spare: &mut Option<Box<Call>>,
    frag: &Frag,
) -> Result<Taken, TakeFault>
    requires some { IsSome under.old }
    requires under_way { IsUnderWay (program_of program.now) room.old under.old }
    requires holds { HoldsParts (program_of program.now).plan (program_of program.now).interface (length room.old) }
    ensures under_way { IsUnderWay (program_of program.now) room.new under.new }
    ensures takes { Takes (reassembly_on program.now room.old under.old) frag.now result (reassembly_on program.now room.new under.new) }
{
    let Some(begun) = under else {
        unreachable!();
    };
    take_under(alloc, program, begun, numbers, room, reading, spare, frag)
}

impl Assembly {
    // Takes a fragment, in the place's room. Its numbers are put where those of any fragment may lie, and a whole call is read where
    // any may be.
    #[inline(always)]
    pub(crate) fn take_on(
        &mut self,
        alloc: Global,
        numbers: &mut [u64; 56],
        room: &mut [Frag],
        reading: &mut ReadingRoom,
        spare: &mut Option<Box<Call>>,
        frag: &Frag,
    ) -> Result<Taken, TakeFault>
        requires under_way { IsUnderWay (program_of self.old.program) room.old self.old.begun }
        requires holds { HoldsParts (program_of self.old.program).plan (program_of self.old.program).interface (length room.old) }
        ensures program { self.new.program ≡ self.old.program }
        ensures under_way { IsUnderWay (program_of self.old.program) room.new self.new.begun }
        ensures takes { Takes (reassembly_on self.old.program room.old self.old.begun) frag.now result
            (reassembly_on self.old.program room.new self.new.begun) }
    {
        match self.begun {
            Some(_) => take_next(
                alloc,
                &self.program,
                &mut self.begun,
                numbers,
                room,
                reading,
                spare,
                frag,
            ),
            None => take_begun(
                alloc,
                &self.program,
                &mut self.begun,
                numbers,
                room,
                spare,
                frag,
            ),
        }
    }

    // Done with the call under way.
    #[inline(always)]
    pub(crate) fn finish(&mut self)
        ensures program { self.new.program ≡ self.old.program }
        ensures none { self.new.begun ≡ None }
    {
        // Most calls have one fragment, and were never under way: these needn't be cleared.
        if self.begun.is_some() {
            self.begun = None;
        }
    }
}
