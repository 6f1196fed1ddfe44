//! An end that owns its side and its place, and its operations.

ghost use Rattle.std.specs.Prelude.{◌≡◌, List, ℕ, None, IfOk};
ghost use Rattle.fl_endpoint.specs.Stored.{IsOwn};
ghost use Rattle.fl_c_operations.specs.Transmissions.{IsFragFrom, first_written};
ghost use Rattle.fl_c_operations.specs.Sides.{Tells};
ghost use Rattle.fl_c_operations.specs.View.{IsNewEnd};
ghost use Rattle.fl_c_operations.specs.Numbers.{answer_of};
ghost use Rattle.fl_c_operations.specs.Ends.{called_as, written_as, unwritten_as, sent_as, sent_one, AnswersSend, AnswersTakeCall};
ghost use Rattle.fl_c_operations.specs.Ends.{CallsBy, WritesBy, ReceivesNext, ReceivesBy, ReadsBy, RulesBy, IsBusyBy, UsesEnd};

use crate::answer::{Answered, Outcome, UseFault};
use crate::calls::read_numbers;
use crate::glance::{Glance, take_glance};
use crate::looked::LookedSide;
use crate::operation::Operation;
use crate::side::tell;
use crate::transmitting::{Sent, TransmittingEnd};
use crate::unread::{UnreadCall, put_short, read_unread, stays};
use crate::untaken::{receive_untaken, take_untaken};
use fl_base::{Circuit, Frag, MsgNo};
use fl_compile::Program;
use fl_endpoint::{End, EndFault, WriteAnswer};
use fl_machine::Reassemblies;
use fl_ring::SharedSide;
use fl_wire::law_one_reading;
use std::alloc::{AllocError, Global};
use std::marker::Model;

/// An end with its side, its place, and the call that it handled last, until that is read.
#[derive(Drop)]
pub struct HeldEnd {
    alloc: Global,
    end: TransmittingEnd,
    side: LookedSide,
    calls: Reassemblies,
    handled: Option<UnreadCall>,
    // where true, nothing was taken of a call that isn't whole; it may be false there too
    between: bool,
    // memory that is used again
    spare: Vec<u64>,
}

impl Model for HeldEnd {
    ghost use Rattle.std.specs.Coded.{codes};
    ghost use Rattle.fl_compile.specs.contracts.program.Program.{the_row as program_row};
    ghost use Rattle.fl_c_operations.specs.View.{TheHeld, handled_by, IsHeld};

    ghost Value = { TheHeld };

    ghost coded = { Prim.hlevel (codes, program_row.coded) };

    ghost view = { λ h. record { end = h.end; side = h.side.side; calls = h.calls; handled = handled_by h.end.program h.handled } };

    ghost invariant = { λ h. IsHeld h.end h.calls h.between };
}

// What a call comes to, as it is told.
#[inline]
fn called(answer: Result<(), EndFault>) -> Result<Outcome, UseFault>
    ensures told { result ≡ called_as answer }
{
    match answer {
        Ok(()) => Ok(Outcome::Accepted),
        Err(fault) => Err(UseFault::End(fault)),
    }
}

// A fault of a write behind a call that was accepted.
fn unwritten(fault: UseFault) -> UseFault
    ensures told { result ≡ unwritten_as fault }
{
    match fault {
        UseFault::End(fault) => UseFault::Unwritten(fault),
        _ => fault,
    }
}

// What a write comes to behind a call that was accepted.
fn sent(written: Result<Outcome, UseFault>) -> Result<Outcome, UseFault>
    ensures told { result ≡ sent_as written }
{
    match written {
        Ok(outcome) => Ok(outcome),
        Err(fault) => Err(unwritten(fault)),
    }
}

// The same of a call's only fragment.
#[inline(always)]
fn sent_first(sent: Sent) -> Result<Outcome, UseFault>
    ensures told { result ≡ sent_as (written_as (first_written sent)) }
{
    match sent {
        Sent::PutNow => Ok(Outcome::Wrote { left: 0 }),
        Sent::NoRoom => Ok(Outcome::NoRoom),
        Sent::RingSpent => Err(UseFault::Unwritten(EndFault::Spent)),
    }
}

// What C is answered of a call of one fragment that is made and put: each way out by itself.
#[inline(always)]
fn sent_one(answer: Result<Sent, EndFault>) -> Answered
    ensures told { result ≡ answer_of (sent_one answer) }
{
    match answer {
        Err(fault) => Answered::of(Err(UseFault::End(fault))),
        Ok(sent) => Answered::of(sent_first(sent)),
    }
}

impl HeldEnd {
    /// A new end of a program over a side. Beside what `End` and its place take it keeps a codec for each message, some 136 bytes
    /// each.
    ///
    /// # Errors
    /// Out of memory (E99).
    pub fn new(alloc: Global, program: Program, side: SharedSide) -> Result<HeldEnd, AllocError>
        ensures made { IfOk result (λ h. IsNewEnd program side h) }
    {
        let end = End::new(alloc, program, Circuit(0))?;
        let mut calls = Reassemblies::new(alloc);
        end.add_place(&mut calls)?;
        let transmitting = TransmittingEnd::new(alloc, end)?;
        Ok(HeldEnd {
            alloc,
            end: transmitting,
            side: LookedSide::new(side),
            calls,
            handled: None,
            between: true,
            spare: Vec::new(alloc),
        })
    }

    /// Makes the call of these numbers: its message's, and its tape.
    ///
    /// # Errors
    /// There is no number (103); no such message (41); the tape is that of no fitting call (42); and those of
    /// `End::call`, of which out of memory (99) is told last.
    #[inline(never)]
    pub fn call(&mut self, numbers: &[u64]) -> Result<Outcome, UseFault>
        ensures calls { CallsBy self.old numbers.now result self.new }
    {
        match self.end.short_frag(numbers) {
            Some(frag) => called(self.end.call_frag(frag)),
            None => self.call_by_stub(numbers),
        }
    }

    // Makes the call of these numbers, of which its message's codec makes no fragment.
    #[inline(never)]
    fn call_by_stub(&mut self, numbers: &[u64]) -> Result<Outcome, UseFault>
        ensures calls { CallsBy self.old numbers.now result self.new }
    {
        match self.end.taped_frag(numbers) {
            Some(frag) => called(self.end.call_frag(frag)),
            None => self.call_by_values(numbers),
        }
    }

    // Makes the call of these numbers, by its values.
    #[inline(never)]
    fn call_by_values(&mut self, numbers: &[u64]) -> Result<Outcome, UseFault>
        ensures calls { CallsBy self.old numbers.now result self.new }
    {
        let read = match read_numbers(self.alloc, self.end.program(), numbers) {
            Ok(read) => read,
            Err(fault) => return Err(fault),
        };
        let Some(call) = read else {
            return called(Err(self.end.without_memory()));
        };
        called(self.end.call(&call, &mut self.spare))
    }

    /// Puts the next fragment of the call in transmission.
    ///
    /// # Errors
    /// Those of `End::write`.
    #[inline(never)]
    pub fn write(&mut self) -> Result<Outcome, UseFault>
        ensures writes { WritesBy self.old result self.new }
    {
        self.side.forget();
        match self.end.write(&mut self.side.side) {
            Ok(WriteAnswer::Written { number, count }) => {
                let left = (count - number) as u64;
                Ok(Outcome::Wrote { left })
            }
            Ok(WriteAnswer::Full) => Ok(Outcome::NoRoom),
            Ok(WriteAnswer::Nothing) => Ok(Outcome::Idle),
            Err(fault) => Err(UseFault::End(fault)),
        }
    }

    /// Makes the call of these numbers, and puts its first fragment: what C is answered.
    ///
    /// # Errors
    /// Those of [`HeldEnd::call`]; where the call is accepted, that its first fragment isn't written, for a fault of
    /// [`HeldEnd::write`].
    #[inline(always)]
    pub fn send(&mut self, numbers: &[u64]) -> Answered
        ensures sends { AnswersSend self.old numbers.now result self.new }
    {
        match self.end.short_frag(numbers) {
            Some(frag) => self.send_frag(frag),
            None => self.send_by_stub(numbers),
        }
    }

    // Makes a call of one fragment, which this is, and puts it.
    #[inline(always)]
    fn send_frag(&mut self, frag: Frag) -> Answered
        requires own { IsOwn frag }
        ensures sends { (numbers : List ℕ) → IsFragFrom self.old.end numbers frag → AnswersSend self.old numbers result self.new }
    {
        sent_one(self.end.send_frag(frag, &mut self.side))
    }

    // Makes the call of these numbers, of which its message's codec makes no fragment, and puts its first fragment.
    #[inline(never)]
    fn send_by_stub(&mut self, numbers: &[u64]) -> Answered
        ensures sends { AnswersSend self.old numbers.now result self.new }
    {
        match self.call_by_stub(numbers) {
            Err(fault) => Answered::of(Err(fault)),
            Ok(_) => Answered::of(sent(self.write())),
        }
    }

    /// Takes what stands first. A call that becomes whole stays until it is read.
    ///
    /// # Errors
    /// A call is to be read first (105); those of `End::receive`.
    #[inline(never)]
    pub fn receive(&mut self) -> Result<Outcome, UseFault>
        ensures receives { ReceivesBy self.old result self.new }
    {
        match &self.handled {
            Some(_) => Err(UseFault::Unread),
            None => self.receive_next(),
        }
    }

    // Takes what stands first, where no call is unread.
    #[inline(always)]
    fn receive_next(&mut self) -> Result<Outcome, UseFault>
        requires read { self.old.handled ≡ None }
        ensures receives { ReceivesNext self.old result self.new }
    {
        self.side.forget();
        match take_glance(&self.end, &mut self.side, self.between) {
            Glance::Nothing => Ok(Outcome::Nothing),
            Glance::Acknowledgement => Ok(Outcome::Acknowledgement),
            Glance::Short(call) => {
                law_one_reading();
                self.handled = Some(UnreadCall::Short(call));
                Ok(Outcome::Handled)
            }
            Glance::Untaken => receive_untaken(
                &mut self.end,
                &mut self.side,
                &mut self.calls,
                &mut self.handled,
                &mut self.between,
            ),
        }
    }

    /// Takes what stands first, and reads the call that it makes whole: its message's number and its tape stand first in the room
    /// then. What C is answered.
    ///
    /// # Errors
    /// Those of [`HeldEnd::receive`]; where a call was handled, that it stays to be read, for a fault of [`HeldEnd::read`].
    #[inline(always)]
    pub fn take_call(&mut self, room: &mut [u64]) -> Answered
        ensures takes { AnswersTakeCall self.old room.old result self.new room.new }
    {
        match &self.handled {
            Some(_) => Answered::of(Err(UseFault::Unread)),
            None => self.take_next(room),
        }
    }

    // Takes what stands first, and reads the call that it makes whole, where no call is unread. Each way out tells what it came to by
    // itself.
    #[inline(always)]
    fn take_next(&mut self, room: &mut [u64]) -> Answered
        requires read { self.old.handled ≡ None }
        ensures takes { AnswersTakeCall self.old room.old result self.new room.new }
    {
        self.side.forget();
        match take_glance(&self.end, &mut self.side, self.between) {
            Glance::Nothing => Answered::of(Ok(Outcome::Nothing)),
            Glance::Acknowledgement => Answered::of(Ok(Outcome::Acknowledgement)),
            Glance::Short(call) => {
                law_one_reading();
                match put_short(&call, room) {
                    Ok(count) => Answered::of(Ok(Outcome::CallTaken { count })),
                    Err(fault) => {
                        self.handled = Some(UnreadCall::Short(call));
                        Answered::of(Err(stays(fault)))
                    }
                }
            }
            Glance::Untaken => take_untaken(
                self.alloc,
                &mut self.end,
                &mut self.side,
                &mut self.calls,
                &mut self.handled,
                &mut self.between,
                &mut self.spare,
                room,
            ),
        }
    }

    /// Reads the call that was handled: its message's number and its tape stand first in the room then.
    ///
    /// # Errors
    /// There are too few numbers (103), and the answer tells how many are wanted; out of memory (99). The call
    /// stays then.
    #[inline(never)]
    pub fn read(&mut self, room: &mut [u64]) -> Result<Outcome, UseFault>
        ensures reads { ReadsBy self.old room.old result self.new room.new }
    {
        read_unread(
            self.alloc,
            self.end.program(),
            &mut self.handled,
            &mut self.spare,
            room,
        )
    }

    /// Sets a rule, by the numbers of the message and of the reply to it.
    ///
    /// # Errors
    /// There are other than two numbers (103); those of `End::reply_rule`.
    pub fn rule(&mut self, numbers: &[u64]) -> Result<Outcome, UseFault>
        ensures rules { RulesBy self.old numbers.now result self.new }
    {
        let [message, reply] = numbers else {
            return Err(UseFault::WrongRoom);
        };
        let Ok(message) = u16::try_from(*message) else {
            return Err(UseFault::End(EndFault::UnknownMessage));
        };
        let Ok(reply) = u16::try_from(*reply) else {
            return Err(UseFault::End(EndFault::UnknownMessage));
        };
        match self.end.reply_rule(MsgNo(message), MsgNo(reply)) {
            Ok(()) => Ok(Outcome::RuleSet),
            Err(fault) => Err(UseFault::End(fault)),
        }
    }

    /// Tells what was taken, where that is at least half of the slots.
    ///
    /// # Errors
    /// There is something to tell, and no slot is free (30).
    pub fn tell(&mut self) -> Result<Outcome, UseFault>
        ensures tells { Tells self.old.side result self.new.side }
        ensures only { (self.new.end ≡ self.old.end) × (self.new.calls ≡ self.old.calls) × (self.new.handled ≡ self.old.handled) }
    {
        self.side.forget();
        tell(&mut self.side.side)
    }

    /// Whether a call is in transmission.
    pub fn busy(&self) -> Outcome
        ensures busy { IsBusyBy self.now (Ok result) }
    {
        if self.end.is_busy() {
            Outcome::Sending
        } else {
            Outcome::Idle
        }
    }
}

/// Does an operation at an end, on these numbers.
///
/// # Errors
/// Those of the operation; an end has no such operation (101).
#[inline(always)]
pub fn use_end(
    end: &mut HeldEnd,
    operation: Operation,
    numbers: &mut [u64],
) -> Result<Outcome, UseFault>
    ensures uses { UsesEnd end.old operation numbers.old result end.new numbers.new }
{
    match operation {
        Operation::Tell => end.tell(),
        Operation::Call => end.call(numbers),
        Operation::Write => end.write(),
        Operation::Receive => end.receive(),
        Operation::Read => end.read(numbers),
        Operation::Rule => end.rule(numbers),
        Operation::Busy => Ok(end.busy()),
        _ => Err(UseFault::NoSuchOperation),
    }
}
