//! What an end is to send: the call in transmission, and the replies that wait.

ghost use Rattle.std.specs.Prelude.{◌≡◌, ◌+◌, ◌<◌, ◌≤◌, ◌∷◌, [], ℕ, List, true, false, length, map, slice_get, Some, None, IsSome, IfOk, IfSome, OnOk, OnErr};
ghost use Rattle.std.specs.Option.{option_map};
ghost use Rattle.fl_base.specs.declared.fragment.Frag.{Frag};
ghost use Rattle.fl_value_data.specs.Value.{call_of};
ghost use Rattle.fl_value_data.specs.Fits.{fits_of};
ghost use Rattle.fl_compact_calls.specs.Held.{one_number};
ghost use Rattle.fl_layout.specs.Places.{count};
ghost use Rattle.fl_compile.specs.Programs.{TheProgram, program_of};
ghost use Rattle.fl_endpoint.specs.View.{nothing_to_send, is_busy, queued, queued_if, goes_on, wrote};
ghost use Rattle.fl_wire.specs.Payload.{frag_on};
ghost use Rattle.fl_endpoint.specs.Stored.{tape_frags, payload_frags, queued_frags, sending_frags, frags_behind, count_in, outgoing_of};
ghost use Rattle.fl_endpoint.specs.Stored.{sent_as, SendsAs, IsShort, IsQueued, AreQueued, Queues, IsSending, IsInTransmission, IsOutgoing};

use fl_base::{Circuit, Frag, MsgNo, control};
use fl_compact_calls::{CompactCall, SeenCall};
use fl_compile::Program;
use fl_compile_payload::payload_by;
use fl_layout::fragment_count;
use fl_machine::{first_frag, law_sends_fragments};
use fl_value_data::{Call, flatten_into};
use fl_wire::fragment;
use std::alloc::{AllocError, Global};
use std::collections::VecDeque;
use std::mem;

/// So many replies may wait.
pub(crate) const MOST_WAITING: usize = 16;

/// What is kept of a call that is to be sent.
#[derive(Drop)]
pub(crate) enum CallBody {
    /// Of a call of one fragment its tape: its message's send code makes the fragment.
    Tape(Vec<u64>),
    /// Of a longer call its payload.
    Payload(Vec<u8>),
    /// Of a call that is held as one number that number, which is its tape.
    Number(u64),
}

/// A call that is to be sent.
#[derive(Drop)]
pub(crate) struct QueuedCall {
    body: CallBody,
    msg: MsgNo,
}

/// The call in transmission: the fragment that is written next, and how many of the call's fragments were written.
#[derive(Clone, Copy)]
pub(crate) struct SendingCall {
    next: Frag,
    written: usize,
    count: usize,
    msg: MsgNo,
    circuit: Circuit,
}

/// The calls that an end is to send.
#[derive(Drop)]
pub(crate) struct Outgoing {
    sending: Option<SendingCall>,
    // The payload of the call in transmission, from which the fragments behind the next are made; none of a call of one
    // fragment.
    payload: Option<Vec<u8>>,
    waiting: VecDeque<QueuedCall>,
}

// Fragment `k` of a message with these payload bytes, on a circuit.
fn fragment_on(payload: &[u8], msg: MsgNo, circuit: Circuit, k: usize) -> Frag
    ensures frag { result ≡ frag_on circuit.0 msg.0 payload.now k }
{
    let words = fragment(payload, msg, k).words;
    Frag {
        words,
        control: control(k == 0, msg, circuit),
    }
}

impl QueuedCall {
    // A call of one fragment as it is queued to be sent as this message: its tape, in memory that was used before.
    #[inline(always)]
    fn of_tape(
        tape: Vec<u64>,
        program: &Program,
        call: &Call,
        msg: MsgNo,
    ) -> Result<QueuedCall, AllocError>
        requires sends { SendsAs (program_of program.now).interface (call_of call.now) msg.0 }
        requires one { count (program_of program.now).plan (program_of program.now).interface (call_of call.now) ≡ 1 }
        ensures queues { IfOk result (λ queued. Queues (program_of program.now) (sent_as msg.0 (call_of call.now)) queued) }
    {
        law_sends_fragments();
        let mut tape = tape;
        flatten_into(&mut tape, call, program.interface(), program.plan())?;
        Ok(QueuedCall {
            body: CallBody::Tape(tape),
            msg,
        })
    }

    // A call as it is queued to be sent as this message: its payload, which its own message's send code makes. Out of line, so that
    // a call of one fragment has nothing of it.
    #[inline(never)]
    fn of_payload(
        alloc: Global,
        program: &Program,
        call: &Call,
        msg: MsgNo,
        room: usize,
    ) -> Result<QueuedCall, AllocError>
        requires sends { SendsAs (program_of program.now).interface (call_of call.now) msg.0 }
        ensures queues { IfOk result (λ queued. Queues (program_of program.now) (sent_as msg.0 (call_of call.now)) queued) }
    {
        let payload = payload_by(alloc, program, call, room)?;
        Ok(QueuedCall {
            body: CallBody::Payload(payload),
            msg,
        })
    }

    // A call as it is queued to be sent as this message. Of a call of one fragment the tape is made in the spare memory, which it
    // takes.
    #[inline(always)]
    pub(crate) fn of(
        alloc: Global,
        spare: &mut Vec<u64>,
        program: &Program,
        call: &Call,
        msg: MsgNo,
    ) -> Result<QueuedCall, AllocError>
        requires sends { SendsAs (program_of program.now).interface (call_of call.now) msg.0 }
        ensures queues { IfOk result (λ queued. Queues (program_of program.now) (sent_as msg.0 (call_of call.now)) queued) }
    {
        let size = program.plans().size_of(call);
        if fragment_count(size) == 1 {
            let tape = mem::replace(spare, Vec::new(alloc));
            return QueuedCall::of_tape(tape, program, call, msg);
        }
        QueuedCall::of_payload(alloc, program, call, msg, size)
    }

    // A fitting call of one number as it is queued: the number is all of its tape. Takes no memory.
    #[inline(always)]
    fn of_number(program: &Program, msg: MsgNo, number: u64) -> QueuedCall
        requires fits { fits_of (program_of program.now).interface (record { msg = msg.0; args = one_number number }) ≡ true }
        ensures queues { Queues (program_of program.now) (record { msg = msg.0; args = one_number number }) result }
    {
        law_sends_fragments();
        let _interface = program.interface();
        QueuedCall {
            body: CallBody::Number(number),
            msg,
        }
    }

    // As `of`, for a call in little memory. One that is held as a number takes none.
    #[inline(always)]
    pub(crate) fn of_compact(
        alloc: Global,
        spare: &mut Vec<u64>,
        program: &Program,
        call: &CompactCall,
        msg: MsgNo,
    ) -> Result<QueuedCall, AllocError>
        requires sends { SendsAs (program_of program.now).interface (call_of call.now) msg.0 }
        ensures queues { IfOk result (λ queued. Queues (program_of program.now) (sent_as msg.0 (call_of call.now)) queued) }
    {
        match call.seen() {
            SeenCall::Number(_, number) => Ok(QueuedCall::of_number(program, msg, number)),
            SeenCall::Other(call) => QueuedCall::of(alloc, spare, program, call, msg),
        }
    }
}

impl SendingCall {
    // As `advance`. Out of line, so that a call of one fragment has nothing of it.
    #[inline(never)]
    fn advance_in(&mut self, payload: &mut Option<Vec<u8>>) -> bool
        requires { IsSending self.old payload.old }
        ensures more { result ≡ true → IsSending self.new payload.new }
        ensures frags { result ≡ true → sending_frags (Some self.new) payload.new ≡ frags_behind self.old payload.old }
        ensures last { result ≡ false → frags_behind self.old payload.old ≡ [] }
        ensures none { result ≡ false → payload.new ≡ None }
        ensures written { self.new.written ≡ self.old.written + 1 }
        ensures count { self.new.count ≡ self.old.count }
    {
        self.written += 1;
        let Some(bytes) = payload else {
            return false;
        };
        if self.written == self.count {
            *payload = None;
            return false;
        }
        self.next = fragment_on(bytes, self.msg, self.circuit, self.written);
        true
    }

    // Goes on behind the next fragment, which is written: whether another is to be written.
    #[inline(always)]
    fn advance(&mut self, payload: &mut Option<Vec<u8>>) -> bool
        requires { IsSending self.old payload.old }
        ensures more { result ≡ true → IsSending self.new payload.new }
        ensures frags { result ≡ true → sending_frags (Some self.new) payload.new ≡ frags_behind self.old payload.old }
        ensures last { result ≡ false → frags_behind self.old payload.old ≡ [] }
        ensures none { result ≡ false → payload.new ≡ None }
        ensures written { self.new.written ≡ self.old.written + 1 }
        ensures count { self.new.count ≡ self.old.count }
    {
        if payload.is_none() {
            self.written += 1;
            return false;
        }
        self.advance_in(payload)
    }
}

impl Outgoing {
    // Nothing to send. Takes no memory.
    pub(crate) fn new(alloc: Global) -> Outgoing
        ensures in_order { (p : TheProgram) → IsOutgoing p result }
        ensures nothing { (p : TheProgram) (circuit : ℕ) → outgoing_of p circuit result ≡ nothing_to_send }
    {
        Outgoing {
            sending: None,
            payload: None,
            waiting: VecDeque::new(alloc),
        }
    }

    // Whether a call is in transmission.
    pub(crate) fn is_busy(&self) -> bool
        ensures busy { (p : TheProgram) (circuit : ℕ) → result ≡ is_busy (outgoing_of p circuit self.now) }
    {
        self.sending.is_some()
    }

    // How many replies wait.
    pub(crate) fn waiting(&self) -> usize
        ensures waiting { (p : TheProgram) (circuit : ℕ) → result ≡ length (outgoing_of p circuit self.now).waiting }
    {
        self.waiting.len()
    }

    // The fragment that is to be written next.
    pub(crate) fn next(&self) -> Option<Frag>
        ensures next { (p : TheProgram) (circuit : ℕ) → result ≡ slice_get (outgoing_of p circuit self.now).unwritten 0 }
    {
        match &self.sending {
            Some(sending) => Some(sending.next),
            None => None,
        }
    }

    // Puts a call of one fragment in transmission.
    #[inline(always)]
    fn start_one(&mut self, program: &Program, circuit: Circuit, msg: MsgNo, tape: &[u64])
        requires short { IsShort (program_of program.now) msg.0 tape.now }
        requires idle { self.old.payload ≡ None }
        ensures now { (waiting : List QueuedCall) → IsInTransmission self.new.sending self.new.payload waiting }
        ensures frags { sending_frags self.new.sending self.new.payload ≡ tape_frags (program_of program.now) circuit.0 msg.0 tape.now }
        ensures count { count_in self.new.sending ≡ length (tape_frags (program_of program.now) circuit.0 msg.0 tape.now) }
        ensures waiting { self.new.waiting ≡ self.old.waiting }
    {
        // Both have 16 bits, which the proof knows once they are read.
        let (_msg, _circuit) = (msg.0, circuit.0);
        let Some(code) = program.send_code(msg) else {
            unreachable!();
        };
        let next = first_frag(code, msg, circuit, tape);
        self.sending = Some(SendingCall {
            next,
            written: 0,
            count: 1,
            msg,
            circuit,
        });
    }

    // Puts a call with this payload in transmission. Out of line, so that a call of one fragment has nothing of it.
    #[inline(never)]
    fn start_payload(&mut self, circuit: Circuit, msg: MsgNo, payload: Vec<u8>)
        ensures now { (waiting : List QueuedCall) → IsInTransmission self.new.sending self.new.payload waiting }
        ensures frags { sending_frags self.new.sending self.new.payload ≡ payload_frags circuit.0 msg.0 payload.items }
        ensures count { count_in self.new.sending ≡ length (payload_frags circuit.0 msg.0 payload.items) }
        ensures waiting { self.new.waiting ≡ self.old.waiting }
    {
        // Both have 16 bits, which the proof knows once they are read.
        let (_msg, _circuit) = (msg.0, circuit.0);
        self.sending = Some(SendingCall {
            next: fragment_on(&payload, msg, circuit, 0),
            written: 0,
            count: fragment_count(payload.len()),
            msg,
            circuit,
        });
        self.payload = Some(payload);
    }

    // Puts a call in transmission, of which nothing is written. A call of one fragment gives back its tape.
    #[inline(always)]
    fn start(&mut self, program: &Program, circuit: Circuit, call: QueuedCall) -> Option<Vec<u64>>
        requires queued { IsQueued (program_of program.now) call }
        requires idle { self.old.payload ≡ None }
        ensures now { (waiting : List QueuedCall) → IsInTransmission self.new.sending self.new.payload waiting }
        ensures frags { sending_frags self.new.sending self.new.payload ≡ queued_frags (program_of program.now) circuit.0 call }
        ensures count { count_in self.new.sending ≡ length (queued_frags (program_of program.now) circuit.0 call) }
        ensures waiting { self.new.waiting ≡ self.old.waiting }
    {
        let QueuedCall { body, msg } = call;
        match body {
            CallBody::Tape(tape) => {
                self.start_one(program, circuit, msg, &tape);
                Some(tape)
            }
            CallBody::Payload(payload) => {
                self.start_payload(circuit, msg, payload);
                None
            }
            CallBody::Number(number) => {
                self.start_one(program, circuit, msg, &[number]);
                None
            }
        }
    }

    // A call in transmission, where none is. One of one fragment gives back its tape. Takes no memory.
    #[inline(always)]
    pub(crate) fn begin(
        &mut self,
        program: &Program,
        circuit: Circuit,
        call: QueuedCall,
    ) -> Option<Vec<u64>>
        requires outgoing { IsOutgoing (program_of program.now) self.old }
        requires call { IsQueued (program_of program.now) call }
        requires idle { self.old.sending ≡ None }
        ensures outgoing { IsOutgoing (program_of program.now) self.new }
        ensures queued { outgoing_of (program_of program.now) circuit.0 self.new
            ≡ queued (outgoing_of (program_of program.now) circuit.0 self.old) (queued_frags (program_of program.now) circuit.0 call) }
    {
        self.start(program, circuit, call)
    }

    // The same; the tape that it gives back is spare memory again.
    #[inline(always)]
    pub(crate) fn begin_from(
        &mut self,
        program: &Program,
        circuit: Circuit,
        call: QueuedCall,
        spare: &mut Vec<u64>,
    )
        requires outgoing { IsOutgoing (program_of program.now) self.old }
        requires call { IsQueued (program_of program.now) call }
        requires idle { self.old.sending ≡ None }
        ensures outgoing { IsOutgoing (program_of program.now) self.new }
        ensures queued { outgoing_of (program_of program.now) circuit.0 self.new
            ≡ queued (outgoing_of (program_of program.now) circuit.0 self.old) (queued_frags (program_of program.now) circuit.0 call) }
    {
        if let Some(tape) = self.begin(program, circuit, call) {
            *spare = tape;
        }
    }

    // One call more to be sent. Takes memory where it has to wait; what is to be sent is as it was where that is refused.
    fn queue(
        &mut self,
        program: &Program,
        circuit: Circuit,
        call: QueuedCall,
    ) -> Result<(), AllocError>
        requires outgoing { IsOutgoing (program_of program.now) self.old }
        requires call { IsQueued (program_of program.now) call }
        requires few { length self.old.waiting.items < 16 }
        ensures outgoing { IsOutgoing (program_of program.now) self.new }
        ensures queued { OnOk result (outgoing_of (program_of program.now) circuit.0 self.new
            ≡ queued (outgoing_of (program_of program.now) circuit.0 self.old) (queued_frags (program_of program.now) circuit.0 call)) }
        ensures kept { OnErr result (outgoing_of (program_of program.now) circuit.0 self.new ≡ outgoing_of (program_of program.now) circuit.0 self.old) }
    {
        if self.sending.is_some() {
            let Ok(()) = self.waiting.push_back(call) else {
                return Err(AllocError);
            };
            return Ok(());
        }
        let _tape = self.begin(program, circuit, call);
        Ok(())
    }

    // The reply, if there is one. Takes memory where it has to wait; what is to be sent is as it was where that is refused.
    #[tactic(auto, using(crate::proofs::Insides::accepted_on_ok))]
    pub(crate) fn accept(
        &mut self,
        program: &Program,
        circuit: Circuit,
        reply: Option<QueuedCall>,
    ) -> Result<(), AllocError>
        requires outgoing { IsOutgoing (program_of program.now) self.old }
        requires call { IfSome reply (λ call. IsQueued (program_of program.now) call) }
        requires few { IfSome reply (λ call. length self.old.waiting.items < 16) }
        ensures outgoing { IsOutgoing (program_of program.now) self.new }
        ensures accepted { OnOk result (outgoing_of (program_of program.now) circuit.0 self.new
            ≡ queued_if (outgoing_of (program_of program.now) circuit.0 self.old) (option_map (queued_frags (program_of program.now) circuit.0) reply)) }
        ensures kept { OnErr result (outgoing_of (program_of program.now) circuit.0 self.new ≡ outgoing_of (program_of program.now) circuit.0 self.old) }
    {
        match reply {
            Some(call) => self.queue(program, circuit, call),
            None => Ok(()),
        }
    }

    // The first reply that waits in transmission, if one waits.
    fn go_on(&mut self, program: &Program, circuit: Circuit)
        requires idle { self.old.payload ≡ None }
        requires waiting { AreQueued (program_of program.now) self.old.waiting.items }
        requires few { length self.old.waiting.items ≤ 16 }
        ensures outgoing { IsOutgoing (program_of program.now) self.new }
        ensures goes_on { outgoing_of (program_of program.now) circuit.0 self.new
            ≡ goes_on (map (queued_frags (program_of program.now) circuit.0) self.old.waiting.items) }
    {
        self.sending = None;
        if let Some(call) = self.waiting.pop_front() {
            let _tape = self.start(program, circuit, call);
        }
    }

    // The next fragment is written: which it was of its call's, and how many these are. Takes no memory.
    pub(crate) fn mark_written(&mut self, program: &Program, circuit: Circuit) -> (usize, usize)
        requires outgoing { IsOutgoing (program_of program.now) self.old }
        requires busy { IsSome self.old.sending }
        ensures outgoing { IsOutgoing (program_of program.now) self.new }
        ensures wrote { (f : Frag) (rest : List Frag) → (outgoing_of (program_of program.now) circuit.0 self.old).unwritten ≡ f ∷ rest
            → outgoing_of (program_of program.now) circuit.0 self.new ≡ wrote rest (outgoing_of (program_of program.now) circuit.0 self.old) }
        ensures count { result.1 ≡ (outgoing_of (program_of program.now) circuit.0 self.old).count }
        ensures number { (f : Frag) (rest : List Frag) → (outgoing_of (program_of program.now) circuit.0 self.old).unwritten ≡ f ∷ rest
            → result.0 + length rest ≡ result.1 }
    {
        let Some(sending) = &mut self.sending else {
            unreachable!();
        };
        let more = sending.advance(&mut self.payload);
        let answer = (sending.written, sending.count);
        if !more {
            self.go_on(program, circuit);
        }
        answer
    }
}
