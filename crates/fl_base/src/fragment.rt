//! One cache line of a channel, and its control word (the bits stand in `specs/Control.antt`).

ghost use Rattle.std.specs.Prelude.{◌≡◌, ◌+◌, ◌*◌, ◌^◌, ◌/◌, ◌%◌, ◌-◌, ◌≤◌, ◌<◌, ◌==◌, false};
ghost use Rattle.std.specs.List.{list_all};
ghost use Rattle.fl_base.specs.Control.{epoch_of, first_of, acknowledges_of, reserved_of, message_of, circuit_of, told_of};
ghost use Rattle.fl_base.specs.Control.{control_word, is_ack_only, with_circuit, bare, stamped, fields_of, Fields};

use crate::identity::{Circuit, MsgNo};

/// Seven payload words and a control word: what a core writes and another reads as one line.
#[derive(Clone, Copy, Debug, PartialEq, Eq)]
pub struct Frag {
    /// The payload, little-endian words.
    pub words: [u64; 7],
    /// Epoch, first bit, message number, circuit and the count told (`specs/Control.antt`).
    pub control: u64,
}

/// The control word of a call's fragment, with epoch 0 and nothing told.
///
/// `first` says that it is the first fragment of its call.
pub fn control(first: bool, msg: MsgNo, circuit: Circuit) -> u64
    ensures word { result ≡ control_word first msg.0 circuit.0 }
    ensures first_read { first_of result ≡ first }
    ensures message_read { message_of result ≡ msg.0 }
    ensures circuit_read { circuit_of result ≡ circuit.0 }
    ensures epoch_read { epoch_of result ≡ 0 }
    ensures reserved_read { reserved_of result ≡ 0 }
    ensures told_read { told_of result ≡ 0 }
    ensures acknowledges_read { acknowledges_of result ≡ false }
{
    let first_bit = if first { 2 } else { 0 };
    first_bit + 65_536 * u64::from(msg.0) + 4_294_967_296 * u64::from(circuit.0)
}

/// The epoch bit of a control word: 1 in the first round of a ring, 0 in the second, and so on.
#[inline(always)]
pub fn epoch_of(control: u64) -> u64
    ensures { result ≡ epoch_of control }
{
    control % 2
}

/// Bits 48 to 63 of a control word: how many fragments of the other direction the writer has read, modulo 65,536.
#[inline(always)]
pub fn told_of(control: u64) -> u16
    ensures { result ≡ told_of control }
{
    (control / 281_474_976_710_656) as u16
}

impl Frag {
    /// The epoch bit: 1 in the first round of a ring, 0 in the second, and so on.
    pub fn epoch(&self) -> u64
        ensures { result ≡ epoch_of self.now.control }
    {
        epoch_of(self.control)
    }

    /// The same fragment with this circuit.
    pub fn with_circuit(&self, circuit: Circuit) -> Frag
        ensures set { result ≡ with_circuit circuit.0 self.now }
        ensures fields { fields_of result.control ≡ record (fields_of self.now.control) { circuit = circuit.0 } }
    {
        let control = self.control;
        let old = control / 4_294_967_296 % 65_536;
        Frag {
            words: self.words,
            control: control - 4_294_967_296 * old + 4_294_967_296 * u64::from(circuit.0),
        }
    }

    /// The same fragment with epoch 0 and nothing told: what every link carries unchanged.
    #[inline(always)]
    pub fn bare(&self) -> Frag
        ensures bare { result ≡ bare self.now }
    {
        Frag {
            words: self.words,
            control: 2 * (self.control / 2 % 140_737_488_355_328),
        }
    }

    /// The fragment as it stands in a link: in a round of this epoch, 0 or 1, and telling this count in bits 48 to 63.
    pub fn stamp(&self, epoch: u64, told: u16) -> Frag
        requires bit { epoch < 2 }
        ensures stamped { result ≡ stamped self.now epoch told }
        ensures fields { fields_of result.control ≡ record (fields_of self.now.control) { epoch = epoch; told = told } }
    {
        let body = self.control / 2 % 140_737_488_355_328 * 2;
        Frag {
            words: self.words,
            control: body + epoch + 281_474_976_710_656 * u64::from(told),
        }
    }

    /// Whether this is the first fragment of its call.
    pub fn is_first(&self) -> bool
        ensures { result ≡ first_of self.now.control }
    {
        self.control / 2 % 2 == 1
    }

    /// The number of the message that this fragment is part of.
    pub fn msg(&self) -> MsgNo
        ensures { result.0 ≡ message_of self.now.control }
    {
        MsgNo((self.control / 65_536 % 65_536) as u16)
    }

    /// The circuit on the link that this fragment travels; 0 off links.
    pub fn circuit(&self) -> Circuit
        ensures { result.0 ≡ circuit_of self.now.control }
    {
        Circuit((self.control / 4_294_967_296 % 65_536) as u16)
    }

    /// Bits 48 to 63: how many fragments of the other direction the writer has read, modulo 65,536.
    pub fn told(&self) -> u16
        ensures { result ≡ told_of self.now.control }
    {
        told_of(self.control)
    }

    /// Bits 2 to 15: that which acknowledges and those that are reserved. They are 0 in a call's fragment.
    #[inline(always)]
    pub fn unused_bits(&self) -> u64
        ensures { result ≡ self.now.control / 4 % 16384 }
    {
        self.control / 4 % 16_384
    }

    // Bit 2 is set, and bits 1 and 3 to 47 are 0.
    fn has_ack_bits(&self) -> bool
        ensures { result ≡ (self.now.control / 2 % 2 ^ 47 == 2) }
    {
        self.control / 2 % 140_737_488_355_328 == 2
    }

    /// Whether the fragment is wholly of the acknowledging form: bit 2 set, bits 1 and 3 to 47 and
    /// all payload words 0.
    pub fn is_ack_only(&self) -> bool
        ensures { result ≡ is_ack_only self.now }
    {
        self.has_ack_bits() && is_blank(self.words)
    }
}

// Few fragments are asked this. It stands apart and takes a copy, so that the control word is looked at first, and the words
// of the others stay where they are.
#[cold]
#[inline(never)]
fn is_blank(words: [u64; 7]) -> bool
    ensures { result ≡ list_all (λ word. word == 0) words }
{
    words.iter().all(|word| *word == 0)
}
