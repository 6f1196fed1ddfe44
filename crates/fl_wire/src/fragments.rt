//! The fragments of a payload.

ghost use Rattle.std.specs.Prelude.{◌≡◌, ◌+◌, ◌-◌, ◌*◌, ◌/◌, ◌<◌, ◌≤◌, true, map, length, drop, slice_get, slice_index, IfOk};
ghost use Rattle.std.specs.List.{range_with_len};
ghost use Rattle.std.specs.Int.{from_le_bytes, w64};
ghost use Rattle.fl_interface.specs.Interface.{interface_of};
ghost use Rattle.fl_value_data.specs.Value.{call_of};
ghost use Rattle.fl_value_data.specs.Fits.{fits_of};
ghost use Rattle.fl_wire.specs.Payload.{frag_on, frags_of, word};

use crate::encode::payload;
use fl_base::{Circuit, FRAG_BYTES, Frag, MsgNo, control};
use fl_interface::Interface;
use fl_layout::fragment_count;
use fl_value_data::{Call, PlanNo};
use std::alloc::{AllocError, Global};

// What follows the first `k` fragments' bytes.
#[inline(always)]
fn rest_from(payload: &[u8], k: usize) -> &[u8]
    ensures rest { result.now ≡ drop (56 * k) payload.now }
{
    match k.checked_mul(FRAG_BYTES) {
        Some(start) if start < payload.len() => &payload[start..],
        _ => &[],
    }
}

// The word that eight bytes from a place on are.
#[inline(always)]
fn whole_word(bytes: &[u8], start: usize) -> u64
    requires inside { start + 8 ≤ length bytes.now }
    ensures word { result ≡ from_le_bytes w64 (map (slice_index bytes.now) (range_with_len start 8)) }
{
    u64::from_le_bytes([
        bytes[start],
        bytes[start + 1],
        bytes[start + 2],
        bytes[start + 3],
        bytes[start + 4],
        bytes[start + 5],
        bytes[start + 6],
        bytes[start + 7],
    ])
}

// Word `index` of some bytes, little-endian, with zeros after the end.
fn word_at(bytes: &[u8], index: usize) -> u64
    requires small { index < 7 }
    ensures word { result ≡ word bytes.now index }
{
    let start = 8 * index;
    if start + 8 <= bytes.len() {
        return whole_word(bytes, start);
    }
    let byte = |k: usize| bytes.get(start + k).copied().unwrap_or(0);
    u64::from_le_bytes([
        byte(0),
        byte(1),
        byte(2),
        byte(3),
        byte(4),
        byte(5),
        byte(6),
        byte(7),
    ])
}

// The seven words of a full fragment: nothing is asked between them.
#[inline(always)]
fn full_words(bytes: &[u8]) -> [u64; 7]
    requires full { 56 ≤ length bytes.now }
    ensures words { result ≡ map (word bytes.now) (range_with_len 0 7) }
{
    [
        whole_word(bytes, 0),
        whole_word(bytes, 8),
        whole_word(bytes, 16),
        whole_word(bytes, 24),
        whole_word(bytes, 32),
        whole_word(bytes, 40),
        whole_word(bytes, 48),
    ]
}

// The seven words of a fragment, with zeros after the end of the bytes.
#[inline(never)]
fn last_words(bytes: &[u8]) -> [u64; 7]
    ensures words { result ≡ map (word bytes.now) (range_with_len 0 7) }
{
    [
        word_at(bytes, 0),
        word_at(bytes, 1),
        word_at(bytes, 2),
        word_at(bytes, 3),
        word_at(bytes, 4),
        word_at(bytes, 5),
        word_at(bytes, 6),
    ]
}

// The seven words that some bytes begin with, with zeros after their end.
#[inline(always)]
fn first_words(bytes: &[u8]) -> [u64; 7]
    ensures words { result ≡ map (word bytes.now) (range_with_len 0 7) }
{
    if bytes.len() >= FRAG_BYTES {
        full_words(bytes)
    } else {
        last_words(bytes)
    }
}

/// Fragment `k` of a message with these payload bytes, with epoch 0 and circuit 0.
#[inline(always)]
pub fn fragment(payload: &[u8], msg: MsgNo, k: usize) -> Frag
    ensures frag { result ≡ frag_on 0 msg.0 payload.now k }
{
    Frag {
        words: first_words(rest_from(payload, k)),
        control: control(k == 0, msg, Circuit(0)),
    }
}

/// Fragment `k` of a call, with epoch 0 and circuit 0; none past the last one. Each call makes the whole
/// payload: who wants all fragments calls [`payload`] once, and [`fragment`] for each.
///
/// # Errors
/// Out of memory (E99), and nothing else.
pub fn fragment_at(
    alloc: Global,
    interface: &Interface,
    call: &Call,
    k: usize,
    plan: PlanNo,
) -> Result<Option<Frag>, AllocError>
    requires fits { fits_of (interface_of interface.now) (call_of call.now) ≡ true }
    ensures frag { IfOk result (λ found. found ≡ slice_get (frags_of plan (interface_of interface.now) (call_of call.now)) k) }
{
    let bytes = payload(alloc, interface, plan, call)?;
    if k < fragment_count(bytes.len()) {
        Ok(Some(fragment(&bytes, call.msg, k)))
    } else {
        Ok(None)
    }
}
