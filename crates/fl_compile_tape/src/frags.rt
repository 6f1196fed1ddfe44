//! The call of its fragments, by prepared code.

ghost use Rattle.std.specs.Prelude.{◌≡◌, ◌+◌, ◌*◌, ◌≤◌, ◌++◌, [], length, vec_len, IfOk, OnOk};
ghost use Rattle.std.specs.List.{flat_map};
ghost use Rattle.std.specs.Int.{to_le_bytes, w64};
ghost use Rattle.std.specs.Vec.{vec_capacity};
ghost use Rattle.fl_value_data.specs.Value.{TheCall, call_of};
ghost use Rattle.fl_compile.specs.Programs.{program_of};
ghost use Rattle.fl_compile_tape.specs.Frags.{frag_bytes, HasFrags};

use crate::receive::call_by;
use fl_base::{FRAG_BYTES, Frag, MsgNo};
use fl_compile::Program;
use fl_value_data::{Call, Value};
use std::alloc::{AllocError, Global};
use std::mem;

// Appends a word's bytes, where there is room for them: one by one, which the compiler makes one store.
#[inline(always)]
fn push_word(bytes: &mut Vec<u8>, word: u64)
    requires room { vec_len bytes.old + 8 ≤ vec_capacity bytes.old }
    ensures put { bytes.new.items ≡ bytes.old.items ++ to_le_bytes w64 word }
    ensures length { vec_len bytes.new ≡ vec_len bytes.old + 8 }
    ensures capacity { vec_capacity bytes.new ≡ vec_capacity bytes.old }
{
    let told = word.to_le_bytes();
    for byte in &told {
        bytes.push_reserved(*byte);
    }
}

// Appends the bytes of words, where there is room for them.
#[inline(always)]
fn push_words(bytes: &mut Vec<u8>, words: &[u64])
    requires room { vec_len bytes.old + 8 * length words.now ≤ vec_capacity bytes.old }
    ensures put { bytes.new.items ≡ bytes.old.items ++ flat_map (to_le_bytes w64) words.now }
    ensures length { vec_len bytes.new ≡ vec_len bytes.old + 8 * length words.now }
    ensures capacity { vec_capacity bytes.new ≡ vec_capacity bytes.old }
{
    for word in words {
        push_word(bytes, *word);
    }
}

// No bytes, with room for so many, in memory that is used again.
#[inline(always)]
fn emptied(used: Vec<u8>, size: usize) -> Result<Vec<u8>, AllocError>
    ensures none { IfOk result (λ bytes. bytes.items ≡ []) }
    ensures length { IfOk result (λ bytes. vec_len bytes ≡ 0) }
    ensures room { IfOk result (λ bytes. size ≤ vec_capacity bytes) }
{
    let mut bytes = used;
    bytes.clear();
    bytes.reserve(size)?;
    Ok(bytes)
}

// The bytes of fragments, one after another, in memory that is used again.
#[inline(always)]
fn bytes_of(used: Vec<u8>, frags: &[Frag]) -> Result<Vec<u8>, AllocError>
    requires few { length frags.now ≤ 586 }
    ensures bytes { IfOk result (λ bytes. bytes.items ≡ flat_map frag_bytes frags.now) }
{
    let mut bytes = emptied(used, frags.len() * FRAG_BYTES)?;
    for frag in frags {
        push_words(&mut bytes, &frag.words);
    }
    Ok(bytes)
}

// Puts the bytes of fragments, one after another, in the place of what stood there.
#[inline(always)]
fn put_bytes(alloc: Global, bytes: &mut Vec<u8>, frags: &[Frag]) -> Result<(), AllocError>
    requires few { length frags.now ≤ 586 }
    ensures bytes { OnOk result (bytes.new.items ≡ flat_map frag_bytes frags.now) }
{
    let used = mem::replace(bytes, Vec::new(alloc));
    let put = bytes_of(used, frags)?;
    *bytes = put;
    Ok(())
}

/// Memory in which calls are read, used again for each: for the bytes of a call's fragments, and for its packed tape.
#[derive(Drop)]
pub struct ReadingRoom {
    bytes: Vec<u8>,
    tape: Vec<u8>,
}

impl ReadingRoom {
    /// Room for nothing yet. Takes no memory.
    pub fn new(alloc: Global) -> ReadingRoom {
        ReadingRoom {
            bytes: Vec::new(alloc),
            tape: Vec::new(alloc),
        }
    }
}

/// The call of a message whose fragments these are, where they are known to be a fitting call's, as those are that receive code has
/// accepted. Takes memory for the call, and for `room` where that is too small. The call's arguments stand in the memory of `list`,
/// whose own values are dropped, where the plan's order is the declared one.
///
/// # Errors
/// Out of memory (E99), and nothing else.
pub fn call_of_frags(
    alloc: Global,
    list: Vec<Value>,
    program: &Program,
    msg: MsgNo,
    frags: &[Frag],
    room: &mut ReadingRoom,
) -> Result<Call, AllocError>
    requires known { (c : TheCall) × HasFrags (program_of program.now) msg.0 frags.now c }
    ensures call { IfOk result (λ call. (c : TheCall) → HasFrags (program_of program.now) msg.0 frags.now c
        → call_of call ≡ c) }
{
    put_bytes(alloc, &mut room.bytes, frags)?;
    call_by(
        alloc,
        list,
        program,
        msg,
        room.bytes.as_slice(),
        &mut room.tape,
    )
}
