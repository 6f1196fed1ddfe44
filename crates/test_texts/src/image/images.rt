//! Images of texts, spoiled images, and what is answered to them.

use crate::interfaces::interface;
use fl_compile::compile;
use fl_image::{is_writable, read_image, write_image};
use fl_value_data::PlanNo;
use std::alloc::{AllocError, Global};
use std::test::Fail;

/// The image of `ping` under plan 1, by hand.
pub const PING: [u8; 37] = [
    0x46, 0x4c, 0x4e, 0x44, 0x01, 0x00, 0x01, 0x69, 0x01, 0x00, 0x04, 0x70, 0x69, 0x6e, 0x67, 0x01,
    0x07, 0x02, 0x00, 0x00, 0x00, 0x01, 0x04, 0x00, 0x08, 0x00, 0x00, 0x02, 0x00, 0x00, 0x00, 0x11,
    0x04, 0x00, 0x18, 0x00, 0x00,
];

/// The same under plan 2.
pub const PING_TWO: [u8; 37] = [
    0x46, 0x4c, 0x4e, 0x44, 0x02, 0x00, 0x01, 0x69, 0x01, 0x00, 0x04, 0x70, 0x69, 0x6e, 0x67, 0x01,
    0x07, 0x02, 0x00, 0x00, 0x00, 0x01, 0x04, 0x00, 0x08, 0x00, 0x00, 0x02, 0x00, 0x00, 0x00, 0x11,
    0x04, 0x00, 0x18, 0x00, 0x00,
];

/// A message whose layouts under the two plans differ.
pub const MIXED: &[u8] = b"interface i { message m(uint8 a, string s, uint16 b); }";

/// The image of a text under a plan.
pub fn image_of(alloc: Global, text: &[u8], plan: PlanNo) -> Result<Vec<u8>, Fail> {
    let interface = interface(alloc, text)?;
    let program = compile(alloc, &interface, plan)?;
    if !is_writable(program.interface()) {
        return Err(Fail::from("the interface of a text isn't writable"));
    }
    Ok(write_image(alloc, &program)?)
}

/// The fault of bytes, or 0 where they are the image of what is read.
pub fn answer(alloc: Global, bytes: &[u8]) -> Result<u8, AllocError> {
    let program = match read_image(alloc, bytes) {
        Ok(program) => program,
        Err(fault) => return Ok(fault.number()),
    };
    if !is_writable(program.interface()) {
        return Ok(1);
    }
    let image = write_image(alloc, &program)?;
    if image.as_slice() == bytes {
        Ok(0)
    } else {
        Ok(1)
    }
}

/// The bytes with another one at a place.
pub fn change(alloc: Global, bytes: &[u8], at: usize, to: u8) -> Result<Vec<u8>, AllocError> {
    let mut bytes = Vec::from_slice(alloc, bytes)?;
    if let Some(byte) = bytes.get_mut(at) {
        *byte = to;
    }
    Ok(bytes)
}

/// What is answered to the bytes with another one at a place.
pub fn answer_to_change(alloc: Global, bytes: &[u8], at: usize, to: u8) -> Result<u8, AllocError> {
    let changed = change(alloc, bytes, at, to)?;
    answer(alloc, &changed)
}
