//! Images that are cut, changed or grown, and their faults.

use crate::image::images::{PING, answer, answer_to_change};
use crate::rows::{TextCase, all_hold};
use fl_image::{
    law_cut_images_end_early, law_field_faults_stay, law_longer_images_have_more, law_one_image,
};
use std::alloc::{AllocError, Global};
use std::test::Fail;

// Bytes that may be no image.
enum Spoiled {
    Bytes(&'static [u8]),
    /// The image of `ping`, cut anywhere.
    Cut,
    /// The image of `ping` with this byte at a place.
    Changed(usize, u8),
    /// The image of `ping` with any byte at any place.
    ChangedAnyhow,
}

// Such bytes, and their fault: 0 where they are an image.
struct ImageRow(Spoiled, u8);

const ENDED: &[ImageRow] = &[
    ImageRow(Spoiled::Cut, 82),
    ImageRow(Spoiled::Bytes(b"XYZ"), 82),
    ImageRow(Spoiled::Bytes(b"XYZA"), 80),
];

const CHANGES: &[ImageRow] = &[
    ImageRow(Spoiled::Changed(4, 2), 0),
    ImageRow(Spoiled::Changed(4, 3), 81),
    ImageRow(Spoiled::Changed(5, 1), 81),
    ImageRow(Spoiled::Changed(7, 0x6a), 0),
    ImageRow(Spoiled::Changed(7, 0x30), 83),
    ImageRow(Spoiled::Changed(8, 0), 85),
    ImageRow(Spoiled::Changed(8, 2), 83),
    ImageRow(Spoiled::Changed(15, 0), 83),
    ImageRow(Spoiled::Changed(16, 0), 83),
    ImageRow(Spoiled::Changed(16, 8), 0),
    ImageRow(Spoiled::Changed(16, 9), 0),
    ImageRow(Spoiled::Changed(16, 0x0a), 84),
    ImageRow(Spoiled::Changed(16, 3), 84),
    ImageRow(Spoiled::Changed(17, 3), 83),
    ImageRow(Spoiled::Changed(22, 3), 83),
    ImageRow(Spoiled::Changed(22, 8), 84),
    // no other fault is told than those of images
    ImageRow(Spoiled::ChangedAnyhow, 0),
];

// The answer to each beginning of the image, where all have the same; else 0.
fn answer_to_cuts(alloc: Global) -> Result<u8, AllocError> {
    let first = answer(alloc, &[])?;
    for len in 1..37 {
        if answer(alloc, &PING[..len])? != first {
            return Ok(0);
        }
    }
    Ok(first)
}

// The first answer that is no fault of an image, with each byte at this place; 0 where there is none.
fn unknown_at(alloc: Global, at: usize) -> Result<u8, AllocError> {
    for to in 0..=255 {
        let fault = answer_to_change(alloc, &PING, at, to)?;
        if fault != 0 && !(80..=85).contains(&fault) {
            return Ok(fault);
        }
    }
    Ok(0)
}

// The same at all places.
fn unknown(alloc: Global) -> Result<u8, AllocError> {
    for at in 0..37 {
        let fault = unknown_at(alloc, at)?;
        if fault != 0 {
            return Ok(fault);
        }
    }
    Ok(0)
}

fn answer_to(alloc: Global, spoiled: &Spoiled) -> Result<u8, AllocError> {
    match spoiled {
        Spoiled::Bytes(bytes) => answer(alloc, bytes),
        Spoiled::Cut => answer_to_cuts(alloc),
        Spoiled::Changed(at, to) => answer_to_change(alloc, &PING, *at, *to),
        Spoiled::ChangedAnyhow => unknown(alloc),
    }
}

impl TextCase for ImageRow {
    fn holds(&self, alloc: Global) -> Result<bool, Fail> {
        Ok(answer_to(alloc, &self.0)? == self.1)
    }
}

#[test]
fn spoiled_images(rt: HostRuntime) -> Result<(), Fail> {
    law_one_image();
    law_cut_images_end_early();
    law_longer_images_have_more();
    law_field_faults_stay();
    all_hold(rt.alloc(), "images that end early", ENDED)?;
    all_hold(rt.alloc(), "changed bytes", CHANGES)
}
