//! Images of texts, as they are and with one mistake.

use crate::image::images::{MIXED, PING, answer, answer_to_change, change, image_of};
use crate::rows::{TextCase, all_hold};
use fl_image::read_image;
use fl_value_data::PlanNo;
use std::alloc::{AllocError, Global};
use std::test::Fail;

// What is tried with images of texts.
enum ImageExample {
    /// The image of `ping` under a plan of this number has the bytes that are written by hand, and is read.
    Ping(PlanNo, u8),
    /// The padding of a struct.
    Padded,
    /// An image is read as a program under this plan, and this is answered to the image with a plan's number.
    Plan(PlanNo, u8, u8),
}

const IMAGES: &[ImageExample] = &[
    ImageExample::Ping(PlanNo::One, 1),
    ImageExample::Ping(PlanNo::Two, 2),
    ImageExample::Padded,
    ImageExample::Plan(PlanNo::One, 2, 84),
    ImageExample::Plan(PlanNo::Two, 2, 0),
];

// Whether an image has the bytes written by hand, with the plan's number, and is read.
fn is_ping(alloc: Global, image: &[u8], number: u8) -> Result<bool, Fail> {
    let ping = change(alloc, &PING, 4, number)?;
    Ok(image == ping.as_slice() && answer(alloc, image)? == 0)
}

fn has_image(alloc: Global, plan: PlanNo, number: u8) -> Result<bool, Fail> {
    let image = image_of(alloc, b"interface i { message ping(uint32 v); }", plan)?;
    is_ping(alloc, &image, number)
}

const PADDED: &[u8] = b"interface i { typedef struct { uint8 a; uint16 b; } t; message m(t x); }";

// The code that stores the struct's fields, with the padding between them.
const STORES: &[u8] = &[2, 1, 0, 1, 2, 0];

// At how many places that code stands, if another padding is refused at each.
fn places_of_padding(alloc: Global, image: &[u8]) -> Result<usize, AllocError> {
    let mut places: usize = 0;
    for at in 0..image.len() {
        if image[at..].starts_with(STORES) {
            if answer_to_change(alloc, image, at + 1, 2)? != 84 {
                return Ok(0);
            }
            places = places.saturating_add(1);
        }
    }
    Ok(places)
}

// Whether a byte too many stands behind the image.
fn is_too_long(alloc: Global, image: &mut Vec<u8>) -> Result<bool, AllocError> {
    image.push(0)?;
    Ok(answer(alloc, image)? == 85)
}

fn has_padding(alloc: Global, image: &mut Vec<u8>) -> Result<bool, AllocError> {
    Ok(
        answer(alloc, image)? == 0
            && places_of_padding(alloc, image)? == 1
            && is_too_long(alloc, image)?,
    )
}

fn is_padded(alloc: Global) -> Result<bool, Fail> {
    let mut image = image_of(alloc, PADDED, PlanNo::One)?;
    Ok(has_padding(alloc, &mut image)?)
}

fn is_under(
    alloc: Global,
    image: &[u8],
    plan: PlanNo,
    number: u8,
    wanted: u8,
) -> Result<bool, Fail> {
    let program = read_image(alloc, image)?;
    Ok(program.plan() == plan && answer_to_change(alloc, image, 4, number)? == wanted)
}

fn has_plan(alloc: Global, plan: PlanNo, number: u8, wanted: u8) -> Result<bool, Fail> {
    let image = image_of(alloc, MIXED, plan)?;
    is_under(alloc, &image, plan, number, wanted)
}

impl TextCase for ImageExample {
    fn holds(&self, alloc: Global) -> Result<bool, Fail> {
        match self {
            ImageExample::Ping(plan, number) => has_image(alloc, *plan, *number),
            ImageExample::Padded => is_padded(alloc),
            ImageExample::Plan(plan, number, wanted) => has_plan(alloc, *plan, *number, *wanted),
        }
    }
}

#[test]
fn images_of_texts(rt: HostRuntime) -> Result<(), Fail> {
    all_hold(rt.alloc(), "images", IMAGES)
}
