//! What makers make: programs, and the ends of one over a new ring.

ghost use Rattle.std.specs.Prelude.{◌≡◌, IfOk};
ghost use Rattle.fl_ring.specs.SharedSides.{TheSide};
ghost use Rattle.fl_compile.specs.Programs.{program_of};
ghost use Rattle.fl_c_operations.specs.Making.{make_number, place_of, AreSides, AreEndsOf, ReadsText, CompilesText, ReadsImage, MakesOfText, MakesOfImage};

use crate::end::HeldEnd;
use fl_check::{Interface, TextRead, read_text};
use fl_compile::{Program, compile};
use fl_image::{BadImage, ImageFault, read_image};
use fl_ring::{RingFault, SharedSide, duo};
use fl_value_data::PlanNo;
use std::alloc::{AllocError, Global};
use thiserror::Error;

/// Why nothing was made.
#[derive(Clone, Copy, Debug, Error)]
pub enum MakeFault {
    /// A ring can't have this number of slots (32).
    #[error("a ring can't have this number of slots")]
    BadSize,
    /// The text has this fault, so many bytes from its start (1 to 21).
    #[error("the text has fault E{number}, {offset} bytes from its start")]
    Text { number: u8, offset: usize },
    /// The bytes are no image (80 to 85).
    #[error("{0}")]
    Image(BadImage),
    /// Out of memory (99).
    #[error("out of memory")]
    Memory,
}

impl MakeFault {
    /// The fault's number.
    pub fn number(self) -> u32
        ensures number { result ≡ make_number self }
    {
        match self {
            MakeFault::BadSize => 32,
            MakeFault::Text { number, offset: _ } => u32::from(number),
            MakeFault::Image(fault) => u32::from(fault.number()),
            MakeFault::Memory => 99,
        }
    }

    /// Where in the text the fault stands; 0 where there is no such place.
    pub fn place(self) -> u64
        ensures place { result ≡ place_of self }
    {
        match self {
            MakeFault::Text { number: _, offset } => offset as u64,
            _ => 0,
        }
    }
}

// The interface that a text stands for.
fn read_interface(alloc: Global, text: &[u8]) -> Result<Interface, MakeFault>
    ensures reads { ReadsText text.now result }
{
    match read_text(alloc, text) {
        Ok(TextRead::Interface(interface)) => Ok(interface),
        Ok(TextRead::Fault { number, offset }) => Err(MakeFault::Text { number, offset }),
        Err(AllocError) => Err(MakeFault::Memory),
    }
}

/// The program of the interface that a text stands for, under a plan.
///
/// # Errors
/// The text has a fault (1 to 21); out of memory (99).
pub fn text_program(alloc: Global, text: &[u8], plan: PlanNo) -> Result<Program, MakeFault>
    ensures compiles { CompilesText plan text.now result }
{
    let interface = match read_interface(alloc, text) {
        Ok(interface) => interface,
        Err(MakeFault::Text { number, offset }) => return Err(MakeFault::Text { number, offset }),
        Err(_) => return Err(MakeFault::Memory),
    };
    match compile(alloc, &interface, plan) {
        Ok(program) => Ok(program),
        Err(AllocError) => Err(MakeFault::Memory),
    }
}

/// The program of an image.
///
/// # Errors
/// The bytes are no image (80 to 85); out of memory (99).
pub fn image_program(alloc: Global, image: &[u8]) -> Result<Program, MakeFault>
    ensures reads { ReadsImage image.now result }
{
    match read_image(alloc, image) {
        Ok(program) => Ok(program),
        Err(ImageFault::Refused(fault)) => Err(MakeFault::Image(fault)),
        Err(ImageFault::Memory) => Err(MakeFault::Memory),
    }
}

// Both ends of a program over both sides of a ring.
fn ends_of(
    alloc: Global,
    program: Program,
    one: SharedSide,
    two: SharedSide,
) -> Result<(HeldEnd, HeldEnd), AllocError>
    ensures made { IfOk result (λ made. AreEndsOf (program_of program) one two made.0 made.1) }
{
    let again = program.duplicate(alloc)?;
    let first = HeldEnd::new(alloc, program, one)?;
    let second = HeldEnd::new(alloc, again, two)?;
    Ok((first, second))
}

/// Both ends of the interface that a text stands for, compiled under a plan, over a new ring with so many
/// slots each way.
///
/// # Errors
/// A ring can't have this number of slots (32); the text has a fault (1 to 21); out of memory (99).
pub fn text_ends(
    alloc: Global,
    text: &[u8],
    plan: PlanNo,
    slots: usize,
) -> Result<(HeldEnd, HeldEnd), MakeFault>
    ensures makes { MakesOfText plan text.now slots result }
{
    let (one, two) = match duo(alloc, slots) {
        Ok(sides) => sides,
        Err(RingFault::BadSize) => return Err(MakeFault::BadSize),
        Err(RingFault::Memory) => return Err(MakeFault::Memory),
    };
    let program = match text_program(alloc, text, plan) {
        Ok(program) => program,
        Err(MakeFault::Text { number, offset }) => return Err(MakeFault::Text { number, offset }),
        Err(_) => return Err(MakeFault::Memory),
    };
    match ends_of(alloc, program, one, two) {
        Ok(ends) => Ok(ends),
        Err(AllocError) => Err(MakeFault::Memory),
    }
}

/// Both ends of the program of an image, over a new ring with so many slots each way.
///
/// # Errors
/// A ring can't have this number of slots (32); the bytes are no image (80 to 85); out of memory (99).
pub fn image_ends(
    alloc: Global,
    image: &[u8],
    slots: usize,
) -> Result<(HeldEnd, HeldEnd), MakeFault>
    ensures makes { MakesOfImage image.now slots result }
{
    let (one, two) = match duo(alloc, slots) {
        Ok(sides) => sides,
        Err(RingFault::BadSize) => return Err(MakeFault::BadSize),
        Err(RingFault::Memory) => return Err(MakeFault::Memory),
    };
    let program = match image_program(alloc, image) {
        Ok(program) => program,
        Err(MakeFault::Image(fault)) => return Err(MakeFault::Image(fault)),
        Err(_) => return Err(MakeFault::Memory),
    };
    match ends_of(alloc, program, one, two) {
        Ok(ends) => Ok(ends),
        Err(AllocError) => Err(MakeFault::Memory),
    }
}
