//! Why bytes are no image.

ghost use Rattle.std.specs.Prelude.{◌≡◌};
ghost use Rattle.fl_image.specs.declared.fault.ImageFault.TheVariants.{Memory};
ghost use Rattle.fl_image.specs.Outcome.{refusal_number, fault_number};

use std::alloc::{AllocError, AllocFailed};
use thiserror::Error;

/// What is wrong with the bytes: the first fault from front to back.
#[derive(Clone, Copy, Debug, PartialEq, Eq, Drop, Error)]
pub enum BadImage {
    /// The first four bytes aren't `FLND`: fault 80.
    #[error("not an image: it doesn't begin with FLND")]
    OtherMagic,
    /// A version other than 1 and 2: fault 81.
    #[error("an image of another version: only versions 1 and 2 are known")]
    OtherVersion,
    /// The bytes end inside a field, or where one is due: fault 82.
    #[error("the image ends early: it was cut, or not written whole")]
    EndsEarly,
    /// A name, count, type, op or operand out of its range, or an interface that breaks a limit: fault 83.
    #[error("a name, number, type or instruction of the image is out of its range, or its interface breaks a limit")]
    BadField,
    /// Code that isn't what the compiler gives for the types: fault 84.
    #[error("the image's code isn't what the compiler gives for its interface; make the image anew from the text")]
    OtherCode,
    /// Bytes behind the last field: fault 85.
    #[error("bytes are left over behind the image's last field")]
    BytesLeftOver,
}

/// Why there is no program.
#[derive(Clone, Copy, Debug, PartialEq, Eq, Drop, Error)]
pub enum ImageFault {
    /// The bytes are no image.
    #[error("{0}")]
    Refused(BadImage),
    /// Memory ran out: fault 99.
    #[error("out of memory")]
    Memory,
}

impl BadImage {
    /// The fault's number, as answers show it.
    pub fn number(self) -> u8
        ensures number { result ≡ refusal_number self }
    {
        match self {
            BadImage::OtherMagic => 80,
            BadImage::OtherVersion => 81,
            BadImage::EndsEarly => 82,
            BadImage::BadField => 83,
            BadImage::OtherCode => 84,
            BadImage::BytesLeftOver => 85,
        }
    }
}

impl ImageFault {
    /// The fault's number, as answers show it.
    pub fn number(self) -> u8
        ensures number { result ≡ fault_number self }
    {
        match self {
            ImageFault::Refused(refusal) => refusal.number(),
            ImageFault::Memory => 99,
        }
    }
}

impl From<AllocError> for ImageFault {
    ghost from_gives = { λ _ e. e ≡ Memory };

    fn from(_error: AllocError) -> ImageFault {
        ImageFault::Memory
    }
}

impl<T: Drop> From<AllocFailed<T>> for ImageFault {
    ghost from_gives = { λ _ e. e ≡ Memory };

    fn from(_error: AllocFailed<T>) -> ImageFault {
        ImageFault::Memory
    }
}
