//! Why nothing is shown.

ghost use Rattle.std.specs.Prelude.{◌≡◌};
ghost use Rattle.flounder_show.specs.Content.{status_of};
ghost use Rattle.flounder_show.specs.declared.fault.ShowFault.TheVariants.{Memory};

use fl_check::Explained;
use std::alloc::AllocError;
use std::fmt;
use thiserror::Error;

/// A text that is no interface. It is printed as two lines or three: the number and the offset of the first
/// fault alone, then the fault in words with its line and column, then what stands there.
#[derive(Clone, Copy, Debug, PartialEq, Eq)]
pub struct TextRefusal<'a> {
    /// The text's first fault, with its line and column.
    pub explained: Explained,
    /// The fault's place in bytes from the text's start.
    pub offset: usize,
    /// What stands at the fault, to the end of its line, 40 bytes at most.
    pub found: &'a [u8],
}

impl fmt::Display for TextRefusal<'_> {
    fn fmt<W: fmt::Write>(&self, f: &mut fmt::Formatter<W>) -> fmt::Result {
        let number = self.explained.fault.number();
        let offset = self.offset;
        let explained = self.explained;
        write!(f, "E{number} at {offset}\n{explained}")?;
        if !self.found.is_empty() {
            let found = self.found.escape_ascii();
            write!(f, "\nfound there: {found}")?;
        }
        Ok(())
    }
}

/// Bytes that are meant as an image and are none. It is printed as two lines: the number of the first fault alone, as
/// `E82`, then the fault in words.
#[derive(Clone, Copy, Debug, PartialEq, Eq)]
pub struct ImageRefusal {
    /// The first fault of the bytes.
    pub fault: fl_image::BadImage,
}

impl fmt::Display for ImageRefusal {
    fn fmt<W: fmt::Write>(&self, f: &mut fmt::Formatter<W>) -> fmt::Result {
        let fault = self.fault;
        let number = fault.number();
        write!(f, "E{number}\n{fault}")
    }
}

/// Why a file's content shows nothing, or has no image.
#[derive(Clone, Copy, Debug, PartialEq, Eq, Error)]
pub enum ShowFault<'a> {
    /// The text is refused, for a fault of E1 to E21.
    #[error("{0}")]
    Refused(TextRefusal<'a>),
    /// The image is refused, for a fault of E80 to E85.
    #[error("{0}")]
    NoImage(ImageRefusal),
    /// Out of memory (E99).
    #[error("out of memory")]
    Memory,
}

impl ShowFault<'_> {
    /// The status with which a program ends that met it.
    pub fn status(self) -> u8
        ensures status { result ≡ status_of self.entry }
    {
        match self {
            ShowFault::Refused(_) => 2,
            ShowFault::NoImage(_) => 2,
            ShowFault::Memory => 3,
        }
    }
}

impl From<AllocError> for ShowFault<'_> {
    ghost from_gives = { λ _ e. e ≡ Memory };

    fn from(_error: AllocError) -> Self {
        ShowFault::Memory
    }
}
