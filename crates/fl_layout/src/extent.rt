//! What a plan keeps of an argument.

ghost use Rattle.std.specs.Prelude.{◌≡◌};
ghost use Rattle.fl_layout.specs.Extents.{is_varying, unit_of};

/// An argument's extent in a payload and on a tape.
#[derive(Clone, Copy, Debug)]
pub(crate) enum Extent {
    /// So many bytes, at a multiple of an alignment, with so many numbers.
    Fixed {
        size: u32,
        align: u32,
        numbers: u32,
    },
    /// A string of at most so many bytes.
    Text {
        most: u32,
    },
    /// At most so many elements of one size, each with so many numbers.
    Sized {
        most: u32,
        stride: u32,
        numbers: u32,
    },
}

impl Extent {
    /// Whether it is that of a string or a sized array.
    pub(crate) fn is_varying(self) -> bool
        ensures exact { result ≡ is_varying self }
    {
        match self {
            Extent::Fixed { .. } => false,
            _ => true,
        }
    }

    /// The bytes of a fixed argument, of a sized array's element, and of a string's.
    pub(crate) fn unit(self) -> usize
        ensures exact { result ≡ unit_of self }
    {
        match self {
            Extent::Fixed { size, .. } => size as usize,
            Extent::Text { .. } => 1,
            Extent::Sized { stride, .. } => stride as usize,
        }
    }
}

/// An argument, by its number among those of its message, and its extent.
#[derive(Clone, Copy, Debug)]
pub(crate) struct PlacedArg {
    pub argument: u32,
    pub extent: Extent,
}

/// How far strings and sized arrays are filled.
#[derive(Clone, Copy)]
pub(crate) enum Fill {
    Empty,
    Full,
}
