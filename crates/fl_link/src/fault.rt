//! Why a call of a link is refused.

ghost use Rattle.std.specs.Prelude.{◌≡◌};
ghost use Rattle.fl_link.specs.Faults.{put_number, link_number};

use thiserror::Error;

/// Why nothing was put. What the side may have learned all the same, as a count that was told, its relation says.
#[derive(Clone, Copy, Debug, PartialEq, Eq, Error)]
pub enum PutFault {
    /// Too few slots are free (E30).
    #[error("the link is full")]
    Full,
    /// The link has carried 2^62 fragments, and carries no more (E33).
    #[error("the link has carried as many fragments as it can count")]
    Spent,
}

impl PutFault {
    /// The fault's number, 30 or 33.
    pub fn number(self) -> u8
        ensures number { result ≡ put_number self }
    {
        match self {
            PutFault::Full => 30,
            PutFault::Spent => 33,
        }
    }
}

/// Why no link was made.
#[derive(Clone, Copy, Debug, PartialEq, Eq, Error)]
pub enum LinkFault {
    /// A link may not have this number of slots (E32).
    #[error("a link can't have this number of slots")]
    BadSize,
    /// There is no memory for the slots (E99).
    #[error("no memory for the slots of a link")]
    Memory,
}

impl LinkFault {
    /// The fault's number, 32 or 99.
    pub fn number(self) -> u8
        ensures number { result ≡ link_number self }
    {
        match self {
            LinkFault::BadSize => 32,
            LinkFault::Memory => 99,
        }
    }
}
