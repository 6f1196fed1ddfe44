//! Why a command asks nothing of the machine.

ghost use Rattle.std.specs.Prelude.{◌≡◌};
ghost use Rattle.fl_script_lines.specs.Faults.{number_of, refusal_of};

use thiserror::Error;

/// Why a command asks nothing of the machine.
#[derive(Clone, Copy, Debug, PartialEq, Eq, Drop, Error)]
pub enum LineFault {
    /// The line is nothing that is read (E90).
    #[error("this is no line of a script")]
    Unread,
    /// The text behind an end is no call's text (E90).
    #[error("this is no call")]
    NotACall,
    /// A name is unknown, or taken (E92).
    #[error("a name is unknown or taken")]
    Name,
    /// The interface of the end has no such message (E41).
    #[error("there is no such message")]
    NoSuchMessage,
    /// Memory was refused (E99).
    #[error("out of memory")]
    Memory,
}

impl LineFault {
    /// The fault's number.
    pub fn number(self) -> u8
        ensures number { result ≡ number_of self }
    {
        match self {
            LineFault::Unread => 90,
            LineFault::NotACall => 90,
            LineFault::Name => 92,
            LineFault::NoSuchMessage => 41,
            LineFault::Memory => 99,
        }
    }

    /// The number with which a command is refused for it: none where memory ran out.
    pub fn refusal(self) -> Option<u8>
        ensures number { result ≡ refusal_of self }
    {
        match self {
            LineFault::Memory => None,
            fault => Some(fault.number()),
        }
    }
}
