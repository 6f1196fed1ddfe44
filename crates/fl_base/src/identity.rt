//! Numbers with a meaning of their own, so that none is taken for another.

ghost use Rattle.std.specs.Prelude.{◌≡◌};
ghost use Rattle.fl_base.specs.Ends.{other, peer};

/// A core of the machine, from 0.
#[derive(Clone, Copy, Debug, PartialEq, Eq, PartialOrd, Ord, Hash)]
pub struct CoreId(pub u8);

/// A channel of one dispatcher's waitset, from 0.
#[derive(Clone, Copy, Debug, PartialEq, Eq, PartialOrd, Ord, Hash)]
pub struct ChanId(pub u16);

/// A link between two cores, by its place among the links of whoever speaks of it, from 0 in order of making.
#[derive(Clone, Copy, Debug, PartialEq, Eq, PartialOrd, Ord, Hash)]
pub struct LinkId(pub u16);

/// A circuit's number on one link; 0 stands for the monitors' own messages and off links.
#[derive(Clone, Copy, Debug, PartialEq, Eq, PartialOrd, Ord, Hash)]
pub struct Circuit(pub u16);

/// An interface reference, as the name service gives them, from 1.
#[derive(Clone, Copy, Debug, PartialEq, Eq, PartialOrd, Ord, Hash)]
pub struct IRef(pub u32);

/// A message of an interface, from 0 in order of declaration.
#[derive(Clone, Copy, Debug, PartialEq, Eq, PartialOrd, Ord, Hash)]
pub struct MsgNo(pub u16);

/// One of a binding's two ends: the client's, or the service's.
#[derive(Clone, Copy, Debug, PartialEq, Eq)]
pub enum Side {
    /// The end that asked for the binding: `NAME.c`.
    Client,
    /// The end of the service: `NAME.s`.
    Server,
}

impl Side {
    /// The other end's side.
    pub fn other(self) -> Side
        ensures { result ≡ other self }
    {
        match self {
            Side::Client => Side::Server,
            Side::Server => Side::Client,
        }
    }
}

/// An end: of which binding, from 0 in order of accepted binds, and on which side.
#[derive(Clone, Copy, Debug, PartialEq, Eq)]
pub struct EndId {
    /// The number of its binding, from 0.
    pub binding: usize,
    /// Whether it is the client's end or the service's.
    pub side: Side,
}

impl EndId {
    /// The binding's other end.
    pub fn peer(self) -> EndId
        ensures { result ≡ peer self }
    {
        EndId {
            binding: self.binding,
            side: self.side.other(),
        }
    }
}

/// A stretch of a text: the bytes from `start` up to, and without, `end`.
#[derive(Clone, Copy, Debug, PartialEq, Eq)]
pub struct Span {
    /// The place of its first byte, from 0.
    pub start: usize,
    /// The place behind its last byte; `start` where it is empty.
    pub end: usize,
}
