//! What happened in a script's run, as a drawing tells it.

use fl_base::Side;
use std::collections::VecDeque;

/// Who acts: a dispatcher, by its place in order of making, or a core's monitor.
#[derive(Clone, Copy)]
pub(crate) enum Actor {
    Dispatcher(usize),
    Monitor(u32),
}

/// An actor in a row.
#[derive(Clone, Copy)]
pub(crate) struct Spot {
    pub row: usize,
    pub actor: Actor,
}

/// An end, by its binding's place.
#[derive(Clone, Copy)]
pub(crate) struct DrawnEnd {
    pub binding: usize,
    pub side: Side,
}

/// What a fragment carries.
#[derive(Clone, Copy)]
pub(crate) enum Carried {
    Call,
    Acknowledgement,
    MonitorMessage,
}

/// A fragment on its way: where it was put, and where it was taken, if it was.
#[derive(Clone, Copy)]
pub(crate) struct Passage {
    pub carried: Carried,
    pub from: Spot,
    /// Who is to take it.
    pub toward: Actor,
    /// The end that it goes to, if it carries a call.
    pub bound: Option<DrawnEnd>,
    pub taken: Option<usize>,
}

/// What a row is of.
#[derive(Clone, Copy)]
pub(crate) enum RowKind {
    Comment,
    Line,
}

/// A line of the script that has an answer, a whole block, or a comment.
#[derive(Clone, Copy)]
pub(crate) struct ChartRow<'a> {
    pub kind: RowKind,
    /// The line's number, from 1; a block's first.
    pub number: usize,
    /// The line without its end; of a block the interface's text.
    pub text: &'a [u8],
    pub answer: &'a [u8],
    pub actor: Option<Actor>,
    /// Who put what was taken in the row.
    pub source: Option<Actor>,
    /// Who is to take what was put in the row.
    pub goal: Option<Actor>,
}

/// A dispatcher: its name, and its core.
#[derive(Clone, Copy)]
pub(crate) struct DrawnDispatcher<'a> {
    pub name: &'a [u8],
    pub core: u32,
}

/// A whole run.
#[derive(Drop)]
pub(crate) struct Run<'a> {
    pub rows: Vec<ChartRow<'a>>,
    pub passages: Vec<Passage>,
    pub dispatchers: Vec<DrawnDispatcher<'a>>,
    /// The cores that a link joins to another, whose monitors have lanes.
    pub linked: Vec<u32>,
}

/// The passages that stand in a queue or ring, the first put first, by their places.
pub(crate) type Queue = VecDeque<usize>;
