//! Rooms for the fragments of calls under way at many places, all in one block of memory.

ghost use Rattle.std.specs.Prelude.{◌≡◌, ◌<◌, ◌++◌, ◌∷◌, [], length, List, OnOk, OnErr};
ghost use Rattle.fl_machine.specs.Rooms.{TheRoom, IsRooms, IsOpened, IsThere, LiesAt, rooms_of, not_there};

use fl_base::Frag;
use std::alloc::{AllocError, Global};

// Where a room lies: how many fragments it holds, and where in the block it begins, once it is there.
#[derive(Clone, Copy)]
pub(crate) struct RoomRange {
    size: usize,
    start: Option<usize>,
}

// Rooms for fragments at many places. Memory for a room is reserved when it is added, and is not touched before the room is opened.
#[derive(Drop)]
pub(crate) struct Rooms {
    // The rooms that are there, in the order in which they were opened.
    pub(crate) block: Vec<Frag>,
    spans: Vec<RoomRange>,
    // So many fragments hold the rooms that aren't there yet: there is memory for them behind those of the block.
    owed: usize,
}

impl Rooms {
    // No room yet. Takes no memory.
    pub(crate) fn new(alloc: Global) -> Rooms
        ensures rooms { IsRooms result }
        ensures none { rooms_of result ≡ [] }
    {
        Rooms {
            block: Vec::new(alloc),
            spans: Vec::new(alloc),
            owed: 0,
        }
    }

    // One room more, which isn't there yet.
    pub(crate) fn add(&mut self, size: usize) -> Result<(), AllocError>
        requires rooms { IsRooms self.old }
        ensures rooms { IsRooms self.new }
        ensures added { OnOk result (rooms_of self.new ≡ rooms_of self.old ++ not_there size ∷ []) }
        ensures kept { OnErr result (rooms_of self.new ≡ rooms_of self.old) }
    {
        let Some(owed) = self.owed.checked_add(size) else {
            return Err(AllocError);
        };
        self.block.reserve(owed)?;
        let Ok(()) = self.spans.push(RoomRange { size, start: None }) else {
            return Err(AllocError);
        };
        self.owed = owed;
        Ok(())
    }

    // Takes back the room that was added last. Where it is there its fragments stay in the block, and are nobody's.
    pub(crate) fn take_back(&mut self)
        requires rooms { IsRooms self.old }
        ensures rooms { IsRooms self.new }
        ensures before { (rooms : List TheRoom) (last : TheRoom) → rooms_of self.old ≡ rooms ++ last ∷ [] → rooms_of self.new ≡ rooms }
    {
        let Some(last) = self.spans.pop() else {
            return;
        };
        match last.start {
            None => self.owed -= last.size,
            Some(_) => {}
        }
    }

    // A room is there from now on.
    pub(crate) fn open(&mut self, place: usize)
        requires rooms { IsRooms self.old }
        requires there { place < length (rooms_of self.old) }
        ensures rooms { IsRooms self.new }
        ensures opened { IsOpened (rooms_of self.old) place (rooms_of self.new) }
    {
        let span = self.spans[place];
        let None = span.start else {
            return;
        };
        let start = self.block.len();
        let end = start + span.size;
        let empty = Frag {
            words: [0; 7],
            control: 0,
        };
        let Ok(()) = self.block.resize(end, empty) else {
            unreachable!();
        };
        self.owed -= span.size;
        self.spans[place] = RoomRange {
            size: span.size,
            start: Some(start),
        };
    }

    // Where in the block a room lies that is there: the place of its first fragment, and the place behind its last one.
    pub(crate) fn bounds(&self, place: usize) -> (usize, usize)
        requires rooms { IsRooms self.now }
        requires there { IsThere (rooms_of self.now) place }
        ensures lies { LiesAt self.now place result.0 result.1 }
    {
        let span = self.spans[place];
        let Some(start) = span.start else {
            unreachable!();
        };
        (start, start + span.size)
    }
}
