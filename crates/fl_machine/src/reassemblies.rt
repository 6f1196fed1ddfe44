//! Calls that are put together again from their fragments, at many places.

ghost use Rattle.std.specs.Prelude.{◌≡◌, ◌<◌, ◌++◌, ◌∷◌, [], length, List, OnOk, OnErr};
ghost use Rattle.fl_compile.specs.Programs.{program_of};
ghost use Rattle.fl_machine.specs.Receiving.{HoldsParts};
ghost use Rattle.fl_machine.specs.Reassembling.{TheReassembly, Takes, ChangesPlace, new_reassembly, without_parts};
ghost use Rattle.fl_machine.specs.Places.{ArePlaces, IsBetween, IsInside, reassemblies};
ghost use Rattle.fl_machine.specs.Rooms.{IsThere, rooms_of};

use crate::reassembly::{Assembly, TakeFault, Taken, has_few_args, tell, tell_alone, tell_number};
use crate::recv::begin_straight;
use crate::rooms::Rooms;
use fl_base::Frag;
use fl_compact_calls::NumberCall;
use fl_compile::Program;
use fl_compile_tape::ReadingRoom;
use fl_value_data::Call;
use std::alloc::{AllocError, Global};
use std::marker::Model;
use std::mem;

// What is stored at all places. A place's room is there once a call came that wants one: most calls of one fragment don't.
#[derive(Drop)]
pub(crate) struct ReassemblyPlaces {
    alloc: Global,
    places: Vec<Assembly>,
    rooms: Rooms,
    // Where the numbers of one fragment are put: at most one a byte.
    numbers: [u64; 56],
    // Where calls of several fragments are read.
    reading: ReadingRoom,
    // The memory of a call that was done with: the next call that is read as a list takes it; it is given up where that call is held
    // as its number.
    spare: Option<Box<Call>>,
    // For contracts: where a call of one number is made. It is there once there is a place.
    number: Option<NumberCall>,
}

/// Calls that are put together again from their fragments, at many places: each has a program, and of its call under way the
/// fragments so far.
#[derive(Drop)]
pub struct Reassemblies {
    stored: ReassemblyPlaces,
}

impl Model for Reassemblies {
    ghost use Rattle.std.specs.Prelude.{List};
    ghost use Rattle.std.specs.Coded.{codes};
    ghost use Rattle.fl_compile.specs.contracts.program.Program.{the_row};
    ghost use Rattle.fl_machine.specs.Reassembling.{TheReassembly};
    ghost use Rattle.fl_machine.specs.Reassembled.{reassemblies_of, AreReassemblies};

    ghost Value = { List TheReassembly };

    ghost coded = { Prim.hlevel (codes, the_row.coded) };

    ghost view = { reassemblies_of };

    ghost invariant = { AreReassemblies };
}

// Where a call of one number is made, is there.
fn make_number(alloc: Global, number: &mut Option<NumberCall>) -> Result<(), AllocError> {
    if number.is_none() {
        *number = Some(NumberCall::new(alloc)?);
    }
    Ok(())
}

impl ReassemblyPlaces {
    // One place more.
    fn add(&mut self, program: Program, capacity: usize) -> Result<(), AllocError>
        requires are { ArePlaces self.old }
        requires room { HoldsParts (program_of program).plan (program_of program).interface capacity }
        ensures are { ArePlaces self.new }
        ensures added { OnOk result (reassemblies self.new ≡ reassemblies self.old ++ new_reassembly program ∷ []) }
        ensures kept { OnErr result (reassemblies self.new ≡ reassemblies self.old) }
    {
        make_number(self.alloc, &mut self.number)?;
        self.places.reserve(1)?;
        self.rooms.add(capacity)?;
        self.places.push_reserved(Assembly {
            program,
            begun: None,
        });
        Ok(())
    }

    // Takes back the last place.
    fn take_back(&mut self)
        requires are { ArePlaces self.old }
        requires some { 0 < length (reassemblies self.old) }
        ensures are { ArePlaces self.new }
        ensures before { (places : List TheReassembly) (last : TheReassembly) → reassemblies self.old ≡ places ++ last ∷ [] → reassemblies self.new ≡ places }
    {
        self.places.pop();
        self.rooms.take_back();
    }

    // Takes a fragment at a place whose room is there.
    #[inline(always)]
    fn take_there(&mut self, place: usize, frag: &Frag) -> Result<Taken, TakeFault>
        requires are { ArePlaces self.old }
        requires there { IsThere (rooms_of self.old.rooms) place }
        ensures are { ArePlaces self.new }
        ensures takes { ChangesPlace (reassemblies self.old) place (λ s t. Takes s frag.now result t) (reassemblies self.new) }
    {
        let alloc = self.alloc;
        let (start, end) = self.rooms.bounds(place);
        let at = &mut self.places[place];
        at.take_on(
            alloc,
            &mut self.numbers,
            &mut self.rooms.block[start..end],
            &mut self.reading,
            &mut self.spare,
            frag,
        )
    }

    // Takes a fragment of the call under way.
    #[inline(always)]
    fn take_next(&mut self, place: usize, frag: &Frag) -> Result<Taken, TakeFault>
        requires are { ArePlaces self.old }
        requires under_way { IsInside self.old place }
        ensures are { ArePlaces self.new }
        ensures takes { ChangesPlace (reassemblies self.old) place (λ s t. Takes s frag.now result t) (reassemblies self.new) }
    {
        self.take_there(place, frag)
    }

    // Takes a fragment between two calls, in the place's room. Out of line, so that a call of one fragment has nothing of it.
    #[inline(never)]
    fn take_begun(&mut self, place: usize, frag: &Frag) -> Result<Taken, TakeFault>
        requires are { ArePlaces self.old }
        requires between { IsBetween self.old place }
        ensures are { ArePlaces self.new }
        ensures takes { ChangesPlace (reassemblies self.old) place (λ s t. Takes s frag.now result t) (reassemblies self.new) }
    {
        self.rooms.open(place);
        self.take_there(place, frag)
    }

    // Takes a fragment between two calls. Where its call has few arguments it is mostly all of it, and there are no loops: then it is
    // read without the room, which lies in memory that is seldom touched.
    #[inline(always)]
    fn take_first(&mut self, place: usize, frag: &Frag) -> Result<Taken, TakeFault>
        requires are { ArePlaces self.old }
        requires between { IsBetween self.old place }
        ensures are { ArePlaces self.new }
        ensures takes { ChangesPlace (reassemblies self.old) place (λ s t. Takes s frag.now result t) (reassemblies self.new) }
    {
        let program = &self.places[place].program;
        if let Some(taken) = tell_alone(program, &mut self.number, frag) {
            return Ok(taken);
        }
        if !has_few_args(program, frag) {
            return self.take_begun(place, frag);
        }
        let mut numbers = [0; 8];
        let Some(ended) = begin_straight(program, &mut numbers, frag) else {
            return self.take_begun(place, frag);
        };
        if let Some(taken) = tell_number(program, &mut self.number, ended, &numbers, frag) {
            return Ok(taken);
        }
        let room = mem::replace(&mut self.spare, None);
        tell(self.alloc, room, program, ended, &numbers, frag)
    }

    // Takes a fragment at a place.
    #[inline(always)]
    fn take(&mut self, place: usize, frag: &Frag) -> Result<Taken, TakeFault>
        requires are { ArePlaces self.old }
        requires there { place < length (reassemblies self.old) }
        ensures are { ArePlaces self.new }
        ensures takes { ChangesPlace (reassemblies self.old) place (λ s t. Takes s frag.now result t) (reassemblies self.new) }
    {
        match self.places[place].begun {
            Some(_) => self.take_next(place, frag),
            None => self.take_first(place, frag),
        }
    }

    // Done with the call under way at a place.
    #[inline(always)]
    fn finish(&mut self, place: usize)
        requires are { ArePlaces self.old }
        requires there { place < length (reassemblies self.old) }
        ensures are { ArePlaces self.new }
        ensures finished { ChangesPlace (reassemblies self.old) place (λ s t. t ≡ without_parts s) (reassemblies self.new) }
    {
        let at = &mut self.places[place];
        at.finish();
    }
}

impl Reassemblies {
    /// No place yet. Takes no memory.
    pub fn new(alloc: Global) -> Reassemblies
        ensures none { result ≡ [] }
    {
        Reassemblies {
            stored: ReassemblyPlaces {
                alloc,
                places: Vec::new(alloc),
                rooms: Rooms::new(alloc),
                numbers: [0; 56],
                reading: ReadingRoom::new(alloc),
                spare: None,
                number: None,
            },
        }
    }

    /// How many places there are.
    pub fn len(&self) -> usize
        ensures length { result ≡ length self.now }
    {
        self.stored.places.len()
    }

    /// One place more, between two calls of a program. `capacity` is how many fragments a call may have: at least as many as
    /// any call (`fl_layout` tells the greatest payload of each message). Of the memory that is taken for them nothing is touched
    /// before a call comes that has several fragments, many arguments or loops.
    ///
    /// # Errors
    /// Out of memory (E99), and nothing else. Nothing changes then.
    pub fn add(&mut self, program: Program, capacity: usize) -> Result<(), AllocError>
        requires room { HoldsParts (program_of program).plan (program_of program).interface capacity }
        ensures added { OnOk result (self.new ≡ self.old ++ new_reassembly program ∷ []) }
        ensures kept { OnErr result (self.new ≡ self.old) }
    {
        self.stored.add(program, capacity)
    }

    /// Takes back the place that was added last.
    pub fn take_back(&mut self)
        requires some { 0 < length self.old }
        ensures before { (places : List TheReassembly) (last : TheReassembly) → self.old ≡ places ++ last ∷ [] → self.new ≡ places }
    {
        self.stored.take_back();
    }

    /// Takes a fragment at a place, whatever its epoch and the count that it tells. One that is the last of its call gives the call,
    /// which stays under way until [`Reassemblies::finish`]: so until then the fragment may as well not have come. Takes memory
    /// for that call, and, where it is the longest so far of several fragments, for reading it.
    ///
    /// # Errors
    /// The first fault of a fragment that can't follow those of the call under way, as of [`RecvRun::feed`](crate::RecvRun::feed);
    /// or memory ran out for a call that is whole (E99). Nothing changes.
    #[inline]
    pub fn take(&mut self, place: usize, frag: &Frag) -> Result<Taken, TakeFault>
        requires there { place < length self.old }
        ensures takes { ChangesPlace self.old place (λ s t. Takes s frag.now result t) self.new }
        ensures kept { OnErr result (self.new ≡ self.old) }
    {
        self.stored.take(place, frag)
    }

    /// Takes back the memory of a call that was done with: the next call that is read as a list takes it, and its values are dropped
    /// then. Where that call is held as its number, the memory is given up.
    #[inline(always)]
    pub fn give_back(&mut self, call: Box<Call>)
        ensures same { self.new ≡ self.old }
    {
        self.stored.spare = Some(call);
    }

    /// Done with the call under way at a place: the next fragment there is to begin another.
    #[inline]
    pub fn finish(&mut self, place: usize)
        requires there { place < length self.old }
        ensures finished { ChangesPlace self.old place (λ s t. t ≡ without_parts s) self.new }
    {
        self.stored.finish(place);
    }
}
