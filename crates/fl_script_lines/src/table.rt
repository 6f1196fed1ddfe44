//! A list of names, which is asked from its front where they are few, and else by a map.

ghost use Rattle.std.specs.Prelude.{◌≡◌, ◌++◌, ◌∷◌, [], OnOk, OnErr, None, option_map, slice_get, map};
ghost use Rattle.std.specs.Str.{bytes_eq};
ghost use Rattle.fl_script_lines.specs.Names.{place_of};
ghost use Rattle.fl_script_lines.specs.Tables.{table_of};

use indexmap::IndexSet;
use std::alloc::{AllocError, Global};

// A table of no more names than these is read from its front: that takes less time than to ask the map.
const FEW: usize = 8;

// Whether two names are the same. Most that differ have other lengths, or differ in a first byte.
#[inline(always)]
fn is_same(name: &[u8], other: &[u8]) -> bool
    ensures same { result ≡ bytes_eq name.now other.now }
{
    if name.len() != other.len() {
        return false;
    }
    for (place, byte) in name.iter().enumerate() {
        if *byte != other[place] {
            return false;
        }
    }
    true
}

// The place of a name, found from the front.
#[inline(always)]
fn place_among(names: &[Vec<u8>], name: &[u8]) -> Option<usize>
    ensures place { result ≡ place_of name.now (map (λ n. n.items) names.now) }
{
    let mut rest = names;
    let mut place = 0;
    while let [first, behind @ ..] = rest {
        if is_same(name, first) {
            return Some(place);
        }
        rest = behind;
        place += 1;
    }
    None
}

/// Names in order of making, none twice. A look-up takes no memory, and where there are many names no search.
#[derive(Drop)]
pub struct NameTable {
    /// The names, each at its place, from 0 in order of making.
    pub set: IndexSet<Vec<u8>>,
}

impl NameTable {
    /// No names. Takes no memory.
    pub fn new(alloc: Global) -> NameTable
        ensures none { table_of result ≡ [] }
    {
        NameTable {
            set: IndexSet::new(alloc),
        }
    }

    // The place of a name, asked of the map.
    #[inline(never)]
    fn find_by_map(&self, name: &[u8]) -> Option<usize>
        ensures place { result ≡ place_of name.now (table_of self.now) }
    {
        self.set.get_index_of(name)
    }

    /// The place of a name.
    #[inline]
    pub fn find(&self, name: &[u8]) -> Option<usize>
        ensures place { result ≡ place_of name.now (table_of self.now) }
    {
        let names = self.set.as_slice();
        if names.len() <= FEW {
            return place_among(names, name);
        }
        self.find_by_map(name)
    }

    /// The place of a name, looked for at a guessed place first: scripts say a name several times in a row.
    #[inline]
    pub fn find_near(&self, name: &[u8], guess: usize) -> Option<usize>
        ensures place { result ≡ place_of name.now (table_of self.now) }
    {
        let names = self.set.as_slice();
        if names.len() <= FEW {
            return place_among(names, name);
        }
        if let Some(guessed) = names.get(guess) {
            if is_same(name, guessed) {
                return Some(guess);
            }
        }
        self.find_by_map(name)
    }

    /// The name at a place.
    #[inline]
    pub fn get(&self, place: usize) -> Option<&[u8]>
        ensures name { option_map (λ n. n.now) result ≡ slice_get (table_of self.now) place }
    {
        match self.set.get_index(place) {
            None => None,
            Some(name) => Some(name.as_slice()),
        }
    }

    /// Puts a new name at the end.
    ///
    /// # Errors
    /// Out of memory; the table is as it was.
    pub fn add(&mut self, alloc: Global, name: &[u8]) -> Result<(), AllocError>
        requires { place_of name.now (table_of self.old) ≡ None }
        ensures added { OnOk result (table_of self.new ≡ table_of self.old ++ name.now ∷ []) }
        ensures kept { OnErr result (table_of self.new ≡ table_of self.old) }
    {
        let name = Vec::from_slice(alloc, name)?;
        self.set.insert(name)?;
        Ok(())
    }
}

/// The names of an interface: its own, and those of its messages, by number.
#[derive(Drop)]
pub struct InterfaceNames {
    /// The interface's own name.
    pub name: Vec<u8>,
    /// Its messages' names, each at the place that is its number.
    pub messages: NameTable,
}
