//! Built-in names, and lists of names.

ghost use Rattle.std.specs.Prelude.{◌≡◌, ◌++◌, ◌∷◌, [], map, length, IfOk, OnOk, not, true};
ghost use Rattle.std.specs.Str.{bytes_eq};
ghost use Rattle.fl_check.specs.Known.{scalar_named, is_string, is_capability, is_built_in};
ghost use Rattle.fl_interface.specs.Limits.{is_among};
ghost use Rattle.fl_check.specs.Views.{list_of, sorted_of, HaveSame};

use fl_interface::{Scalar, Word};
use fl_parse::Name;
use indexmap::IndexSet;
use std::alloc::{AllocError, Global};
use std::collections::BTreeSet;

/// The scalar type of a name.
#[tactic(auto, unfolding(crate::specs::Known::scalar_named), using(std::proofs::lemmas::Slice::Eq::text_from_reads))]
pub fn scalar_named(name: &[u8]) -> Option<Scalar>
    ensures exact { result ≡ scalar_named name.now }
{
    let kind = match name {
        b"uint8" => Scalar::Uint8,
        b"int8" => Scalar::Int8,
        b"bool" => Scalar::Bool,
        b"char" => Scalar::Char,
        b"uint16" => Scalar::Uint16,
        b"int16" => Scalar::Int16,
        b"uint32" => Scalar::Uint32,
        b"int32" => Scalar::Int32,
        b"iref" => Scalar::Iref,
        b"uint64" => Scalar::Uint64,
        b"int64" => Scalar::Int64,
        b"uintptr" => Scalar::Uintptr,
        b"intptr" => Scalar::Intptr,
        b"size" => Scalar::Size,
        b"errval" => Scalar::Errval,
        _ => return None,
    };
    Some(kind)
}

#[tactic(auto, unfolding(crate::specs::Known::is_string))]
pub fn is_string(name: &[u8]) -> bool
    ensures exact { result ≡ is_string name.now }
{
    name == b"string".as_slice()
}

#[tactic(auto, unfolding(crate::specs::Known::is_capability))]
pub fn is_capability(name: &[u8]) -> bool
    ensures exact { result ≡ is_capability name.now }
{
    name == b"cap".as_slice() || name == b"give_away_cap".as_slice()
}

/// Whether no declaration may take the name of a type.
#[tactic(auto, unfolding(crate::specs::Known::is_built_in))]
pub fn is_built_in(name: &[u8]) -> bool
    ensures exact { result ≡ is_built_in name.now }
{
    scalar_named(name).is_some() || (is_string(name) || is_capability(name))
}

/// Names that stand before, in order, none twice. They are few: a map of many could be made slow by names chosen to collide in it.
#[derive(Drop)]
pub struct DistinctNames<'a> {
    pub set: IndexSet<&'a [u8]>,
}

impl<'a> DistinctNames<'a> {
    pub fn new(alloc: Global) -> DistinctNames<'a>
        ensures none { list_of result ≡ [] }
    {
        DistinctNames {
            set: IndexSet::new(alloc),
        }
    }

    pub fn len(&self) -> usize
        ensures exact { result ≡ length (list_of self.now) }
    {
        self.set.len()
    }

    /// Adds a name, and says whether it is new. One look-up.
    pub fn add(&mut self, name: &'a [u8]) -> Result<bool, AllocError>
        ensures new { IfOk result (λ new. new ≡ not (is_among (list_of self.old) name.now)) }
        ensures more { IfOk result (λ new. new ≡ true → list_of self.new ≡ list_of self.old ++ name.now ∷ []) }
    {
        let new = self.set.insert(name)?;
        Ok(new)
    }
}

/// Names that stand before, however many, none twice. They are sorted: whatever they are, a look-up compares few of them.
#[derive(Drop)]
pub struct SortedNames<'a> {
    pub set: BTreeSet<&'a [u8]>,
}

impl<'a> SortedNames<'a> {
    pub fn new(alloc: Global) -> SortedNames<'a>
        ensures none { sorted_of result ≡ [] }
    {
        SortedNames {
            set: BTreeSet::new(alloc),
        }
    }

    /// Adds a name, and says whether it is new. One look-up.
    pub fn add(&mut self, name: &'a [u8]) -> Result<bool, AllocError>
        ensures new { IfOk result (λ new. new ≡ not (is_among (sorted_of self.old) name.now)) }
        ensures more { OnOk result (HaveSame (sorted_of self.new) (sorted_of self.old ++ name.now ∷ [])) }
    {
        let new = self.set.insert(name)?;
        Ok(new)
    }
}

/// A name of its own memory.
pub fn word_of(alloc: Global, name: &Name) -> Result<Word, AllocError>
    ensures equal { IfOk result (λ w. w.bytes.items ≡ name.now.text.now) }
{
    let bytes = name.text.to_vec(alloc)?;
    Ok(Word { bytes })
}

/// The bytes of a name and an ending behind it.
pub fn join(alloc: Global, text: &[u8], ending: &[u8]) -> Result<Vec<u8>, AllocError>
    ensures joined { IfOk result (λ bytes. bytes.items ≡ text.now ++ ending.now) }
{
    let mut bytes = text.to_vec(alloc)?;
    bytes.extend_from_slice(ending)?;
    Ok(bytes)
}
