//! Going over all registrations, in order.

ghost use Rattle.std.specs.Prelude.{◌≡◌, ◌+◌, ◌<◌, ◌≤◌, ◌^◌, length};
ghost use Rattle.std.specs.Iterator.{at_most};
ghost use Rattle.std.specs.Map.Iter.{TakesFirst};
ghost use Rattle.fl_nameserv.specs.Lent.{registration_of};
ghost use Rattle.fl_nameserv.specs.Numbered.{numbered_from};

use crate::registration::{Registration, Service};
use indexmap::map;
use std::iter::FusedIterator;
use std::marker::Model;

/// The registrations of a table that are left, in order. From `Names::list`.
#[derive(Drop)]
pub struct Registrations<'a> {
    entries: map::Iter<'a, Vec<u8>, Service>,
    place: usize,
}

impl<'a> Model for Registrations<'a> {
    ghost use Rattle.std.specs.Prelude.{List, ◌+◌, ◌<◌, ◌^◌, length};
    ghost use Rattle.fl_nameserv.specs.Registrations.{TheRegistration};
    ghost use Rattle.fl_nameserv.specs.Numbered.{numbered_from};

    ghost Value = { List TheRegistration };

    ghost view = { λ a. numbered_from a.place a.entries };

    ghost invariant = { λ a. a.place + length a.entries < 2 ^ 32 };
}

impl<'a> Registrations<'a> {
    /// The registrations of all entries of a table.
    pub(crate) fn new(entries: map::Iter<'a, Vec<u8>, Service>) -> Registrations<'a>
        requires few { length entries < 2 ^ 32 }
        ensures all { result ≡ numbered_from 0 entries.entry }
    {
        Registrations { entries, place: 0 }
    }
}

impl<'a> Iterator for Registrations<'a> {
    type Item = Registration<'a>;

    ghost next_gives = { TakesFirst registration_of };

    ghost remaining = { λ s. at_most (length s) };

    fn next(&mut self) -> Option<Registration<'a>> {
        let (name, service) = self.entries.next()?;
        let place = self.place;
        self.place += 1;
        Some(Registration::at(place, name, service))
    }

    fn size_hint(&self) -> (usize, Option<usize>) {
        let len = self.len();
        (len, Some(len))
    }
}

impl<'a> ExactSizeIterator for Registrations<'a> {
    fn len(&self) -> usize {
        self.entries.len()
    }
}

impl<'a> FusedIterator for Registrations<'a> {}
