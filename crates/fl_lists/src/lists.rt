//! The three lists over a table: a small one at first, and then a large one.

ghost use Rattle.std.specs.Prelude.{◌≡◌, ◌<◌, ◌≤◌, IfOk, IfSome, IsSome, MatchOption, OnOk, slice_get};
ghost use Rattle.fl_lists.specs.ThreeLists.{list_at, place_of, unlinked, pushed, moved, popped, empty, IsApart};
ghost use Rattle.fl_lists.specs.Table.{index_of, in_use, ChangesFew};

use crate::in_table::{first_of, move_last, place_in, push, push_wider, put_heads, unlink};
use crate::node::{FREE, Node};
use crate::place::Place;
use std::alloc::{AllocError, Global};
use std::marker::Model;

/// Three lists, idle, polled and pending, of the numbers below a size; each number is in one list
/// at most.
///
/// The heads of the lists come first in the table, and behind them the nodes of the numbers, so
/// that the lists of few low numbers lie side by side: the node after a head is the first of its
/// list, and the node before it is the last. So a number that is put in or taken out changes two
/// nodes beside its own (clauses `few`), and nothing is ever searched for.
///
/// While only numbers below `FEW` were ever put in, the table is a small one that lies where the
/// `Lists` itself lies, and no other memory is met. The first number that is put in above them
/// copies the small table's eight nodes to the large one, which is in use from then on. That call
/// too changes two nodes beside its own: the clauses `few` compare each node of the table in use
/// before with the node of the same index in the table in use after.
#[derive(Drop)]
pub struct Lists {
    // the table while `few`
    near: [Node; FEW + 3],
    few: bool,
    size: usize,
    // the table from then on; until then all of its nodes are free
    nodes: Vec<Node>,
}

impl Model for Lists {
    ghost use Rattle.fl_lists.specs.Table.{TheLists, seen_of, IsHeld};

    ghost Value = { TheLists };

    ghost view = { λ a. seen_of a.few a.near a.nodes.items a.size };

    ghost invariant = { λ a. IsHeld a.few a.near a.nodes.items a.size };
}

/// The most numbers: their nodes and the heads have indexes of 16 bits.
const MOST: usize = 65_533;

/// So many numbers have nodes that lie near.
const FEW: usize = 5;

// The table that is in use. It is chosen before it is read, so that calls one after another read it once.
#[inline(always)]
fn in_use<'a>(few: bool, near: &'a [Node], nodes: &'a [Node]) -> &'a [Node]
    ensures table { result.now ≡ in_use few near.now nodes.now }
{
    if few { near } else { nodes }
}

impl Lists {
    /// Empty lists of the numbers below `size`. No other call of `Lists` takes memory.
    ///
    /// # Errors
    /// Over 65,533 numbers, always and without asking for memory; or out of memory.
    pub fn new(alloc: Global, size: usize) -> Result<Lists, AllocError>
        ensures made { IfOk result (λ made. made.lists ≡ empty size) }
        ensures apart { IfOk result (λ made. IsApart made.lists) }
        ensures short { OnOk result (size ≤ 65533) }
    {
        if size > MOST {
            return Err(AllocError);
        }
        let len = size + 3;
        let mut nodes = vec![in alloc; FREE; len]?;
        let mut near = [FREE; FEW + 3];
        if size < FEW {
            put_heads(&mut nodes);
            return Ok(Lists {
                near,
                few: false,
                size,
                nodes,
            });
        }
        put_heads(&mut near);
        Ok(Lists {
            near,
            few: true,
            size,
            nodes,
        })
    }

    /// The nodes are the numbers below this.
    #[inline]
    pub fn size(&self) -> usize
        ensures size { result ≡ self.now.lists.size }
        ensures apart { IsApart self.now.lists }
    {
        self.size
    }

    /// The list that `c` is in; `None` where it is in none.
    #[inline]
    pub fn place_of(&self, c: usize) -> Option<Place>
        requires below { c < self.now.lists.size }
        ensures place { result ≡ place_of self.now.lists c }
        ensures apart { IsApart self.now.lists }
    {
        place_in(in_use(self.few, &self.near, self.nodes.as_slice()), c)
    }

    /// The first of a list; `None` where it is empty.
    #[inline]
    pub fn front(&self, place: Place) -> Option<usize>
        ensures first { result ≡ slice_get (list_at self.now.lists place) 0 }
        ensures within { IfSome result (λ c. c < self.now.lists.size) }
        ensures apart { IsApart self.now.lists }
    {
        first_of(in_use(self.few, &self.near, self.nodes.as_slice()), place)
    }

    /// Puts `c`, which is in no list, at the back of one.
    #[inline]
    pub fn push_back(&mut self, c: usize, place: Place)
        requires below { c < self.old.lists.size }
        requires free { place_of self.old.lists c ≡ None }
        ensures lists { self.new.lists ≡ pushed self.old.lists c place }
        ensures few { ChangesFew 2 (index_of c) self.old.table self.new.table }
        ensures apart { IsApart self.new.lists }
    {
        if !self.few {
            push(&mut self.nodes, c, place);
        } else if c < FEW {
            push(&mut self.near, c, place);
        } else {
            push_wider(&self.near, &mut self.nodes, c, place);
            self.few = false;
        }
    }

    /// Takes `c` out of the list that it is in.
    #[inline]
    pub fn unlink(&mut self, c: usize)
        requires below { c < self.old.lists.size }
        requires linked { IsSome (place_of self.old.lists c) }
        ensures lists { self.new.lists ≡ unlinked self.old.lists c }
        ensures few { ChangesFew 2 (index_of c) self.old.table self.new.table }
        ensures apart { IsApart self.new.lists }
    {
        if self.few {
            unlink(&mut self.near, c);
        } else {
            unlink(&mut self.nodes, c);
        }
    }

    /// Moves `c` from the list that it is in to the back of one, which may be the same.
    #[inline]
    pub fn move_to_back(&mut self, c: usize, place: Place)
        requires below { c < self.old.lists.size }
        requires linked { IsSome (place_of self.old.lists c) }
        ensures lists { self.new.lists ≡ moved self.old.lists c place }
        ensures few { ChangesFew 4 (index_of c) self.old.table self.new.table }
        ensures apart { IsApart self.new.lists }
    {
        if self.few {
            move_last(&mut self.near, c, place);
        } else {
            move_last(&mut self.nodes, c, place);
        }
    }

    /// Takes the first out of a list; `None` where it is empty.
    #[inline]
    pub fn pop_front(&mut self, place: Place) -> Option<usize>
        ensures first { result ≡ slice_get (list_at self.old.lists place) 0 }
        ensures within { IfSome result (λ c. c < self.old.lists.size) }
        ensures lists { self.new.lists ≡ popped self.old.lists place }
        ensures few { MatchOption result (self.new ≡ self.old) (λ c. ChangesFew 2 (index_of c) self.old.table self.new.table) }
        ensures apart { IsApart self.new.lists }
    {
        let first = self.front(place)?;
        self.unlink(first);
        Some(first)
    }
}
