//! The three lists in one table of nodes: what each call of `Lists` does with the table that it chooses.

ghost use Rattle.std.specs.Prelude.{◌≡◌, ◌<◌, ◌≤◌, ◌-◌, length, IsSome, slice_get};
ghost use Rattle.fl_lists.specs.ThreeLists.{list_at, place_of, unlinked, pushed, moved, empty};
ghost use Rattle.fl_lists.specs.Table.{head_of, index_of, lists_of, sized, AllFree, IsTable, SameNodes, ChangesFew};

use crate::node::{Node, head, move_before, put_before, take_out};
use crate::place::Place;

/// The index of the head of a list.
#[inline]
fn head_index(place: Place) -> u16
    ensures index { result ≡ head_of place }
    ensures within { result < 3 }
{
    match place {
        Place::Idle => 0,
        Place::Polled => 1,
        Place::Pending => 2,
    }
}

/// The index of the node of a number.
#[inline]
fn node_index(c: usize) -> u16
    requires short { c < 65533 }
    ensures index { result ≡ index_of c }
{
    (c + 3) as u16
}

/// Writes the heads of three empty lists.
pub fn put_heads(nodes: &mut [Node])
    requires heads { 3 ≤ length nodes.old }
    requires short { length nodes.old ≤ 65536 }
    requires free { AllFree nodes.old }
    ensures table { IsTable nodes.new }
    ensures lists { lists_of nodes.new ≡ empty (length nodes.old - 3) }
{
    nodes[0] = head(0, Place::Idle);
    nodes[1] = head(1, Place::Polled);
    nodes[2] = head(2, Place::Pending);
}

/// The list that `c` is in; `None` where it is in none, or past the table.
#[inline]
pub fn place_in(nodes: &[Node], c: usize) -> Option<Place>
    requires table { IsTable nodes.now }
    requires short { c < 65533 }
    ensures place { result ≡ place_of (lists_of nodes.now) c }
{
    let at = usize::from(node_index(c));
    if at < nodes.len() {
        nodes[at].place
    } else {
        None
    }
}

/// The first of a list; `None` where it is empty.
#[inline]
pub fn first_of(nodes: &[Node], place: Place) -> Option<usize>
    requires table { IsTable nodes.now }
    ensures first { result ≡ slice_get (list_at (lists_of nodes.now) place) 0 }
{
    let head = head_index(place);
    let first = nodes[usize::from(head)].next;
    if first == head {
        return None;
    }
    Some(usize::from(first) - 3)
}

/// Puts `c`, which is in no list, at the back of one.
#[inline]
pub fn push(nodes: &mut [Node], c: usize, place: Place)
    requires table { IsTable nodes.old }
    requires below { c < length nodes.old - 3 }
    requires free { place_of (lists_of nodes.old) c ≡ None }
    ensures table { IsTable nodes.new }
    ensures lists { lists_of nodes.new ≡ pushed (lists_of nodes.old) c place }
    ensures few { ChangesFew 2 (index_of c) nodes.old nodes.new }
{
    let head = head_index(place);
    put_before(nodes, node_index(c), head, place);
}

/// Copies a table to the front of a longer one, in which nothing stands.
fn widen(near: &[Node], nodes: &mut [Node])
    requires table { IsTable near.now }
    requires longer { length near.now ≤ length nodes.old }
    requires short { length nodes.old ≤ 65536 }
    requires nothing { AllFree nodes.old }
    ensures table { IsTable nodes.new }
    ensures lists { lists_of nodes.new ≡ sized (length nodes.old - 3) (lists_of near.now) }
    ensures same { SameNodes near.now nodes.new }
{
    nodes[..near.len()].copy_from_slice(near);
}

/// Goes over from a table to a longer one, in which nothing stands, and puts `c` at the back of a list.
///
/// It is called once at most in the life of a `Lists`.
#[cold]
#[inline(never)]
pub fn push_wider(near: &[Node], nodes: &mut [Node], c: usize, place: Place)
    requires table { IsTable near.now }
    requires longer { length near.now ≤ length nodes.old }
    requires short { length nodes.old ≤ 65536 }
    requires nothing { AllFree nodes.old }
    requires below { c < length nodes.old - 3 }
    requires free { place_of (lists_of near.now) c ≡ None }
    ensures table { IsTable nodes.new }
    ensures lists { lists_of nodes.new ≡ sized (length nodes.old - 3) (pushed (lists_of near.now) c place) }
    ensures few { ChangesFew 2 (index_of c) near.now nodes.new }
{
    widen(near, nodes);
    push(nodes, c, place);
}

/// Takes `c` out of the list that it is in.
#[inline]
pub fn unlink(nodes: &mut [Node], c: usize)
    requires table { IsTable nodes.old }
    requires linked { IsSome (place_of (lists_of nodes.old) c) }
    ensures table { IsTable nodes.new }
    ensures lists { lists_of nodes.new ≡ unlinked (lists_of nodes.old) c }
    ensures few { ChangesFew 2 (index_of c) nodes.old nodes.new }
{
    take_out(nodes, node_index(c));
}

/// Moves `c` from the list that it is in to the back of one, which may be the same.
#[inline]
pub fn move_last(nodes: &mut [Node], c: usize, place: Place)
    requires table { IsTable nodes.old }
    requires linked { IsSome (place_of (lists_of nodes.old) c) }
    ensures table { IsTable nodes.new }
    ensures lists { lists_of nodes.new ≡ moved (lists_of nodes.old) c place }
    ensures few { ChangesFew 4 (index_of c) nodes.old nodes.new }
{
    let head = head_index(place);
    let at = node_index(c);
    let next = nodes[usize::from(at)].next;
    if next == head {
        // it is the last there
        return;
    }
    move_before(nodes, at, head, place);
}
