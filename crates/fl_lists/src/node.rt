//! The table of nodes. A list is a ring: its head is a node of the table too, `next` goes from the
//! head through the list and back to the head, and `prev` goes the other way.

ghost use Rattle.std.specs.Prelude.{◌≡◌, ◌≢◌, ◌<◌, List, length};
ghost use Rattle.fl_lists.specs.Table.{next_at, prev_at, place_at, Joined, TakenOut, PutBefore};

use crate::place::Place;

/// A node of the table: six bytes, so that a short list lies in few lines of memory.
#[derive(Clone, Copy, Debug)]
pub struct Node {
    /// The index of the node before this one; before the first stands the head.
    pub prev: u16,
    /// The index of the node after this one; after the last stands the head.
    pub next: u16,
    /// The list that this node is in.
    pub place: Option<Place>,
}

/// A node in no list.
pub const FREE: Node = Node {
    prev: 0,
    next: 0,
    place: None,
};

/// The head of an empty list at index `at`.
pub fn head(at: u16, place: Place) -> Node
    ensures node { result ≡ record { prev = at; next = at; place = Some place } }
{
    Node {
        prev: at,
        next: at,
        place: Some(place),
    }
}

/// Makes `right` the node after `left`.
#[inline]
fn join(nodes: &mut [Node], left: u16, right: u16)
    requires left_below { left < length nodes.old }
    requires right_below { right < length nodes.old }
    ensures joined { Joined nodes.old nodes.new left right }
{
    nodes[usize::from(left)].next = right;
    nodes[usize::from(right)].prev = left;
}

/// Takes node `at` out of its list: its neighbours become neighbours of each other.
#[inline]
pub fn take_out(nodes: &mut [Node], at: u16)
    requires below { at < length nodes.old }
    requires prev_below { prev_at nodes.old at < length nodes.old }
    requires next_below { next_at nodes.old at < length nodes.old }
    ensures taken { TakenOut nodes.old nodes.new at }
{
    let Node { prev, next, .. } = nodes[usize::from(at)];
    join(nodes, prev, next);
    nodes[usize::from(at)] = FREE;
}

/// Puts node `at` at the back of the list whose head is at `head`.
#[inline]
pub fn put_before(nodes: &mut [Node], at: u16, head: u16, place: Place)
    requires below { at < length nodes.old }
    requires head_below { head < length nodes.old }
    requires last_below { prev_at nodes.old head < length nodes.old }
    ensures put { PutBefore nodes.old nodes.new at head place }
{
    let last = nodes[usize::from(head)].prev;
    join(nodes, last, at);
    join(nodes, at, head);
    nodes[usize::from(at)].place = Some(place);
}

/// Moves node `at` from its list to the back of the list whose head is at `head`.
#[inline]
pub fn move_before(nodes: &mut [Node], at: u16, head: u16, place: Place)
    requires below { at < length nodes.old }
    requires head_below { head < length nodes.old }
    requires no_head { head ≢ at }
    requires prev_below { prev_at nodes.old at < length nodes.old }
    requires next_below { next_at nodes.old at < length nodes.old }
    requires last_below { prev_at nodes.old head < length nodes.old }
    // its neighbours are joined, and then it is put there
    ensures moved { (between : List Node) × Joined nodes.old between (prev_at nodes.old at) (next_at nodes.old at) × PutBefore between nodes.new at head place }
{
    let Node { prev, next, .. } = nodes[usize::from(at)];
    join(nodes, prev, next);
    put_before(nodes, at, head, place);
}
