//! The numbers by which a core names sides of rings and queues, changed.

ghost use Rattle.std.specs.Prelude.{◌≡◌, map};
ghost use Rattle.fl_core.specs.Numbers.{moved, moved_link_side, moved_wiring, moved_wired_end, renumbered};

use crate::one_core::Core;
use crate::wiring::{EndWiring, LinkSide, WiredEnd};

// What stands in a list at this place; where the list is shorter, the number itself.
fn move_number(numbers: &[usize], n: usize) -> usize
    ensures moved { result ≡ moved numbers.now n }
{
    match numbers.get(n) {
        None => n,
        Some(number) => *number,
    }
}

// The wiring with other numbers.
fn moved_wiring(sides: &[usize], queues: &[usize], wiring: EndWiring) -> EndWiring
    ensures moved { result ≡ moved_wiring sides.now queues.now wiring }
{
    match wiring {
        EndWiring::Queues { out, from } => EndWiring::Queues {
            out: move_number(queues, out),
            from: move_number(queues, from),
        },
        EndWiring::Ring(side) => EndWiring::Ring(move_number(sides, side)),
        EndWiring::Circuit { link, arrivals } => EndWiring::Circuit { link, arrivals },
    }
}

// All links with other numbers of their sides.
#[tactic(auto, using(crate::proofs::Numbering::changed_none))]
fn move_link_sides(sides: &[usize], link_sides: &mut Vec<LinkSide>)
    ensures moved { link_sides.new.items ≡ map (moved_link_side sides.now) link_sides.old.items }
{
    for k in 0..link_sides.len() {
        let link_side = link_sides[k];
        link_sides[k] = LinkSide {
            side: move_number(sides, link_side.side),
            failed: link_side.failed,
        };
    }
}

// All wirings with other numbers.
#[tactic(auto, using(crate::proofs::Numbering::changed_none))]
fn move_wired_ends(sides: &[usize], queues: &[usize], wired_ends: &mut Vec<WiredEnd>)
    ensures moved { wired_ends.new.items ≡ map (moved_wired_end sides.now queues.now) wired_ends.old.items }
{
    for k in 0..wired_ends.len() {
        let wired_end = wired_ends[k];
        wired_ends[k] = WiredEnd {
            name: wired_end.name,
            wiring: moved_wiring(sides, queues, wired_end.wiring),
        };
    }
}

impl Core {
    /// Gives the sides of rings and the queues that the core's links and ends name other numbers: to side n the one that stands at place n of `sides`, to
    /// queue n that of `queues`. A number beyond the list's end stays.
    pub fn renumber(&mut self, sides: &[usize], queues: &[usize])
        ensures renumbered { self.new ≡ renumbered sides.now queues.now self.old }
    {
        move_link_sides(sides, &mut self.link_sides);
        move_wired_ends(sides, queues, &mut self.wired_ends);
    }
}
