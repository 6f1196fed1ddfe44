//! Fragments on their way: a write, and a dispatcher's turn.

ghost use Rattle.fl_world_refines.specs.Laws.{WritesAgree, TurnsAgree};

use crate::{
    law_calls_are_carried, law_first_is_in_turn, law_labels_stay, law_looks_once,
    law_next_is_written, law_numbers_are_small, law_others_stay, law_queue_puts, law_queue_takes,
    law_ring_puts, law_ring_takes, law_showings_go_on, law_take_shows,
};

/// What an end writes in a world is what it writes in the machine: it answers the same, and the world shows where the fragment
/// went, into a queue, onto the binding's ring or onto the first link of its circuit.
pub fn law_writes_agree()
    ensures agree { WritesAgree }
{
    law_calls_are_carried();
    law_first_is_in_turn();
    law_labels_stay();
    law_next_is_written();
    law_numbers_are_small();
    law_others_stay();
    law_showings_go_on();
    law_queue_puts();
    law_ring_puts();
}

/// A dispatcher's turn in a world is its turn in the machine: the same channel is due, its end is given the same fragment or
/// none, and the same is answered.
pub fn law_turns_agree()
    ensures agree { TurnsAgree }
{
    law_calls_are_carried();
    law_first_is_in_turn();
    law_looks_once();
    law_numbers_are_small();
    law_others_stay();
    law_queue_takes();
    law_ring_takes();
    law_take_shows();
}
