//! When what the system shows of itself is a state of the machine: an end, a queue, a ring, a monitor and the
//! table of names (`specs/Fragments.antt`, `specs/Ends.antt`, `specs/Queues.antt`, `specs/Rings.antt`,
//! `specs/Cores.antt`), and a whole world of several cores (`specs/View.antt`, `specs/ShowsState.antt`).
//!
//! Contract for the layers above: laws, the contracts of functions that do nothing. Of a world that shows a
//! state each event (`specs/Step.antt`) has the machine's answer, and leaves a world that shows the machine's
//! next state ([`law_steps_agree`], `specs/Laws.antt`). [`Parts`] is what a world is taken apart into, before
//! its cores run on threads: it stands here so that they don't need the world's code (`fl_world`).
//!
//! - `law_ends.rt`, `law_rings.rt`, `law_labels.rt`, `law_cores.rt`, `law_states.rt`: laws of parts
//! - `law_of_steps.rt`: the law of an event of a world; `law_of_ends.rt`, `law_of_fragments.rt`,
//!   `law_of_joining.rt`, `law_of_links.rt`, `law_of_making.rt`: its cases
//! - `binding.rt`, `parts.rt`: `Binding`, `Parts`
#![tactic(auto)]

mod binding;
mod law_cores;
mod law_ends;
mod law_labels;
mod law_of_ends;
mod law_of_fragments;
mod law_of_joining;
mod law_of_links;
mod law_of_making;
mod law_of_steps;
mod law_rings;
mod law_states;
mod parts;

pub use binding::{Binding, core_in};
pub use law_cores::{
    law_hears_agree, law_monitors_begin, law_names_are_shown, law_opens_agree,
    law_outboxes_are_shown, law_rooms_agree,
};
pub use law_ends::{
    law_bound_shows, law_call_shows, law_fresh_shows, law_next_shows, law_others_stay,
    law_receive_shows, law_rule_shows, law_take_shows, law_write_shows,
};
pub use law_labels::{
    law_calls_are_carried, law_calls_go_on, law_labels_stay, law_links_set_aside, law_links_tell,
    law_messages_are_said,
};
pub use law_of_ends::{
    law_acknowledges_agree, law_calls_agree, law_deregisters_agree, law_previews_agree,
    law_registers_agree, law_replies_agree,
};
pub use law_of_fragments::{law_turns_agree, law_writes_agree};
pub use law_of_joining::law_binds_agree;
pub use law_of_links::{law_forwards_agree, law_monitor_acks_agree, law_monitor_writes_agree};
pub use law_of_making::{
    law_cores_agree, law_dispatchers_agree, law_exports_agree, law_interfaces_agree,
    law_links_agree,
};
pub use law_of_steps::{law_fresh_world_shows, law_steps_agree};
pub use law_rings::{
    law_looks_once, law_new_ones_show, law_queue_puts, law_queue_takes, law_ring_puts,
    law_ring_stamps, law_ring_takes, law_showings_go_on,
};
pub use law_states::{law_first_is_in_turn, law_next_is_written, law_numbers_are_small};
pub use parts::Parts;
