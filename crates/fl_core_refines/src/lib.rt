//! What a running core's run is of the machine: on what it knows of the machine's state, by itself, and
//! behind a set-up. Laws, the contracts of functions that do nothing.
//!
//! **On its cut** (`law_cut.rt`). A cut is what a running core knows of the machine's state, made of the
//! machine's own records: a core's waitsets, its ends, its queues, and of each ring what its own side knows
//! (`specs/CutSides.antt`, `specs/CutEnds.antt`, `specs/Cut.antt`). What other cores do comes to it by looks
//! alone: what the machine makes of a cut by each event is said with the look as an argument, by the
//! machine's own functions on one component (`specs/CutEvents.antt`, `specs/CutLinks.antt`,
//! `specs/CutOpening.antt`, `specs/CutHearing.antt`; `specs/CutDoes.antt` has them all). Of a core that shows
//! a cut, each event is the machine's on it ([`law_events_follow`], `specs/CutLaws.antt`), and so are its
//! turns ([`law_turns_follow`]), as long as the monitors' messages that it hears come in order. A core that
//! is ready meets that by itself ([`law_ready_cores_follow`], `specs/CutReady.antt`); a core with which
//! nothing was done yet shows a cut ([`law_starts_show`], `specs/CutStart.antt`).
//!
//! **By itself** (`law_alone.rt`). What the run of one core comes to is a function of the machine's state, of
//! what is to be done at its ends, and of the limit. `specs/AloneTurns.antt` defines a turn of one core by
//! the machine's `step`, so many turns, when nothing is left to do, and a run with a limit. A core without
//! links and rings shows a state where what the set-up made, with the core and its queues as they are now, is
//! a world that shows it (`specs/AloneShown.antt`). Of such a core each event is the machine's of that name
//! ([`law_events_are_the_machines`]), so many turns are so many of the definition's
//! ([`law_turns_are_the_machines`]), and the counted turns end at the first number at which nothing is left
//! to do, or at the limit ([`law_runs_are_the_machines`], `specs/AloneLaws.antt`). Turns behind these change
//! nothing of that ([`law_later_turns_change_nothing`]). A core that is handed to its thread with other
//! numbers for its queues shows what it showed ([`law_handed_cores_show`], `specs/AloneHanded.antt`). Where
//! each job is a call, the same turns are told by the calls that are handed in at each end
//! ([`law_jobs_go_by_calls`], `specs/AloneCalls.antt`).
//!
//! **Behind a set-up** (`law_set_up.rt`). A set-up that only makes things (interfaces, cores, links,
//! dispatchers, services, and bindings by queues and by rings) leads the machine to a state with which
//! nothing was done yet ([`law_set_ups_touch_nothing`], `specs/SetUpUntouched.antt`). A world that shows such
//! a state starts fresh ([`law_untouched_starts_fresh`], [`law_set_ups_start_fresh`],
//! `specs/SetUpStart.antt`): its ends and queues are new, each core has its place as its number, no circuit
//! was opened, links are paired, each binding's two ends are joined, and each side of a ring and each queue
//! is one core's. This is what a run of its cores begins with, once the world is taken apart. (That each core
//! is sound, what a world shows doesn't tell: it is a premise where it is needed.)
#![tactic(auto)]

mod law_alone;
mod law_cut;
mod law_set_up;

pub use law_alone::{
    law_events_are_the_machines, law_handed_cores_show, law_jobs_go_by_calls,
    law_later_turns_change_nothing, law_runs_are_the_machines, law_turns_are_the_machines,
};
pub use law_cut::{
    law_events_follow, law_ready_cores_follow, law_sides_agree, law_starts_show, law_turns_follow,
};
pub use law_set_up::{
    law_set_ups_start_fresh, law_set_ups_touch_nothing, law_untouched_starts_fresh,
};
