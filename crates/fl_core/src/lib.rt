//! One core: its board of dispatchers and ends, its monitor, and the wirings by which its ends and links are
//! joined to queues and rings.
//!
//! A [`Core`] has all that one core of the machine has but the queues and the rings themselves: these stand
//! outside, each known by a number, and the side that an event needs is lent to it. Which side that is, the
//! core tells: [`Core::outlet`] and [`Core::inlet`] of an end, [`Core::side`] of a link. So the same `Core`
//! serves a world that is run event by event, and a core that has a thread of its own.
//!
//! Contract for the layers above: a `Core` is the record of `specs/View.antt`. What is known of it at any
//! time stands in `specs/Sound.antt`: each end is found by its name, and has a wiring of the kind that the
//! board knows. One event is one method, and one exact relation between the core before and after, by cases
//! on the answer, over the relation of the side that was lent: `specs/Making.antt` for what is made,
//! `specs/Ends.antt` for ends and turns, `specs/Links.antt` and `specs/Hearing.antt` for links. Where memory
//! is refused the core is as it was.
//!
//! A fragment that stands first on a link is forwarded in two steps: [`Core::look`] says what it needs; then
//! it is passed on by [`fl_hop::Circuits::move_on`], arrives for an end ([`Core::arrive`]), or is heard by the monitor
//! ([`Core::hear`]).
//!
//! Below the core stands its [`Board`]: the dispatchers, each with three lists of channels, and their ends,
//! by place (`specs/BoardView.antt`, `specs/BoardTurns.antt`, `specs/BoardEvents.antt`,
//! `specs/BoardSound.antt`). What its ends have taken of calls that aren't whole yet it has for all of them
//! in one, a place for each. What a running core is given to do at its ends, its jobs, stands here too
//! (`specs/Jobs.antt`), so that what joins the jobs of a file to cores need not stand over what does them.
//!
//! The core:
//! - `one_core.rt`: `Core`, and where things are
//! - `makers.rt`: links, dispatchers and ends
//! - `joining.rt`: both ends of a binding within one core
//! - `opening.rt`: the client's end of a circuit
//! - `ends.rt`: events of an end, and turns
//! - `links.rt`: events of a link
//! - `hearing.rt`: what a monitors' message comes to
//! - `places.rt`: where ends are, by name; an end's number, [`slot_of`]
//! - `wiring.rt`: how ends and links are wired; `numbers.rt`: the numbers of sides and queues, changed
//! - `answer.rt`: what events on links come to
//! - `fault.rt`: why a call is refused
//! - `core_job.rt`: what a running core is to do at an end
//!
//! The board:
//! - `one_board.rt`: `Board`, its parts and the events of an end
//! - `registers.rt`: channels that are registered, deregistered, triggered and acknowledged
//! - `turns.rt`: turns
//! - `seat.rt`, `dispatcher.rt`: what a board stores of an end and of a dispatcher
//! - `waiting.rt`: where a channel waits
//! - `own_memory.rt`: lists in memory of the thread on which a core runs
//! - `law.rt`: what an event leaves alone
//! - `kind.rt`: how fragments come to an end
//! - `turn_answer.rt`: what a turn and an acknowledgement come to
//! - `board_fault.rt`: why an event of the board is refused
#![tactic(auto)]

mod answer;
mod board_fault;
mod core_job;
mod dispatcher;
mod ends;
mod fault;
mod hearing;
mod joining;
mod kind;
mod law;
mod links;
mod makers;
mod numbers;
mod one_board;
mod one_core;
mod opening;
mod own_memory;
mod places;
mod registers;
mod seat;
mod turn_answer;
mod turns;
mod waiting;
mod wiring;

pub use answer::{LinkFront, MonitorAnswer, MonitorWrite};
pub use board_fault::BoardFault;
pub use core_job::{BoxedRequest, CoreJob, OpenRequest};
pub use fault::{LinkReceiveFault, OpenFault};
pub use hearing::OfferedService;
pub use joining::{EndAtDispatcher, EndPlaces, LocalBinding};
pub use kind::ChannelKind;
pub use law::{law_one_dispatcher_changes, law_one_end_changes, law_turn_accounts};
pub use one_board::Board;
pub use one_core::Core;
pub use own_memory::in_own_memory;
pub use places::slot_of;
pub use turn_answer::{AckAnswer, TurnAnswer};
pub use wiring::{ArrivalPlace, EndWiring, Inlet, LinkSide, Outlet, WiredEnd};
