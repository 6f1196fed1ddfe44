//! What running cores are to do at their ends.

use fl_base::{EndId, MsgNo};
use fl_compact_calls::CompactCall;
use fl_model::DispatcherId;

/// A circuit that is to be opened, by the core of its client's end.
#[derive(Debug, Drop)]
pub struct CircuitRequest<'a> {
    pub client: DispatcherId,
    /// The interface, by its place.
    pub interface: usize,
    /// The service's name.
    pub service: &'a [u8],
    /// The cores of the route, the client's first.
    pub route: Vec<u32>,
}

/// A job.
#[derive(Debug, Drop)]
pub enum Job<'a> {
    /// A binding is opened. Bindings that jobs open are numbered in the jobs' order, behind those that are set up.
    Open(Box<CircuitRequest<'a>>),
    /// A reply rule: where the end handles the message, it makes the call of the answer. At an end of the set-up
    /// it is set before the cores run, else once the end is there, which takes nothing before.
    Reply {
        end: EndId,
        message: MsgNo,
        answer: MsgNo,
    },
    /// An end makes a call.
    Call {
        end: EndId,
        call: CompactCall,
    },
}
