//! What a core is to do at its ends.

ghost use Rattle.std.specs.Prelude.{◌≡◌, IfOk};

use fl_base::{EndId, LinkId, MsgNo};
use fl_compact_calls::CompactCall;
use fl_monitor::Opening;
use std::alloc::{AllocError, Global};
use std::marker::Model;

/// A circuit that is to be asked for, by the core of its client's end.
#[derive(Clone, Copy)]
pub struct OpenRequest {
    /// The client's dispatcher, by its place at the core.
    pub dispatcher: usize,
    /// The client's program, by its interface's place.
    pub interface: usize,
    /// The link on which the route begins ([`fl_monitor::Monitor::may_open`]).
    pub link: LinkId,
    /// What is asked for.
    pub opening: Opening,
}

/// A request in memory of its own: jobs are many, and few of them are requests.
#[derive(Drop)]
pub struct BoxedRequest {
    request: Box<OpenRequest>,
}

impl Model for BoxedRequest {
    ghost use Rattle.fl_core.specs.declared.core_job.OpenRequest.{OpenRequest};

    ghost Value = { OpenRequest };

    ghost view = { λ b. b.request.value };
}

impl BoxedRequest {
    /// Puts a request in memory of its own.
    ///
    /// # Errors
    /// Out of memory.
    pub fn new(alloc: Global, request: OpenRequest) -> Result<BoxedRequest, AllocError>
        ensures same { IfOk result (λ b. b ≡ request) }
    {
        let request = Box::new(alloc, request)?;
        Ok(BoxedRequest { request })
    }

    /// The request.
    pub fn get(&self) -> &OpenRequest
        ensures same { result.now ≡ self.now }
    {
        &self.request
    }
}

/// A job at an end.
#[derive(Drop)]
pub enum CoreJob {
    /// A circuit is asked for, and with it the client's end is made.
    Open(BoxedRequest),
    /// A reply rule. It is set once its end is there, and the end takes nothing before.
    Reply {
        end: EndId,
        msg: MsgNo,
        reply: MsgNo,
    },
    /// A call is made.
    Call {
        end: EndId,
        call: CompactCall,
    },
}
