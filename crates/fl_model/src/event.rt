//! What the machine is asked.

use crate::back_end::BackEnd;
use fl_base::{EndId, MsgNo};
use fl_interface::Interface;
use fl_value_data::{Call, PlanNo};

/// A dispatcher: its core, and its place among those of the core, from 0 in order of making.
#[derive(Clone, Copy, Debug, PartialEq, Eq)]
pub struct DispatcherId {
    /// Its core, from 0.
    pub core: u32,
    /// Its place among the core's dispatchers.
    pub place: usize,
}

/// An event of the machine. Interfaces and bindings stand for themselves by their places, from 0 in order of making.
#[derive(Drop)]
pub enum Event<'a> {
    /// An interface is made, whose calls this plan lays out.
    AddInterface {
        interface: Interface,
        plan: PlanNo,
    },
    /// The number of cores.
    SetCores(u32),
    /// A link between the cores `a` and `b`, a ring of so many slots each way.
    AddLink {
        a: u32,
        b: u32,
        slots: u32,
    },
    /// A dispatcher on a core.
    AddDispatcher(u32),
    /// A service of this name, which a dispatcher offers under an interface.
    Export {
        name: &'a [u8],
        dispatcher: DispatcherId,
        interface: usize,
    },
    /// A binding of a client's dispatcher to the service of a name, under an interface, and how its ends are
    /// to be joined.
    Bind {
        client: DispatcherId,
        interface: usize,
        service: &'a [u8],
        back_end: BackEnd,
    },
    /// An end makes a call.
    Call(EndId, Call),
    /// The fragment that an end would write next is asked for.
    Show(EndId),
    /// An end writes its next fragment.
    Write(EndId),
    /// One turn of a dispatcher.
    Turn(DispatcherId),
    /// An end acknowledges what it has taken.
    Ack(EndId),
    /// An end's channel goes into its dispatcher's waitset.
    Register(EndId),
    /// An end's channel leaves its dispatcher's waitset.
    Deregister(EndId),
    /// Where the end handles the first message, it makes the call of the second, with the same arguments.
    Reply {
        end: EndId,
        message: MsgNo,
        answer: MsgNo,
    },
    /// The core's monitor writes its next message onto the link to the neighbour.
    MonitorWrite {
        core: u32,
        neighbour: u32,
    },
    /// The core forwards what stands first on the link from the neighbour.
    Forward {
        core: u32,
        neighbour: u32,
    },
    /// The core acknowledges what it has read on the link from the neighbour.
    MonitorAck {
        core: u32,
        neighbour: u32,
    },
}
