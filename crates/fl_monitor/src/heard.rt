//! What hearing a message comes to.

use fl_base::{Circuit, EndId, LinkId};

/// What a monitor's message came to at the core that heard it, and what is left for the core to do.
#[derive(Clone, Copy, Debug, PartialEq, Eq)]
pub enum MessageOutcome {
    /// The opening goes on over a link, under a number there.
    OpeningWentOn {
        binding: usize,
        link: LinkId,
        circuit: Circuit,
    },
    /// The opening ends here. The core makes the server's end of the binding at this dispatcher, on this circuit.
    ServerMade {
        binding: usize,
        /// By its place among the dispatchers of this core.
        dispatcher: usize,
        circuit: Circuit,
    },
    /// The opening fails here, for the fault of this number: 54, 70, 73 or 74.
    OpeningFailed {
        binding: usize,
        reason: u32,
    },
    /// The answer to the binding's opening goes back over a link, under the number there.
    AnswerWentOn {
        binding: usize,
        link: LinkId,
        circuit: Circuit,
    },
    /// The circuit stands. The core binds this client's end to it, and registers it.
    EndOpened {
        end: EndId,
        circuit: Circuit,
    },
    /// The circuit of this client's end is refused, for the fault of this number. The end stays unbound for good.
    EndRefused {
        end: EndId,
        reason: u32,
    },
}
