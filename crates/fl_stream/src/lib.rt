//! Streams: links that hand whole fragments over as plain memory, over the kit's `rtrb`.
//!
//! A stream is a ring of fragments, whose two sides may be in two threads. One atomic store hands over
//! a fragment, or a whole slice of them, and one frees what was taken: so nothing is acknowledged. Its sides are sides of
//! links (`fl_link`), lent to ends and cores as any other.
//!
//! Contract for the layers above: each call of a side is one step of the side's relation
//! (`specs/Steps.antt`), and what one side took is a prefix of what the other put ([`settle`]).
//!
//! - `plain.rt`: which fragments pass through a stream
//! - `tx.rt`, `rx.rt`: the side that puts, and the side that takes
//! - `making.rt`: `stream`, `duplex` and `settle`
//! - `side.rt`: two streams, one each way, as one side
//! - `law.rt`: what holds of a side over steps in a row
#![tactic(auto)]

mod law;
mod making;
mod plain;
mod rx;
mod side;
mod tx;

pub use law::{law_stream_receiver_conserves, law_stream_sender_conserves};
pub use making::{duplex, settle, stream};
pub use plain::is_plain;
pub use rx::StreamRx;
pub use side::StreamSide;
pub use tx::StreamTx;
