//! Streams made, and the two sides of one brought together.

ghost use Rattle.std.specs.Prelude.{◌≡◌, ◌↔◌, [], IfOk, OnOk, Err};
ghost use Rattle.fl_stream.specs.Sides.{new_sender, new_receiver, MayHaveSlots};
ghost use Rattle.fl_stream.specs.Steps.{Sends, Sees, Settled};

use crate::plain::PlainFrags;
use crate::rx::StreamRx;
use crate::side::StreamSide;
use crate::tx::StreamTx;
use fl_base::MAX_QUEUE;
use fl_link::LinkFault;
use rtrb::RingBuffer;
use std::alloc::Global;

/// The two sides of a new stream of `size` slots, from 1 to 1,024.
///
/// # Errors
/// `size` isn't such a number (E32); else out of memory (E99).
pub fn stream(alloc: Global, size: usize) -> Result<(StreamTx, StreamRx), LinkFault>
    ensures sender { IfOk result (λ sides. sides.0 ≡ new_sender sides.1.stream size) }
    ensures receiver { IfOk result (λ sides. sides.1 ≡ new_receiver sides.1.stream size) }
    ensures sized { OnOk result (MayHaveSlots size) }
    ensures bad_size { (result ≡ Err LinkFault.BadSize) ↔ (¬ MayHaveSlots size) }
{
    if size == 0 || size > MAX_QUEUE {
        return Err(LinkFault::BadSize);
    }
    let Ok((producer, consumer)) = RingBuffer::with_protocol::<Global, PlainFrags>(alloc, size)
    else {
        return Err(LinkFault::Memory);
    };
    Ok((StreamTx { producer }, StreamRx { consumer }))
}

/// The two sides of two new streams, one each way, of `size` slots each, from 1 to 1,024.
///
/// # Errors
/// `size` isn't such a number (E32); else out of memory (E99).
pub fn duplex(alloc: Global, size: usize) -> Result<(StreamSide, StreamSide), LinkFault>
    ensures there { IfOk result (λ s. (s.0.tx ≡ new_sender s.1.rx.stream size) × (s.1.rx ≡ new_receiver s.1.rx.stream size)) }
    ensures back { IfOk result (λ s. (s.1.tx ≡ new_sender s.0.rx.stream size) × (s.0.rx ≡ new_receiver s.0.rx.stream size)) }
    ensures sized { OnOk result (MayHaveSlots size) }
    ensures bad_size { (result ≡ Err LinkFault.BadSize) ↔ (¬ MayHaveSlots size) }
{
    let (tx, far_rx) = stream(alloc, size)?;
    let (far_tx, rx) = stream(alloc, size)?;
    let one = StreamSide { tx, rx };
    let two = StreamSide {
        tx: far_tx,
        rx: far_rx,
    };
    Ok((one, two))
}

/// The two sides of one stream, in one hand: each looks at what the other did. Then what was put is what was
/// taken and what is seen to wait, so that what was taken is a prefix of it, and a slot that holds nothing is
/// known to be free.
pub fn settle(tx: &mut StreamTx, rx: &mut StreamRx)
    requires stream { tx.old.stream ≡ rx.old.stream }
    ensures sender { Sends tx.old [] tx.new }
    ensures receiver { Sees rx.old rx.new }
    ensures settled { Settled tx.new rx.new }
{
    tx.producer.slots_beside(&mut rx.consumer);
    rx.consumer.slots_beside(&mut tx.producer);
}
