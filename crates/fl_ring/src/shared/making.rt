//! A ring made, and its two sides put together again.

ghost use Rattle.std.specs.Prelude.{◌≡◌, ◌*◌, ◌+◌, ◌^◌, ◌<◌, ◌≤◌, ◌↔◌, ◌≢◌, true, [], IfOk, OnOk, Err};
ghost use Rattle.fl_ring.specs.SharedRing.{opening_view};
ghost use Rattle.fl_link.specs.Queue.{MayHave};
ghost use Rattle.fl_ring.specs.SharedSeats.{new_sender, new_receiver, RingNear};

use crate::fault::RingFault;
use crate::shared::board::{RingSeat, RingTable};
use crate::shared::plays::{Compare, PairSeats};
use crate::shared::rx::RingRx;
use crate::shared::tx::RingTx;
use fl_base::MAX_QUEUE;
use fl_link::Cursor;
use std::alloc::Global;
use std::sync::Arc;

/// The two sides of a new ring of `size` slots, a power of two from 2 to 1,024.
///
/// # Errors
/// `size` isn't such a number (E32); else out of memory (E99).
pub fn ring(alloc: Global, size: usize) -> Result<(RingTx, RingRx), RingFault>
    ensures sender { IfOk result (λ sides. sides.0 ≡ new_sender sides.1.ring size) }
    ensures receiver { IfOk result (λ sides. sides.1 ≡ new_receiver sides.1.ring size) }
    ensures sized { OnOk result (MayHave true size) }
    ensures bad_size { (result ≡ Err RingFault.BadSize) ↔ (¬ MayHave true size) }
{
    if size < 2 || size > MAX_QUEUE || !size.is_power_of_two() {
        return Err(RingFault::BadSize);
    }
    let Ok(words) = vec![in alloc; 0; 8 * size + 8] else {
        return Err(RingFault::Memory);
    };
    let Ok((table, seat)) = RingTable::of_words(alloc, words.as_slice(), &size) else {
        return Err(RingFault::Memory);
    };
    sides_of(alloc, table, seat, size)
}

// The two sides of a new table, which its first seat's view is cut in two for.
fn sides_of(
    alloc: Global,
    table: RingTable,
    mut seat: RingSeat,
    size: usize,
) -> Result<(RingTx, RingRx), RingFault>
    requires size { (0 < size) × (size ≤ 1024) }
    requires table { (seat.table_id ≡ table.shared.table_id) × (table.shared.key ≡ size) × (table.shared.table_id.words ≡ 8 * size + 8) }
    requires seat { seat.me ≡ (opening_view size, []) }
    ensures sender { IfOk result (λ sides. sides.0 ≡ new_sender sides.1.ring size) }
    ensures receiver { IfOk result (λ sides. sides.1 ≡ new_receiver sides.1.ring size) }
    ensures refused { result ≢ Err RingFault.BadSize }
{
    let other = table.shared.split_seat::<PairSeats>(&mut seat);
    let Ok(table) = Arc::new(alloc, table) else {
        return Err(RingFault::Memory);
    };
    let Ok(again) = Arc::try_clone(&table) else {
        return Err(RingFault::Memory);
    };
    let tx = RingTx {
        table: again,
        seat,
        put: Cursor::new(size),
        known: 0,
    };
    let rx = RingRx {
        table,
        seat: other,
        take: Cursor::new(size),
    };
    Ok((tx, rx))
}

/// The two sides of one ring, in one hand again: what was got is a prefix of what was sent, and every count is near the one
/// that is known.
pub fn settle(tx: RingTx, rx: RingRx)
    requires ring { tx.ring ≡ rx.ring }
    ensures near { RingNear tx rx }
{
    let RingTx {
        table,
        mut seat,
        put: _,
        known: _,
    } = tx;
    let RingRx {
        table: _,
        seat: other,
        take: _,
    } = rx;
    table.shared.join_seat::<PairSeats>(&mut seat, other);
    table.shared.load::<Compare>(&mut seat, 0);
}
