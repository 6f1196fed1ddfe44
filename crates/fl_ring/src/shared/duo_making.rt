//! A ring of two directions made, and its two sides put together again.

ghost use Rattle.std.specs.Prelude.{◌≡◌, ◌≢◌, ◌*◌, ◌+◌, ◌^◌, ◌<◌, ◌≤◌, ◌↔◌, ℕ, [], vec_len, slice_index, IfOk, OnOk, Err};
ghost use Rattle.fl_link.specs.Cursor.{epoch_at};
ghost use Rattle.fl_ring.specs.Way.{epoch_in, IsClear};
ghost use Rattle.fl_ring.specs.Duo.{MayHaveSlots};
ghost use Rattle.fl_ring.specs.SharedDuo.{duo_opening};
ghost use Rattle.fl_ring.specs.SharedSides.{started_side, SidesNear};
ghost use Rattle.fl_ring.specs.declared.shared.duo_board.SeatHolder.TheVariants.{One, Two};

use crate::fault::RingFault;
use crate::shared::duo_board::{DuoSeat, DuoStart, DuoTable};
use crate::shared::duo_plays::{DuoCompare, DuoPairSeats};
use crate::shared::duo_sides::SharedSide;
use fl_base::MAX_QUEUE;
use fl_link::Cursor;
use std::alloc::Global;
use std::sync::Arc;

/// The two sides of a new ring of two directions of `size` slots each, a power of two from 4 to 1,024.
///
/// # Errors
/// `size` isn't such a number (E32); else out of memory (E99).
pub fn duo(alloc: Global, size: usize) -> Result<(SharedSide, SharedSide), RingFault>
    ensures one { IfOk result (λ sides. sides.0 ≡ started_side sides.1.ring One size 0) }
    ensures two { IfOk result (λ sides. sides.1 ≡ started_side sides.1.ring Two size 0) }
    ensures sized { OnOk result (MayHaveSlots size) }
    ensures bad_size { (result ≡ Err RingFault.BadSize) ↔ (¬ MayHaveSlots size) }
{
    duo_from(alloc, size, 0)
}

/// The two sides of such a ring as [`duo`] makes, as though `start` fragments, all blank, had passed each way
/// and all were told.
///
/// # Errors
/// As [`duo`], whatever `start` is.
pub fn duo_from(
    alloc: Global,
    size: usize,
    start: u64,
) -> Result<(SharedSide, SharedSide), RingFault>
    requires start { start ≤ 2 ^ 62 }
    ensures one { IfOk result (λ sides. sides.0 ≡ started_side sides.1.ring One size start) }
    ensures two { IfOk result (λ sides. sides.1 ≡ started_side sides.1.ring Two size start) }
    ensures sized { OnOk result (MayHaveSlots size) }
    ensures bad_size { (result ≡ Err RingFault.BadSize) ↔ (¬ MayHaveSlots size) }
{
    if size < 4 || size > MAX_QUEUE || !size.is_power_of_two() {
        return Err(RingFault::BadSize);
    }
    let Ok(mut words) = vec![in alloc; 0; 16 * size] else {
        return Err(RingFault::Memory);
    };
    mark(&mut words, size, start);
    let Ok((table, seat)) = DuoTable::of_words(alloc, words.as_slice(), &DuoStart { size, start })
    else {
        return Err(RingFault::Memory);
    };
    sides_of(alloc, table, seat, size, start)
}

// Gives every slot of both ways the other epoch than the one that is due there from `start` on.
fn mark(words: &mut Vec<u64>, size: usize, start: u64)
    requires size { (0 < size) × (size ≤ 1024) }
    requires start { start ≤ 2 ^ 62 }
    requires wide { vec_len words.old ≡ 16 * size }
    requires zeros { (i : ℕ) → slice_index words.old.items i ≡ 0 }
    ensures wide { vec_len words.new ≡ 16 * size }
    ensures free { (i : ℕ) → start ≤ i → i < start + size
        → (epoch_in 0 size words.new.items i ≢ epoch_at size i) × (epoch_in (8 * size) size words.new.items i ≢ epoch_at size i) }
    ensures clear { IsClear 0 size words.new.items start × IsClear (8 * size) size words.new.items start }
{
    let mut next = Cursor::at(size, start);
    for k in 0..size {
        let other = 1 - next.epoch();
        let last = 8 * next.place() + 7;
        words[last] = other;
        words[8 * size + last] = other;
        next.advance();
    }
}

// The two sides of a new table, which its first seat's view is cut in two for.
fn sides_of(
    alloc: Global,
    table: DuoTable,
    mut seat: DuoSeat,
    size: usize,
    start: u64,
) -> Result<(SharedSide, SharedSide), RingFault>
    requires size { (0 < size) × (size ≤ 1024) × (start ≤ 2 ^ 62) }
    requires table { (seat.table_id ≡ table.shared.table_id) × (table.shared.key.size ≡ size) × (table.shared.table_id.words ≡ 16 * size) }
    requires seat { seat.me ≡ (duo_opening size start, []) }
    ensures one { IfOk result (λ sides. sides.0 ≡ started_side sides.1.ring One size start) }
    ensures two { IfOk result (λ sides. sides.1 ≡ started_side sides.1.ring Two size start) }
    ensures refused { result ≢ Err RingFault.BadSize }
{
    let across = table.shared.split_seat::<DuoPairSeats>(&mut seat);
    let Ok(table) = Arc::new(alloc, table) else {
        return Err(RingFault::Memory);
    };
    let Ok(again) = Arc::try_clone(&table) else {
        return Err(RingFault::Memory);
    };
    let one = SharedSide {
        table: again,
        seat,
        base: 0,
        other: 8 * size,
        put: Cursor::at(size, start),
        take: Cursor::at(size, start),
        known: start,
        told: start,
    };
    let two = SharedSide {
        table,
        seat: across,
        base: 8 * size,
        other: 0,
        put: Cursor::at(size, start),
        take: Cursor::at(size, start),
        known: start,
        told: start,
    };
    Ok((one, two))
}

/// The two sides of one ring, in one hand again: what each took is a prefix of what the other put, and
/// every count is near the one that is known.
pub fn settle_duo(one: SharedSide, other: SharedSide)
    requires ring { one.ring ≡ other.ring }
    ensures there { SidesNear one other }
    ensures back { SidesNear other one }
{
    let SharedSide {
        table,
        mut seat,
        base: _,
        other: _,
        put: _,
        take: _,
        known: _,
        told: _,
    } = one;
    let SharedSide {
        table: _,
        seat: across,
        base: _,
        other: _,
        put: _,
        take: _,
        known: _,
        told: _,
    } = other;
    table.shared.join_seat::<DuoPairSeats>(&mut seat, across);
    table.shared.load::<DuoCompare>(&mut seat, 0);
}
