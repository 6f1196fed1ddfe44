//! Rings and queues: each look, put, take and tell leads from what is shown to what is shown.

ghost use Rattle.fl_world_refines.specs.RingLaws.{
  RingPuts,
  RingTakes,
  RingStamps,
  LooksOnce,
  QueuePutShows,
  QueueTakeShows,
  ShowingsGoOn,
  NewShow,
};

/// A put of a label's fragment at a side of a ring finds room exactly where the machine does, once it has looked where it must,
/// and the ring goes on showing the machine's.
pub fn law_ring_puts()
    ensures shows { RingPuts }
{}

/// A look, a take or a tell at a side of a ring finds the machine's first label, tells where the machine acknowledges, and the
/// ring goes on showing the machine's.
pub fn law_ring_takes()
    ensures shows { RingTakes }
{}

/// The epoch and the count with which a side of a ring would write next are the machine's.
pub fn law_ring_stamps()
    ensures stamps { RingStamps }
{}

/// A second look at the same label changes nothing.
pub fn law_looks_once()
    ensures once { LooksOnce }
{}

/// A put of a label's fragment into a queue finds room exactly where the machine does, and the queue goes on showing the
/// machine's.
pub fn law_queue_puts()
    ensures shows { QueuePutShows }
{}

/// A look or a take at a queue finds the machine's first label, and the queue goes on showing the machine's.
pub fn law_queue_takes()
    ensures shows { QueueTakeShows }
{}

/// Rings and queues go on showing the machine's while ends accept more calls.
pub fn law_showings_go_on()
    ensures still { ShowingsGoOn }
{}

/// A new ring and a new queue are what is shown of new ones.
pub fn law_new_ones_show()
    ensures new { NewShow }
{}
