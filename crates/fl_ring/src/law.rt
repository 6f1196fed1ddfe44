//! What holds of rings over looks in a row: laws, as the contracts of functions that do nothing.

ghost use Rattle.fl_ring.specs.Laws.{RingLaw, ForgetsLooks, DuoLaw, SenderLaw, ReceiverLaw, SideLaw};

/// What stood in a ring with one owner and what was put is what was taken and what stands there.
pub fn law_ring_conserves()
    ensures conserves { RingLaw }
{}

/// A caller that only looked at a side of a duo may set what the side knew before, and the ring is as it was.
pub fn law_forgets_looks()
    ensures forgets { ForgetsLooks }
{}

/// What a side of a duo wrote waits across, and what it took waited for it.
pub fn law_duo_conserves()
    ensures conserves { DuoLaw }
{}

/// What the writing side of a shared ring sent grew by what was placed.
pub fn law_sender_conserves()
    ensures conserves { SenderLaw }
{}

/// What the reading side of a shared ring got grew by what was found.
pub fn law_receiver_conserves()
    ensures conserves { ReceiverLaw }
{}

/// What a side of a shared duo sent grew by what was placed and by its acknowledgements, and what it got by what was found.
pub fn law_side_conserves()
    ensures conserves { SideLaw }
{}
