//! What holds of a side over steps in a row: laws, as the contracts of functions that do nothing.

ghost use Rattle.fl_stream.specs.Laws.{SenderLaw, ReceiverLaw};

/// What the side that puts sent grew by what was placed.
pub fn law_stream_sender_conserves()
    ensures conserves { SenderLaw }
{}

/// What the side that takes got grew by what was found.
pub fn law_stream_receiver_conserves()
    ensures conserves { ReceiverLaw }
{}
