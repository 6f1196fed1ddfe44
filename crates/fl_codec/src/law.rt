//! What holds of tapes and fragments of any message of few numbers: a law, as the contract of a function that does nothing.

ghost use Rattle.fl_codec.specs.Codecs.{OneTapeOneFrag};

/// A tape has one fragment, and a fragment is that of one tape.
pub fn law_one_tape_one_frag()
    ensures one { OneTapeOneFrag }
{}
