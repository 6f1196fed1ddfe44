//! Laws of calls' texts.

ghost use Rattle.fl_value.specs.CallText.{OneSpelling};
ghost use Rattle.fl_value.specs.Printed.{PrintedReads, PrintedCallReads, FittingCallReads};

/// A text spells at most one name and one list of values.
pub fn law_one_reading()
    ensures reading { OneSpelling }
{}

/// What is printed of a call reads as that call: its name a word, its numbers of at most 20 digits,
/// its arrays and structs nested at most 20 deep.
pub fn law_printed_reads()
    ensures reading { PrintedReads }
{}

/// What is printed of a call that fits an interface in memory reads as that call there. Of interfaces by themselves so does what
/// is printed at one within the limits, its counts those of 32-bit words, and the message's name a word.
pub fn law_printed_call_read()
    ensures reading { PrintedCallReads }
    ensures fitting { FittingCallReads }
{}
