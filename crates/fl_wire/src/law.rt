//! What holds of the fragments of any calls: laws, as the contracts of functions that do nothing.

ghost use Rattle.std.specs.Prelude.{◌≡◌, true};
ghost use Rattle.fl_interface.specs.Interface.{interface_of};
ghost use Rattle.fl_interface.specs.Counts.{interface_words_fit};
ghost use Rattle.fl_wire.specs.Reading.{OneReading, NoneBeginsWithAnother, ReadsOnce};

use fl_interface::Interface;

/// No list of fragments has two readings as whole calls and a rest, under either plan.
pub fn law_one_reading()
    ensures reading { OneReading }
{}

/// The fragments of a fitting call never begin with those of another.
pub fn law_none_begins_with_another()
    ensures prefix { NoneBeginsWithAnother }
{}

/// No list of fragments reads as calls and a rest in two ways, whatever its epochs and the counts told.
pub fn law_reads_once()
    ensures once { ReadsOnce }
{}

/// Every bound and every number of enumerators of an interface in memory is at most 2^32, by its invariant: so [`law_one_reading`],
/// [`law_none_begins_with_another`] and [`law_reads_once`] hold of each. Takes no time.
pub fn law_numbers_fit_words(interface: &Interface)
    ensures fit { interface_words_fit (interface_of interface.now) ≡ true }
{}
