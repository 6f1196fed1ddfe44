//! Laws of script lines.

ghost use Rattle.fl_script_lines.specs.Grammar.{OneLine, PrintedReads, SpelledReads};
ghost use Rattle.fl_script_lines.specs.Items.{SomeItems, OneItems};
ghost use Rattle.fl_script_lines.specs.Told.{OneAsked};

use fl_value::law_one_reading;

/// A line is one thing; so it spells at most one command.
pub fn law_one_line()
    ensures one { OneLine }
{}

/// A command that can be printed reads as itself, as [`crate::print_command`] writes it.
pub fn law_printed_reads()
    ensures reads { PrintedReads }
{}

/// So does each command that some line spells.
pub fn law_spelled_reads()
    ensures reads { SpelledReads }
{}

/// A command asks one thing of the machine, by given names.
pub fn law_one_asked()
    ensures one { OneAsked }
{
    law_one_reading();
}

/// A script has a list of items.
pub fn law_some_items()
    ensures some { SomeItems }
{}

/// A script has one list of items.
pub fn law_one_items()
    ensures one { OneItems }
{}
