//! The law of cores files.

ghost use Rattle.fl_cores_file.specs.CoresFile.{OneOutcome};

/// A text comes to one thing alone: one file, or one refused line.
pub fn law_one_outcome()
    ensures one { OneOutcome }
{
    fl_script_lines::law_one_asked();
    fl_script_lines::law_one_items();
    fl_check::law_one_text();
}
