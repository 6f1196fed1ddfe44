//! Laws of interfaces' texts.

ghost use Rattle.fl_check.specs.Text.{SomeText, OneText};

/// Each byte string stands for an interface, or has a fault.
pub fn law_some_text()
    ensures some { SomeText }
{}

/// It is one of these alone.
pub fn law_one_text()
    ensures one { OneText }
{}
