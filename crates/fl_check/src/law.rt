//! Laws of checking.

ghost use Rattle.fl_check.specs.Outcome.{OneOutcome, SomeOutcome};
ghost use Rattle.fl_check.specs.Texts.{TextsAreSpellable};
ghost use Rattle.fl_check.specs.TooLong.{RefusesTooLong, AcceptsNoneTooLong};

/// Each tree has an outcome, an interface or its first fault.
pub fn law_some_outcome()
    ensures some { SomeOutcome }
{}

/// A tree has one outcome at most.
pub fn law_one_outcome()
    ensures unique { OneOutcome }
{}

/// Two laws on payloads that are too long (E21). Where that is the outcome, a message at whose declaration's name it is
/// told is too long, and the types of its arguments keep the rules. A tree with such a message has no interface.
pub fn law_none_too_long()
    ensures refused { RefusesTooLong }
    ensures accepted { AcceptsNoneTooLong }
{}

/// The interface that a text stands for has names that are words of at most 64 bytes, and enums of at most 65,535
/// enumerators, since a text has at most 65,536 bytes. An [`crate::Interface`] made by hand may have others.
pub fn law_texts_are_spellable()
    ensures spellable { TextsAreSpellable }
{}
