//! What one order of all steps by all sides tells: laws, as contracts of functions that do nothing.

ghost use Rattle.fl_history_rings.specs.Laws.{TakenIsPrefix, LooksFindWhatStands, PutsTellWhatWasTaken};
ghost use Rattle.fl_history_rings.specs.Laws.{PutsFindRoom, KnownWasTaken, NoOthers};
ghost use Rattle.fl_history_rings.specs.Laws.{NotAllBeginByFinding, SidesStay};

/// In one order of all that cores did, what one side of a ring took is a prefix of what the other put: of a
/// ring whose two cores are among these, by what they did themselves.
pub fn law_taken_is_prefix()
    ensures prefix { TakenIsPrefix }
{}

/// In one order of all that cores did, each look and each take finds what stands first for its side at that
/// point, or nothing where nothing stands.
pub fn law_looks_find_what_stands()
    ensures looks { LooksFindWhatStands }
{}

/// In one order of all that cores did, each fragment that is put tells how many its side had taken, modulo
/// 65,536.
pub fn law_puts_tell_what_was_taken()
    ensures tell { PutsTellWhatWasTaken }
{}

/// In one order of all that cores did, each put finds a free slot: its side has put fewer fragments than the
/// slots and those that the other side had told, together.
pub fn law_puts_find_room()
    ensures room { PutsFindRoom }
{}

/// At each point of one order, what a side knows to be taken was told, and so it was taken.
pub fn law_known_was_taken()
    ensures known { KnownWasTaken }
{}

/// Where all cores of the sides are gathered, each step of one order is of one of them.
pub fn law_no_others()
    ensures others { NoOthers }
{}

/// Where all cores of the sides are gathered, it never happens that each begins with a step that finds a
/// fragment. No fact about one ring by itself rules that out.
pub fn law_not_all_begin_by_finding()
    ensures first { NotAllBeginByFinding }
{}

/// What a core does by one side leaves its other sides.
pub fn law_sides_stay()
    ensures stay { SidesStay }
{}
