//! Where ends are on the board, by their names.

ghost use Rattle.std.specs.Prelude.{◌≡◌, ◌+◌, ◌*◌, ◌^◌, ◌<◌, ◌≤◌, Some, None, length, slice_set};
ghost use Rattle.fl_core.specs.View.{side_number, slot_of, place_in};

use fl_base::{EndId, MAX_BINDINGS, Side};

/// So many names there are.
pub(crate) const NAMES: usize = 2 * MAX_BINDINGS;

// A binding's client stands before its server.
fn side_number(side: Side) -> usize
    ensures number { result ≡ side_number side }
    ensures few { result ≤ 1 }
{
    match side {
        Side::Client => 0,
        Side::Server => 1,
    }
}

/// The number of an end among those of all bindings: a binding's client stands before its server.
pub fn slot_of(end: EndId) -> usize
    requires few { end.binding < 2 ^ 63 }
    ensures slot { result ≡ slot_of end }
    ensures within { result < 2 * end.binding + 2 }
{
    2 * end.binding + side_number(end.side)
}

/// Where the end of a name is, if it is at this core. Nothing is searched.
pub(crate) fn place_in(places: &[Option<usize>], name: EndId) -> Option<usize>
    ensures place { result ≡ place_in places.now name }
{
    if name.binding >= MAX_BINDINGS {
        return None;
    }
    match places.get(slot_of(name)) {
        Some(place) => *place,
        None => None,
    }
}

/// Notes where the end of a name is.
pub(crate) fn put_place(places: &mut Vec<Option<usize>>, name: EndId, place: usize)
    requires few { name.binding < 1024 }
    requires all { length places.old.items ≡ 2048 }
    ensures put { places.new.items ≡ slice_set places.old.items (slot_of name) (Some place) }
{
    places[slot_of(name)] = Some(place);
}

/// Notes that the end of a name isn't here.
pub(crate) fn clear_place(places: &mut Vec<Option<usize>>, name: EndId)
    requires few { name.binding < 1024 }
    requires all { length places.old.items ≡ 2048 }
    ensures clear { places.new.items ≡ slice_set places.old.items (slot_of name) None }
{
    places[slot_of(name)] = None;
}
