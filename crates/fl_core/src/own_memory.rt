//! Memory of the thread on which a core runs.

ghost use Rattle.std.specs.Prelude.{◌≡◌};

use std::alloc::Global;

/// A list's items are moved into memory that is asked for now. Where there is none, they stay where they are.
pub fn in_own_memory<T: Drop>(alloc: Global, list: &mut Vec<T>)
    ensures same { list.new.items ≡ list.old.items }
{
    let mut own = Vec::new(alloc);
    if own.append(list).is_ok() {
        *list = own;
    }
}
