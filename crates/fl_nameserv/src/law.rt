//! What look-ups come to, in every table of names.

ghost use Rattle.std.specs.Prelude.{◌≡◌, ℕ, List, Some, Contains};
ghost use Rattle.fl_nameserv.specs.Registrations.{TheRegistration, by_name, by_iref};

use crate::names::Names;

/// Each registration is found by its name, and by its interface reference.
pub fn law_each_is_found(names: &Names)
    ensures by_name { (r : TheRegistration) → Contains names.now r → by_name r.name names.now ≡ Some r }
    ensures by_iref { (r : TheRegistration) → Contains names.now r → by_iref r.iref names.now ≡ Some r }
{
    names.list();
}

/// What is found is registered, under the name or the interface reference that was looked up.
pub fn law_found_is_registered(names: &Names)
    ensures by_name { (name : List ℕ) → (r : TheRegistration) → by_name name names.now ≡ Some r → Contains names.now r × (r.name ≡ name) }
    ensures by_iref { (iref : ℕ) → (r : TheRegistration) → by_iref iref names.now ≡ Some r → Contains names.now r × (r.iref ≡ iref) }
{
    names.list();
}
