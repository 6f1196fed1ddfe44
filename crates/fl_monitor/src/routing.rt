//! Routes at a core.

ghost use Rattle.std.specs.Prelude.{◌≡◌, ◌<◌, ◌+◌, ◌-◌, nat_lt, false, length, drop, position, slice_get, IfSome};
ghost use Rattle.std.specs.List.{list_any, list_all};
ghost use Rattle.fl_base.specs.declared.identity.CoreId.{CoreId};
ghost use Rattle.fl_base.specs.Given.{given};
ghost use Rattle.fl_monitor.specs.Routing.{is_core, all_differ, is_route};
ghost use Rattle.fl_monitor.specs.Routing.{next_on, comes_after, is_on_route};

use crate::path::MAX_ROUTE;
use fl_base::CoreId;

// Where a route names a core first.
fn place_of(path: &[CoreId], core: CoreId) -> Option<usize>
    ensures place { result ≡ position (is_core core.0) path.now }
    ensures within { IfSome result (λ place. place < length path.now) }
{
    path.iter().position(|one| one.0 == core.0)
}

/// The core behind this one on a route, if there is one.
pub(crate) fn next_on(path: &[CoreId], core: CoreId) -> Option<CoreId>
    ensures next { result ≡ next_on path.now core.0 }
{
    match place_of(path, core) {
        Some(place) => path.get(place + 1).copied(),
        None => None,
    }
}

// Whether what stands at a place comes directly after the neighbour.
fn comes_after(path: &[CoreId], place: usize, neighbour: CoreId) -> bool
    ensures after { result ≡ comes_after path.now place neighbour.0 }
{
    if place == 0 {
        return false;
    }
    match path.get(place - 1) {
        Some(before) => before.0 == neighbour.0,
        None => false,
    }
}

// Whether any of these is the core.
fn names(path: &[CoreId], core: CoreId) -> bool
    ensures any { result ≡ list_any (is_core core.0) path.now }
{
    path.iter().any(|one| one.0 == core.0)
}

/// Whether a route names a core just once, directly after its neighbour.
pub(crate) fn is_on_route(path: &[CoreId], neighbour: CoreId, core: CoreId) -> bool
    ensures on { result ≡ is_on_route path.now neighbour.0 core.0 }
{
    match place_of(path, core) {
        Some(place) => comes_after(path, place, neighbour) && !names(&path[place + 1..], core),
        None => false,
    }
}

// Whether no core stands twice.
fn all_differ(path: &[CoreId]) -> bool
    ensures differ { result ≡ all_differ path.now }
{
    let [first, rest @ ..] = path else {
        return true;
    };
    !names(rest, *first) && all_differ(rest)
}

// Whether a core stands at a place.
fn stands_at(path: &[CoreId], place: usize, core: CoreId) -> bool
    ensures stands { result ≡ given (slice_get path.now place) false (is_core core.0) }
{
    match path.get(place) {
        Some(one) => one.0 == core.0,
        None => false,
    }
}

// Whether all are cores of a world of so many.
fn are_cores(path: &[CoreId], cores: usize) -> bool
    ensures all { result ≡ list_all (λ (c : CoreId). nat_lt c.0 cores) path.now }
{
    path.iter().all(|one| usize::from(one.0) < cores)
}

/// Whether these are 2 to 16 cores of a world of so many, the client's first, the server's last, and none twice.
pub(crate) fn is_route(path: &[CoreId], client: CoreId, server: CoreId, cores: usize) -> bool
    ensures route { result ≡ is_route path.now client.0 server.0 cores }
{
    let count = path.len();
    count >= 2
        && count <= MAX_ROUTE
        && are_cores(path, cores)
        && stands_at(path, 0, client)
        && stands_at(path, count - 1, server)
        && all_differ(path)
}
