//! Routes.

ghost use Rattle.std.specs.Prelude.{◌≡◌, ◌≤◌, ◌<◌, length, IfSome, IfNone};

use fl_base::{CoreId, MAX_CORES};
use std::marker::Model;

/// The most cores of a route.
pub const MAX_ROUTE: usize = MAX_CORES;

/// A route: the cores that a circuit goes over, the client's first and the service's last. It has at most
/// [`MAX_ROUTE`] of them, and takes no memory.
///
/// Contracts see the list of its cores. Nothing is asked of them here: whether they are cores of the world, at least two, none
/// of them twice, and whether each has a link to the next, is for the monitors to look at.
#[derive(Clone, Copy, Debug, PartialEq, Eq)]
pub struct Path {
    // The route's cores, and core 0 in the places behind them.
    cores: [CoreId; MAX_ROUTE],
    len: usize,
}

impl Model for Path {
    ghost use Rattle.std.specs.Prelude.{◌≤◌, List};
    ghost use Rattle.std.proofs.Common.{sym, subst, length-take-le};
    ghost use Rattle.fl_base.specs.declared.identity.CoreId.{CoreId};

    ghost Value = { List CoreId };

    ghost use Rattle.fl_monitor.specs.Paths.{cores_of, path_of, IsKept};

    ghost view = { cores_of };

    ghost invariant = { IsKept };

    ghost inverse = { path_of };

    ghost inverse_ok = { λ p h i. record {
      cores = sym h.rest i;
      len = length-take-le p.len p.cores (subst (λ n. p.len ≤ n) (sym h.long) h.few) i;
    } };
}

impl Path {
    /// The route over these cores, in order; `None` where there are more than [`MAX_ROUTE`].
    pub fn new(cores: &[CoreId]) -> Option<Path>
        ensures path { IfSome result (λ path. path ≡ cores.now) }
        ensures few { IfSome result (λ path. length path ≤ 16) }
        ensures none { IfNone result (16 < length cores.now) }
    {
        if cores.len() > MAX_ROUTE {
            return None;
        }
        let mut all = [CoreId(0); MAX_ROUTE];
        all[..cores.len()].copy_from_slice(cores);
        Some(Path {
            cores: all,
            len: cores.len(),
        })
    }

    /// The route's cores, in order.
    pub fn cores(&self) -> &[CoreId]
        ensures cores { result.now ≡ self.now }
        ensures few { length self.now ≤ 16 }
    {
        &self.cores[..self.len]
    }
}
