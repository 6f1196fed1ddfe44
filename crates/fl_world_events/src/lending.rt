//! Sides of rings, lent.

ghost use Rattle.std.specs.Prelude.{◌≡◌};
ghost use Rattle.fl_world_refines.specs.View.{ring_at, which_at, IsWhole};

use fl_core::Core;
use fl_ring::WhichSide;

/// What is known of a core at any time. It does nothing.
#[inline(always)]
pub(crate) fn law_whole(core: &Core)
    ensures whole { IsWhole core.now }
{
    core.law_sound();
}

/// The ring of side n.
#[inline(always)]
pub fn ring_at(n: usize) -> usize
    ensures ring { result ≡ ring_at n }
{
    n / 2
}

/// Which of its ring's two sides is side n.
#[inline(always)]
pub fn which_at(n: usize) -> WhichSide
    ensures which { result ≡ which_at n }
{
    if n % 2 == 0 {
        WhichSide::One
    } else {
        WhichSide::Two
    }
}
