//! What holds of sides in use: laws, as the contracts of functions that do nothing.

ghost use Rattle.fl_cores_shares.specs.Settled.{HandedOutGoOn, RingsStay, RingsConserve};

use fl_link::law_calls_alone;
use fl_ring::law_side_conserves;

/// Sides that were handed out and went on are still in their owners' hands, and of the same rings.
pub fn law_handed_out_go_on()
    ensures go_on { HandedOutGoOn }
    ensures stay { RingsStay }
{
    law_side_conserves();
}

/// What the sides of a new ring took, once they are put together again, are the first of the fragments that the other put.
pub fn law_rings_conserve()
    ensures conserve { RingsConserve }
{
    law_side_conserves();
    law_calls_alone();
}
