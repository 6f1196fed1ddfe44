//! What a look answers.

ghost use Rattle.std.specs.Prelude.{◌≡◌};
ghost use Rattle.fl_ring.specs.SharedSeats.{sight_of};

use fl_base::Frag;
use fl_link::Sight;

// What a look that finds this fragment answers.
pub(crate) fn sight(frag: Frag) -> Sight
    ensures { result ≡ sight_of frag }
{
    if frag.is_ack_only() {
        return Sight::Acknowledgement;
    }
    Sight::Data(frag)
}
