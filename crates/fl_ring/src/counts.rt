//! How a 16-bit number names a full count.

ghost use Rattle.std.specs.Prelude.{◌≡◌, ℕ, ◌+◌, ◌-◌, ◌^◌, ◌%◌, ◌<◌, ◌≤◌};
ghost use Rattle.fl_ring.specs.Counts.{count_from};

/// The first count from `known` on that agrees with `number` modulo 65,536.
///
/// Within 65,536 counts there is only one, so a number of 16 bits names it.
#[inline]
pub fn count_from(known: u64, number: u16) -> u64
    requires { known ≤ 2 ^ 62 }
    ensures count { result ≡ count_from known number }
    ensures from { known ≤ result }
    ensures near { result < known + 65536 }
    ensures agrees { result % 65536 ≡ number }
    ensures only { (count : ℕ) → known ≤ count → count < known + 65536 → count % 65536 ≡ number → result ≡ count }
{
    known + (u64::from(number) + 65_536 - known % 65_536) % 65_536
}
