// Signed minutes, for those who print them.
ghost use Rattle.std.specs.Prelude.{◌≡◌, nat_abs};

use units::Minutes;

// How many minutes a time lies from 8:00 on the month's first day, before it or after.
pub fn minutes_away(m: Minutes) -> u64
    ensures { result ≡ nat_abs m.0 }
{
    u64::from(m.0.unsigned_abs())
}
