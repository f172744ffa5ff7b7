// Money: cents, as 64 bits with a sign hold them.
ghost use Rattle.std.specs.Prelude.{◌≡◌, refl, ◌+ℤ◌};
ghost use Rattle.std.specs.Int.Signed.{le_z};
ghost use Rattle.std.specs.Int.{w64};
ghost use Rattle.units.specs.Capped.{capped_z};
ghost use Rattle.units.specs.Kept.{integer_laws};

use crate::{Cents, Unit};

impl Unit for Cents {
    ghost sum = { λ a b. record { 0 = capped_z w64 (a.0 +ℤ b.0) } };

    ghost is_at_most = { λ a b. le_z a.0 b.0 };

    fn plus(self, other: Cents) -> Cents
        ensures { result.0 ≡ capped_z w64 (self.0 +ℤ other.0) }
    {
        Cents(self.0.saturating_add(other.0))
    }

    ghost laws = { integer_laws w64 (λ a. a.0) (λ z. record { 0 = z }) (λ a. refl) };
}
