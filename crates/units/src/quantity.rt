// Quantities: thousandths of a MW, from none to the most that 32 bits hold.
ghost use Rattle.std.specs.Prelude.{◌≡◌, refl, ◌+◌, ◌-◌, leb};
ghost use Rattle.units.specs.Capped.{capped};
ghost use Rattle.units.specs.Kept.{natural_laws};

use crate::{Thousandths, Unit};

impl Unit for Thousandths {
    ghost sum = { λ a b. record { 0 = capped (a.0 + b.0) } };

    ghost is_at_most = { λ a b. leb a.0 b.0 };

    fn plus(self, other: Thousandths) -> Thousandths
        ensures { result.0 ≡ capped (self.0 + other.0) }
    {
        Thousandths(self.0.saturating_add(other.0))
    }

    ghost laws = { natural_laws (λ a. a.0) (λ k. record { 0 = k }) (λ a. refl) };
}

impl Thousandths {
    // How far this quantity is above the other, and none where it is not.
    pub fn above(self, other: Thousandths) -> Thousandths
        ensures { result.0 ≡ self.0 - other.0 }
    {
        Thousandths(self.0.saturating_sub(other.0))
    }
}
