// What holds of every unit, for code that is generic over one.
ghost use Rattle.std.specs.Prelude.{◌≡◌, Bool};
ghost use Rattle.units.specs.Laws.{UnitLaws};

pub trait Unit: Copy + Ord {
    // The two together, as the unit holds them.
    ghost sum: { Self → Self → Self };

    // Whether the first is no more than the second.
    ghost is_at_most: { Self → Self → Bool };

    // The two together: where the unit cannot hold their sum, the nearest value that it can.
    fn plus(self, other: Self) -> Self
        ensures { result ≡ sum self other };

    // Whether this value is no more than the other.
    fn at_most(self, other: Self) -> bool
        ensures { result ≡ is_at_most self other }
    {
        self <= other
    }

    ghost laws: { UnitLaws sum is_at_most Self.partial_cmp };
}
