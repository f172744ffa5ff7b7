// The figures of a settlement, as numbers.
ghost use Rattle.boundary.specs.Inner.{held_numbers};
ghost use Rattle.std.specs.Prelude.{⊤};

use crate::tables::Numbered;
use settlement::Figures;

// Participant and the eight figures.
impl Numbered<u64, 9> for Figures {
    ghost numbers = { held_numbers };

    ghost keeps = { λ _. ⊤ };

    fn numbers(self) -> [u64; 9] {
        [
            self.participant as u64,
            self.tradeable.0 as u64,
            self.made.0 as u64,
            self.received.0 as u64,
            self.left.0 as u64,
            self.over.0 as u64,
            self.short.0 as u64,
            self.dsm.0 as u64,
            self.pay.0,
        ]
    }
}
