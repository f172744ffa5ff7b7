// Reasons 12 and 15, and 12 to 15 of a trade, by how a participant stands.
#![tactic(auto, unfolding(reasons::specs::Chain::when))]

ghost use Rattle.std.specs.Prelude.{◌≡◌};
ghost use Rattle.book.specs.Words.{tradeable_in};
ghost use Rattle.reasons.specs.Numbers.{reason_said};
ghost use Rattle.ledger.specs.Judging.{credits_late, amend_late, late_by, LateFits, PartsOf, StandsAt};

use crate::lent::get;
use crate::standing::Standing;
use crate::totals::totals_of;
use crate::trades::allocation_by;
use book::{Account, Allocation, Month, NO_ACCOUNT};
use credits::tradeable;
use gate::{AllocationStep, Trade};
use reasons::{Reason, refused_if};
use sound::Totals;
use units::Thousandths;

impl<'a> Standing<'a> {
    // How a participant stands in a book that may be used.
    pub fn of(
        month: Month,
        accounts: &[Account],
        levels: &'a [u32],
        totals: &[Totals],
        participant: u8,
    ) -> Standing<'a>
        requires { PartsOf month accounts.now levels.now totals.now }
        ensures { StandsAt month accounts.now levels.now totals.now participant result }
    {
        Standing {
            month,
            levels,
            account: get(accounts, participant as usize, NO_ACCOUNT),
            totals: totals_of(totals, participant),
        }
    }
}

impl Standing<'_> {
    // Tradeable credits of a participant.
    pub fn credits_of(&self, participant: u8) -> Thousandths
        ensures { result.0 ≡ tradeable_in self.now.levels.now self.now.month.days participant }
    {
        Thousandths(tradeable(self.levels, self.month.days, participant) as u32)
    }

    // 12: a participant's credits do not cover what it needs.
    fn credits_late(&self, participant: u8, needed: u32) -> Result<(), Reason>
        ensures { reason_said result ≡ credits_late self.now participant needed }
    {
        refused_if(self.credits_of(participant).0 < needed, Reason::NotCovered)
    }

    // 15: a generator's excess does not cover the lowering of a quantity.
    fn amend_late(&self, generator: u8, old: Thousandths, new: Thousandths) -> Result<(), Reason>
        ensures { reason_said result ≡ amend_late self.now generator old.0 new.0 }
    {
        let excess = self.totals.made.above(self.credits_of(generator));
        refused_if(old <= new || excess < old.above(new), Reason::NoExcess)
    }

    // Reasons 12 to 15, where none before applies.
    #[tactic(auto, unfolding(reasons::specs::Chain::when, reasons::specs::Chain::first, crate::specs::Judging::late_by))]
    pub fn late(&self, here: Allocation, x: AllocationStep) -> Result<(), Reason>
        requires { LateFits here x.trade }
        ensures { reason_said result ≡ late_by self.now here x.party x.at x.trade }
    {
        let held = self.totals;
        match x.trade {
            Trade::Submit { quantity, .. } => {
                self.credits_late(x.party, quantity.0 + held.pending.0 + held.made.0)?;
                self.margin_late(allocation_by(x, here), x.at)
            }
            Trade::Accept(_) => {
                self.credits_late(here.generator, held.pending.0 + held.made.0)?;
                self.margin_late(here, x.at)
            }
            Trade::AgreeReversal(_) => self.margin_late(here, x.at),
            Trade::Amend { quantity, .. } => self.amend_late(x.party, here.quantity, quantity),
            Trade::Withdraw(_) | Trade::AskReversal(_) => Ok(()),
        }
    }
}
