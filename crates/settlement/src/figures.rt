// One participant's figures, from its account, its totals, and the month and the levels of the book.
ghost use Rattle.std.specs.Prelude.{◌≡◌, ◌*◌, nat_abs};
ghost use Rattle.credits.specs.Credits.{dsm_at};
ghost use Rattle.settlement.specs.Figures.{figures_in, no_figures, credits_from, figures_from, exceeds};
ghost use Rattle.settlement.specs.Listing.{Settleable};

use book::{Account, Month};
use credits::{dsm, tradeable};
use reasons::is_generator;
use sound::Totals;
use units::Thousandths;

// Thousandths of a cent.
#[derive(Clone, Copy, PartialEq, Eq, PartialOrd, Ord)]
pub struct Pay(pub u64);

// What settlement says of a participant.
#[derive(Clone, Copy, PartialEq, Eq)]
pub struct Figures {
    pub participant: u8,
    pub tradeable: Thousandths,
    pub made: Thousandths,
    pub received: Thousandths,
    pub left: Thousandths,
    pub over: Thousandths,
    pub short: Thousandths,
    pub dsm: Thousandths,
    pub pay: Pay,
}

// What stands in a place that is not used.
pub fn no_figures() -> Figures
    ensures { result ≡ no_figures }
{
    let none = Thousandths(0);
    Figures {
        participant: 0,
        tradeable: none,
        made: none,
        received: none,
        left: none,
        over: none,
        short: none,
        dsm: none,
        pay: Pay(0),
    }
}

// An open month and its levels, of a book that may be used: each number is inside its limits.
#[derive(Clone, Copy)]
pub struct Open<'a> {
    pub month: Month,
    pub levels: &'a [u32],
    ghost settleable: { Settleable month levels.now },
}

impl Open<'_> {
    // Tradeable credits; a participant that is no generator has none.
    #[tactic(auto, using(credits::proofs::Sums::tradeable_most))]
    fn credits(&self, a: Account, p: u8) -> Thousandths
        ensures { result.0 ≡ credits_from self.now.month self.now.levels.now a p }
    {
        if is_generator(a.roles) {
            Thousandths(tradeable(self.levels, self.month.days, p) as u32)
        } else {
            Thousandths(0)
        }
    }

    #[tactic(auto, using(credits::proofs::Sums::dsm_most))]
    fn dsm(&self, p: u8) -> Thousandths
        ensures { result.0 ≡ dsm_at self.now.levels.now self.now.month.days p }
    {
        Thousandths(dsm(self.levels, self.month.days, p) as u32)
    }

    // What a quantity costs at the month's price, in cents per MW.
    fn pay_for(&self, quantity: Thousandths) -> Pay
        ensures { result.0 ≡ quantity.0 * nat_abs self.now.month.price.0 }
    {
        Pay(quantity.0 as u64 * self.month.price.0 as u64)
    }

    // The eight figures.
    #[tactic(auto, unfolding(crate::specs::Figures::figures_from))]
    pub fn figures(&self, a: Account, t: Totals, p: u8) -> Figures
        ensures { result ≡ figures_in (figures_from self.now.month self.now.levels.now a t.made.0 t.received.0 p) }
    {
        let credits = self.credits(a, p);
        let received = t.received;
        let over = received.above(a.requirement);
        Figures {
            participant: p,
            tradeable: credits,
            made: t.made,
            received,
            left: credits.above(t.made),
            over,
            short: a.requirement.above(received),
            dsm: self.dsm(p),
            pay: self.pay_for(over),
        }
    }

    // Whether a generator has made more than its credits.
    #[tactic(auto, unfolding(crate::specs::Figures::exceeds))]
    pub fn has_excess(&self, a: Account, t: Totals, p: u8) -> bool
        ensures { result ≡ exceeds self.now.month self.now.levels.now a t.made.0 p }
    {
        is_generator(a.roles) && self.credits(a, p) < t.made
    }
}
