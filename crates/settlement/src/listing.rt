// The figures of all registered participants, in order, and whether one has an excess.
ghost use Rattle.std.specs.Prelude.{◌≡◌, ◌≤◌, ◌<◌, ◌+◌, take, set, replicate};
ghost use Rattle.book.specs.Book.{participants};
ghost use Rattle.settlement.specs.Figures.{no_figures};
ghost use Rattle.settlement.specs.Listing.{settled_from, excess_from};

use crate::figures::{Figures, Open, no_figures};
use book::Account;
use reasons::PARTICIPANTS;
use sound::Totals;

// The figures of each registered participant, so many of them, in a table with a place for each
// participant. The later places are not used, and zero: `settle_whole` promises that (`filled`).
#[derive(Clone, Copy)]
pub struct Listing {
    pub count: u8,
    pub figures: [Figures; 32],
    ghost few: { count ≤ participants },
}

impl Listing {
    // Nobody's.
    fn none() -> Listing
        ensures { (result.count ≡ 0) × (result.figures ≡ replicate participants no_figures) }
    {
        Listing {
            count: 0,
            figures: [no_figures(); 32],
        }
    }

    // One more.
    fn push(&mut self, f: Figures)
        requires { self.old.count < participants }
        ensures { (self.new.count ≡ self.old.count + 1) × (self.new.figures ≡ set self.old.figures self.old.count f) }
    {
        self.figures[self.count as usize] = f;
        self.count += 1;
    }

    // Those of the registered participants, and no others.
    pub fn figures(&self) -> &[Figures]
        ensures { result.now ≡ take self.now.count self.now.figures }
    {
        &self.figures[..self.count as usize]
    }
}

impl Open<'_> {
    ghost use Rattle.settlement.specs.Lists.{Lists};

    // All registered participants'.
    pub fn listed(&self, accounts: &[Account; 32], totals: &[Totals; 32]) -> Listing
        ensures { Lists result (settled_from self.now.month self.now.levels.now accounts.now totals.now participants) }
    {
        let mut list = Listing::none();
        for p in 0..PARTICIPANTS {
            let a = accounts[p as usize];
            if a.roles != 0 {
                list.push(self.figures(a, totals[p as usize], p));
            }
        }
        list
    }

    // Whether some generator has made more than its credits.
    pub fn any_excess(&self, accounts: &[Account; 32], totals: &[Totals; 32]) -> bool
        ensures { result ≡ excess_from self.now.month self.now.levels.now accounts.now totals.now }
    {
        (0..PARTICIPANTS).any(|p| self.has_excess(accounts[p as usize], totals[p as usize], p))
    }
}
