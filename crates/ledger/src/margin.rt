// The margin test (002, section 8), and reason 13.
ghost use Rattle.std.specs.Prelude.{◌≡◌, ◌≤◌, pos, nat_abs};
ghost use Rattle.std.specs.Int.Signed.{lt_z};
ghost use Rattle.book.specs.Book.{most_quantity};
ghost use Rattle.book.specs.Words.{exposed_days, margin_of};
ghost use Rattle.book.specs.Reasons.{change};
ghost use Rattle.reasons.specs.Numbers.{reason_said};
ghost use Rattle.ledger.specs.Judging.{net_of, margin_late};

use crate::standing::Standing;
use book::Allocation;
use reasons::{Reason, refused_if};
use sound::Totals;
use units::{Minutes, Net};

// Whole days since the month began, at most all of them: 0 before it.
#[tactic(auto, unfolding(book::specs::Words::exposed_days))]
fn exposed(at: Minutes, days: u8) -> u8
    ensures { (result ≡ exposed_days at.0 days) × (result ≤ days) }
{
    let passed = at.0.max(0) as u32 / 1440;
    passed.min(days as u32) as u8
}

// The change in net that a record makes: minus its quantity, and 0 where its generator is its
// customer.
#[tactic(auto, unfolding(book::specs::Reasons::change))]
fn change_of(l: Allocation) -> Net
    ensures { (result.0 ≡ change l.generator l.customer l.quantity.0) × (nat_abs result.0 ≤ l.quantity.0) }
{
    if l.generator == l.customer {
        Net(0)
    } else {
        Net(-i64::from(l.quantity.0))
    }
}

// Accepted quantity received minus accepted quantity made.
pub fn net_of(s: Totals) -> Net
    ensures { result ≡ record { 0 = net_of s } }
{
    Net(s.received.0 as i64 - s.made.0 as i64)
}

impl Standing<'_> {
    // Whether the margin test fails for a change in net.
    fn is_short(&self, at: Minutes, change: Net) -> bool
        requires { nat_abs change.0 ≤ most_quantity }
        ensures { result ≡ lt_z (margin_of self.now.month self.now.account (net_of self.now.totals) at change.0) (pos 0) }
    {
        let days = self.month.days as i64;
        let e = exposed(at, self.month.days) as i64;
        let net = net_of(self.totals);
        let stored = self.account.margin;
        let moved = net.0 + change.0 - stored.net.0;
        let held = stored.figure.0 * 10000 * days;
        let exposure = 11 * self.month.price.0 * e * moved;
        held + exposure < 0
    }

    // 13: the margin test fails for what a record changes.
    #[tactic(auto, unfolding(reasons::specs::Chain::when))]
    pub fn margin_late(&self, l: Allocation, at: Minutes) -> Result<(), Reason>
        requires { l.quantity.0 ≤ most_quantity }
        ensures { reason_said result ≡ margin_late self.now l at }
    {
        refused_if(self.is_short(at, change_of(l)), Reason::MarginFails)
    }
}
