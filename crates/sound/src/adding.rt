// The totals of a ledger: what each participant has pending, made and received, each capped at what
// a quantity can hold.
ghost use Rattle.std.specs.Prelude.{◌≡◌};
ghost use Rattle.sound.specs.Check.{added_in, CappedTotals};

use crate::made::{NO_TOTALS, Totals};
use book::Allocation;
use reasons::{PARTICIPANTS, accepted_in, pending_in};
use units::{Thousandths, Unit};

// What a record adds to the totals of its parties; nobody past the last participant has any.
#[tactic(auto, unfolding(crate::specs::Check::added_in))]
fn add_in(totals: &mut [Totals; 32], l: Allocation)
    ensures { totals.new ≡ added_in l totals.old }
{
    let accepted = Thousandths(accepted_in(l));
    if l.generator < PARTICIPANTS {
        let t = &mut totals[usize::from(l.generator)];
        t.pending = t.pending.plus(Thousandths(pending_in(l)));
        t.made = t.made.plus(accepted);
    }
    if l.customer < PARTICIPANTS {
        let t = &mut totals[usize::from(l.customer)];
        t.received = t.received.plus(accepted);
    }
}

pub fn totals(ledger: &[Allocation]) -> [Totals; 32]
    ensures { CappedTotals result ledger.now }
{
    let mut totals = [NO_TOTALS; 32];
    for l in ledger {
        add_in(&mut totals, *l);
    }
    totals
}
