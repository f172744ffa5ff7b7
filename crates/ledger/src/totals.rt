// The totals of each participant that a run keeps beside its ledger.
ghost use Rattle.std.specs.Prelude.{◌≡◌, ◌+◌, ◌-◌};
ghost use Rattle.reasons.specs.Parts.{pends, counts};
ghost use Rattle.ledger.specs.Ready.{Moves, TotalsMove};
ghost use Rattle.ledger.specs.Judging.{totals_at};
ghost use Rattle.ledger.specs.Writing.{generator_after, customer_after, totals_after};

use crate::lent::get;
use book::Allocation;
use reasons::{accepted_in, pending_in};
use sound::{NO_TOTALS, Totals};
use units::Thousandths;

// The totals of a participant; none past the last one.
pub fn totals_of(totals: &[Totals], participant: u8) -> Totals
    ensures { result ≡ totals_at totals.now participant }
{
    get(totals, participant as usize, NO_TOTALS)
}

// A total, less what a record gave and with what it gives now.
fn moved(total: Thousandths, gave: u32, gives: u32) -> Thousandths
    requires { Moves gave gives total.0 }
    ensures { result.0 ≡ total.0 - gave + gives }
{
    Thousandths(total.0 - gave + gives)
}

// The totals of the generator of a record that is replaced.
fn generator_after(old: Allocation, new: Allocation, s: Totals) -> Totals
    requires { Moves (pends old) (pends new) s.pending.0 × Moves (counts old) (counts new) s.made.0 }
    ensures { result ≡ generator_after old new s }
{
    Totals {
        pending: moved(s.pending, pending_in(old), pending_in(new)),
        made: moved(s.made, accepted_in(old), accepted_in(new)),
        ..s
    }
}

// And those of its customer.
fn customer_after(old: Allocation, new: Allocation, s: Totals) -> Totals
    requires { Moves (counts old) (counts new) s.received.0 }
    ensures { result ≡ customer_after old new s }
{
    Totals {
        received: moved(s.received, accepted_in(old), accepted_in(new)),
        ..s
    }
}

// The totals after a record was replaced by another of the same parties.
#[tactic(auto, unfolding(crate::specs::Writing::totals_after))]
pub fn move_totals(totals: &mut [Totals], old: Allocation, new: Allocation)
    requires { TotalsMove totals.old old new }
    ensures { totals.new ≡ totals_after old new totals.old }
{
    let g = new.generator as usize;
    let c = new.customer as usize;
    totals[g] = generator_after(old, new, totals[g]);
    totals[c] = customer_after(old, new, totals[c]);
}
