// The cut room: OPERATOR AMENDS. It is lent the month, the ledger and the totals, and reads the
// accounts and the levels.
ghost use Rattle.std.specs.Prelude.{◌≡◌, length, Some, ◌<◌, IfOk, IfSome};
ghost use Rattle.sound.specs.Check.{book_from};
ghost use Rattle.reasons.specs.Numbers.{reason_said};
ghost use Rattle.gate.specs.Rooms.{cut_step};
ghost use Rattle.ledger.specs.Ready.{Ready};
ghost use Rattle.ledger.specs.Judging.{JudgedCut};
ghost use Rattle.ledger.specs.Writing.{stepped};
ghost use Rattle.ledger.specs.Rooms.{DoesStep};

use crate::cut::cut_to;
use crate::standing::Standing;
use book::{Account, Allocation, Month};
use gate::{CutStep, cut_reason};
use reasons::{Reason, refused_if};
use sound::Totals;
use units::Thousandths;

// What a cut is refused for: 15 where the generator has no excess.
fn judge_cut(s: &Standing<'_>, credits: Thousandths, x: CutStep) -> Result<(), Reason>
    ensures { JudgedCut s.now credits.0 x (reason_said result) }
{
    cut_reason(s.month, s.account.roles, x)?;
    let excess = s.totals.made.above(credits);
    refused_if(excess == Thousandths(0), Reason::NoExcess)
}

// The room: accounts and levels stay, and a refused step writes nothing. A done one works out the
// totals anew.
pub fn cut_room(
    month: &mut Month,
    accounts: &[Account],
    levels: &[u32],
    ledger: &mut [Allocation],
    totals: &mut [Totals],
    x: CutStep,
) -> Result<Option<u16>, Reason>
    requires { Ready (book_from month.old accounts.now levels.now ledger.old) totals.old }
    ensures does { DoesStep (book_from month.old accounts.now levels.now ledger.old) (Some (cut_step x)) (stepped month.new result) accounts.now levels.now ledger.new totals.new }
    ensures numbered { IfOk result (λ given. IfSome given (λ n. 0 < n)) }
{
    let standing = Standing::of(*month, accounts, levels, totals, x.generator);
    let credits = standing.credits_of(x.generator);
    judge_cut(&standing, credits, x)?;
    cut_to(x.generator, credits, ledger);
    totals.copy_from_slice(&sound::totals(ledger));
    month.last = x.at;
    Ok(None)
}
