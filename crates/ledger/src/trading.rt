// The allocation room: SUBMIT, WITHDRAW, ACCEPT, ASK REVERSAL, AGREE REVERSAL and GENERATOR AMENDS.
// It is lent the month, the ledger and the totals, and reads the accounts and the levels.
ghost use Rattle.std.specs.Prelude.{◌≡◌, Some, IfOk, get_or, ◌<◌, IfSome};
ghost use Rattle.book.specs.Book.{no_allocation};
ghost use Rattle.book.specs.Reasons.{reason_of};
ghost use Rattle.reasons.specs.Numbers.{reason_said};
ghost use Rattle.sound.specs.Check.{book_from};
ghost use Rattle.gate.specs.Rooms.{allocation_step};
ghost use Rattle.ledger.specs.Ready.{Ready};
ghost use Rattle.ledger.specs.Judging.{place_of};
ghost use Rattle.ledger.specs.Writing.{stepped};
ghost use Rattle.ledger.specs.Rooms.{DoesStep};

use crate::lent::{get, put};
use crate::standing::Standing;
use crate::totals::move_totals;
use crate::trades::{allocation_by, customer_in, judged_by, place, store};
use book::{Account, Allocation, Month, NO_ACCOUNT, NO_ALLOCATION};
use gate::{AllocationStep, allocation_reason};
use reasons::Reason;
use sound::Totals;

// What a step is refused for, or the record at its place.
fn judge(
    m: Month,
    accounts: &[Account],
    levels: &[u32],
    ledger: &[Allocation],
    totals: &[Totals],
    x: AllocationStep,
) -> Result<Allocation, Reason>
    requires { Ready (book_from m accounts.now levels.now ledger.now) totals.now }
    ensures reason { reason_said result ≡ reason_of (book_from m accounts.now levels.now ledger.now) (allocation_step x) }
    ensures at_place { IfOk result (λ here. here ≡ get_or ledger.now (place_of m x.trade) no_allocation) }
{
    let here = get(ledger, place(m, x), NO_ALLOCATION);
    let roles = get(accounts, x.party as usize, NO_ACCOUNT).roles;
    let customers = get(accounts, customer_in(x) as usize, NO_ACCOUNT).roles;
    allocation_reason(m, roles, customers, here, x)?;
    Standing::of(m, accounts, levels, totals, judged_by(x, here)).late(here, x)?;
    Ok(here)
}

// The room: accounts and levels stay, and a refused step writes nothing.
pub fn allocation_room(
    month: &mut Month,
    accounts: &[Account],
    levels: &[u32],
    ledger: &mut [Allocation],
    totals: &mut [Totals],
    x: AllocationStep,
) -> Result<Option<u16>, Reason>
    requires { Ready (book_from month.old accounts.now levels.now ledger.old) totals.old }
    ensures does { DoesStep (book_from month.old accounts.now levels.now ledger.old) (Some (allocation_step x)) (stepped month.new result) accounts.now levels.now ledger.new totals.new }
    ensures numbered { IfOk result (λ given. IfSome given (λ n. 0 < n)) }
{
    let old = judge(*month, accounts, levels, ledger, totals, x)?;
    let new = allocation_by(x, old);
    move_totals(totals, old, new);
    put(ledger, place(*month, x), new);
    Ok(store(month, x))
}
