// The account room: REGISTER, REQUIREMENT and MARGIN. It is lent the month and the accounts,
// and reads the totals; levels and ledger it does not see.
ghost use Rattle.std.specs.Prelude.{◌≡◌, length, ◌<◌, IfOk, IfSome};
ghost use Rattle.book.specs.Book.{participants};
ghost use Rattle.book.specs.Steps.{with_requirement, with_margin};
ghost use Rattle.ledger.specs.Writing.{account_by, stepped};
ghost use Rattle.ledger.specs.Rooms.{AccountRoom};

use crate::lent::get;
use crate::margin::net_of;
use crate::totals::totals_of;
use book::{Account, Margin, Month, NO_ACCOUNT};
use gate::{AccountChange, AccountStep, account_reason};
use reasons::Reason;
use sound::Totals;
use units::{Net, Thousandths};

// REQUIREMENT stores the requirement.
fn with_requirement(a: Account, requirement: Thousandths) -> Account
    ensures { result ≡ with_requirement requirement a }
{
    Account { requirement, ..a }
}

// MARGIN stores figure and present net.
fn with_margin(a: Account, margin: Margin) -> Account
    ensures { result ≡ with_margin margin a }
{
    Account { margin, ..a }
}

// REQUIREMENT writes that single account. This and the next are setters over functions by value, the
// form that document 01 names.
fn set_requirement(a: &mut Account, requirement: Thousandths)
    ensures { a.new ≡ with_requirement requirement a.old }
{
    *a = with_requirement(*a, requirement);
}

// MARGIN writes that single account.
fn set_margin(a: &mut Account, margin: Margin)
    ensures { a.new ≡ with_margin margin a.old }
{
    *a = with_margin(*a, margin);
}

// What a done step writes to the account. REGISTER sets A's roles.
fn alter(a: &mut Account, change: AccountChange, net: Net)
    ensures { a.new ≡ account_by change net a.old }
{
    match change {
        AccountChange::Roles(roles) => a.roles = roles,
        AccountChange::Requirement(quantity) => set_requirement(a, quantity),
        AccountChange::Margin(figure) => set_margin(a, Margin { figure, net }),
    }
}

// The room.
pub fn account_room(
    month: &mut Month,
    accounts: &mut [Account],
    totals: &[Totals],
    x: AccountStep,
) -> Result<Option<u16>, Reason>
    requires { length accounts.old ≡ participants }
    ensures does { AccountRoom month.old accounts.old totals.now x (stepped month.new result) accounts.new }
    ensures numbered { IfOk result (λ given. IfSome given (λ n. 0 < n)) }
{
    let i = x.participant as usize;
    account_reason(*month, get(accounts, i, NO_ACCOUNT).roles, x)?;
    alter(
        &mut accounts[i],
        x.change,
        net_of(totals_of(totals, x.participant)),
    );
    month.last = x.at;
    Ok(None)
}
