// Each table of a book, whole. One chain in a function, since of two in one no proof is found.
ghost use Rattle.std.specs.Prelude.{◌≡◌, eqb};
ghost use Rattle.std.specs.List.{list_all};
ghost use Rattle.book.specs.Sound.{is_no_account, is_no_allocation, account_sound};
ghost use Rattle.sound.specs.Check.{most_on, row_fits, levels_fit, records_fit, held_fits};

use crate::limits::{account_sound, is_no_account, is_no_allocation, record_fits};
use crate::made::Totals;
use book::{Account, Allocation};
use reasons::{MOST_LEVEL, MOST_QUANTITY};
use units::{Thousandths, Unit};

// Nobody registered.
pub fn no_accounts(accounts: &[Account]) -> bool
    ensures { result ≡ list_all is_no_account accounts.now }
{
    accounts.iter().copied().all(is_no_account)
}

// No credits.
pub fn no_levels(levels: &[u32]) -> bool
    ensures { result ≡ list_all (λ l. eqb l 0) levels.now }
{
    levels.iter().all(|l| *l == 0)
}

// No allocation.
pub fn no_allocations(ledger: &[Allocation]) -> bool
    ensures { result ≡ list_all is_no_allocation ledger.now }
{
    ledger.iter().copied().all(is_no_allocation)
}

// The accounts inside their limits.
pub fn accounts_sound(accounts: &[Account]) -> bool
    ensures { result ≡ list_all account_sound accounts.now }
{
    accounts.iter().copied().all(account_sound)
}

// The most that a level may be on a day, from 0: nothing after the month's last.
fn most_on(days: u8, day: usize) -> u32
    ensures { result ≡ most_on days day }
{
    if day < usize::from(days) {
        MOST_LEVEL
    } else {
        0
    }
}

// The levels of one participant and kind. A whole row at a time, by `&`: to leave at the first level
// that does not fit, as `all` does, is half as quick.
fn row_fits(days: u8, row: &[u32]) -> bool
    ensures { result ≡ row_fits days row.now }
{
    row.iter().enumerate().fold(true, |fits, (day, level)| {
        fits & (*level <= most_on(days, day))
    })
}

// The levels of all participants and kinds, a row of 31 for each.
pub fn levels_fit(days: u8, levels: &[u32]) -> bool
    ensures { result ≡ levels_fit days levels.now }
{
    let (rows, _) = levels.as_chunks::<31>();
    rows.iter().all(|row| row_fits(days, row))
}

// The records, those up to the number given and the later ones.
pub fn records_fit(given: u16, accounts: &[Account], ledger: &[Allocation]) -> bool
    ensures { result ≡ records_fit given accounts.now ledger.now }
{
    ledger
        .iter()
        .enumerate()
        .all(|(i, l)| record_fits(given, accounts, i, *l))
}

// What each generator has pending and accepted.
pub fn held_fits(totals: &[Totals]) -> bool
    ensures { result ≡ held_fits totals.now }
{
    totals
        .iter()
        .all(|t| t.pending.plus(t.made) <= Thousandths(MOST_QUANTITY))
}
