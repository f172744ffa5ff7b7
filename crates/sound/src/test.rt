// Whether a book is sound, with its accounts and the totals of its ledger: the lengths of the tables
// first, then what stands in them.
ghost use Rattle.std.specs.Prelude.{◌≡◌, ◌||◌};
ghost use Rattle.sound.specs.Check.{book_from, lengths_fit, fresh_fits, open_fits};
ghost use Rattle.sound.specs.Lent.{lent_book};
ghost use Rattle.sound.specs.Checking.{Checks};

use crate::adding::totals;
use crate::limits::{is_no_month, month_sound};
use crate::made::Totals;
use crate::tables::{
    accounts_sound, held_fits, levels_fit, no_accounts, no_allocations, no_levels, records_fit,
};
use book::{Account, Allocation, Month, fresh_accounts, fresh_ledger};

// Whether a book may be used; its accounts and the totals of its ledger, or those of the fresh book
// where a table has a wrong length. A flag beside them, since `Checks` promises both of a book that
// may not be used too.
#[derive(Clone, Copy)]
pub struct Checked {
    pub usable: bool,
    pub accounts: [Account; 32],
    pub totals: [Totals; 32],
}

// A lent book.
#[derive(Clone, Copy)]
struct Lent<'a> {
    month: Month,
    accounts: &'a [Account],
    levels: &'a [u32],
    ledger: &'a [Allocation],
}

impl Lent<'_> {
    // Whether the tables have their lengths.
    fn has_right_lengths(&self) -> bool
        ensures { result ≡ lengths_fit (lent_book self.now) }
    {
        self.accounts.len() == 32 && self.levels.len() == 3968 && self.ledger.len() == 256
    }

    // Whether no month is open, and all else is zero.
    fn is_fresh(&self) -> bool
        ensures { result ≡ fresh_fits (lent_book self.now) }
    {
        is_no_month(self.month)
            && no_accounts(self.accounts)
            && no_levels(self.levels)
            && no_allocations(self.ledger)
    }

    // Whether a month is open, and each part is inside its limits, by the totals of the ledger.
    fn is_open(&self, totals: &[Totals]) -> bool
        ensures { result ≡ open_fits (lent_book self.now) totals.now }
    {
        month_sound(self.month)
            && accounts_sound(self.accounts)
            && levels_fit(self.month.days, self.levels)
            && records_fit(self.month.given, self.accounts, self.ledger)
            && held_fits(totals)
    }

    // The one or the other.
    fn is_sound(&self, totals: &[Totals]) -> bool
        ensures { result ≡ (fresh_fits (lent_book self.now) || open_fits (lent_book self.now) totals.now) }
    {
        self.is_fresh() || self.is_open(totals)
    }
}

// Of a lent book, whatever it holds and however long its tables are.
pub fn check(month: Month, accounts: &[Account], levels: &[u32], ledger: &[Allocation]) -> Checked
    ensures { Checks (book_from month accounts.now levels.now ledger.now) result }
{
    let book = Lent {
        month,
        accounts,
        levels,
        ledger,
    };
    let mut own = fresh_accounts();
    if book.has_right_lengths() {
        own.copy_from_slice(accounts);
        let sums = totals(ledger);
        Checked {
            usable: book.is_sound(&sums),
            accounts: own,
            totals: sums,
        }
    } else {
        Checked {
            usable: false,
            accounts: own,
            totals: totals(&fresh_ledger()),
        }
    }
}
