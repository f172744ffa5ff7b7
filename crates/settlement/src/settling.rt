// Settlement of a lent book into a lent room, or of a book that is held whole.
ghost use Rattle.std.specs.Prelude.{◌≡◌};
ghost use Rattle.sound.specs.Check.{book_from};
ghost use Rattle.settlement.specs.Settling.{SettlesWhole, Settles};

use crate::figures::{Figures, Open};
use crate::listing::Listing;
use book::{Account, Allocation, Month, Whole};
use reasons::Reason;
use sound::check;

// A room for figures has a place for each participant.
const PLACES: usize = 32;

// The settlement of a lent book, whatever it holds and however long its tables are.
fn settled(
    month: Month,
    accounts: &[Account],
    levels: &[u32],
    ledger: &[Allocation],
) -> Result<Listing, Reason>
    ensures { SettlesWhole (book_from month accounts.now levels.now ledger.now) result }
{
    let found = check(month, accounts, levels, ledger);
    if !found.usable {
        return Err(Reason::Unusable);
    }
    if month.days == 0 {
        return Err(Reason::NoMonth);
    }
    let open = Open { month, levels };
    if open.any_excess(&found.accounts, &found.totals) {
        return Err(Reason::Excess);
    }
    Ok(open.listed(&found.accounts, &found.totals))
}

// The settlement of a book that is held whole.
pub fn settle_whole(book: &Whole, levels: &[u32]) -> Result<Listing, Reason>
    ensures { SettlesWhole (book_from book.now.month book.now.accounts levels.now book.now.ledger) result }
{
    settled(book.month, &book.accounts, levels, &book.ledger)
}

// The settlement of a lent book, into a lent room: how many figures there are.
pub fn settle(
    month: Month,
    accounts: &[Account],
    levels: &[u32],
    ledger: &[Allocation],
    figures: &mut [Figures],
) -> Result<u8, Reason>
    ensures { Settles (book_from month accounts.now levels.now ledger.now) figures.old result figures.new }
{
    if figures.len() != PLACES {
        return Err(Reason::Unusable);
    }
    let list = settled(month, accounts, levels, ledger)?;
    figures[..list.count as usize].copy_from_slice(list.figures());
    Ok(list.count)
}
