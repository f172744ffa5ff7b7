// A lent book read from its numbers: each part from its own, or none where a field cannot hold its
// number.
ghost use Rattle.std.specs.Prelude.{◌≡◌, Some, None, cond};
ghost use Rattle.units.specs.Capped.{most_thousandths};
ghost use Rattle.boundary.specs.Numbers.{counted, minutes_in, most_byte, month_in, account_at, allocation_at};
ghost use Rattle.boundary.specs.Readable.{fits_to, fits_minute, window_fits, month_reads, account_reads, allocation_reads, readable};
ghost use Rattle.boundary.specs.Inner.{whole_said, window_said, status_said, status_fits};

use crate::tables::{Readable, read_table};
use book::{Account, Allocation, Margin, Month, Status, Whole, Window, fresh_whole};
use units::{Cents, Minutes, Net, Thousandths};

// How many numbers a lent book has: 12 for the month, 4 for each of 32 accounts, 5 for each of 256
// records.
pub const BOOK_PLACES: usize = 1420;

// A minute, or none where the number is no minute.
fn minutes_of(number: i64) -> Option<Minutes>
    ensures { result ≡ cond (fits_minute number) (Some (minutes_in number)) None }
{
    Some(Minutes(i32::try_from(number).ok()?))
}

#[tactic(auto, unfolding(crate::specs::Readable::window_fits))]
fn window_of(opening: i64, closing: i64) -> Option<Window>
    ensures { result ≡ cond (window_fits opening closing) (Some (window_said opening closing)) None }
{
    Some(Window {
        opening: minutes_of(opening)?,
        closing: minutes_of(closing)?,
    })
}

// The status of a number, which is how C says it; REVERSAL ASKED alone keeps the minute of the asking.
fn status_of(number: i64, asked: i64) -> Option<Status>
    ensures { result ≡ cond (status_fits number asked) (Some (status_said number asked)) None }
{
    match (number, asked) {
        (0, 0) => Some(Status::Empty),
        (1, 0) => Some(Status::Submitted),
        (2, 0) => Some(Status::Withdrawn),
        (3, 0) => Some(Status::Accepted),
        (4, _) => Some(Status::ReversalAsked(minutes_of(asked)?)),
        (5, 0) => Some(Status::Reversed),
        _ => None,
    }
}

impl Readable<12> for Month {
    ghost reads = { month_reads };

    ghost said = { month_in };

    #[tactic(auto, unfolding(crate::specs::Readable::month_reads))]
    fn read(numbers: &[i64; 12]) -> Option<Month> {
        let [days, price, last, given, a, b, c, d, e, f, g, h] = *numbers;
        Some(Month {
            days: u8::try_from(days).ok()?,
            price: Cents(price),
            last: minutes_of(last)?,
            given: u16::try_from(given).ok()?,
            windows: [
                window_of(a, b)?,
                window_of(c, d)?,
                window_of(e, f)?,
                window_of(g, h)?,
            ],
        })
    }
}

impl Readable<4> for Account {
    ghost reads = { λ ns. account_reads ns 0 };

    ghost said = { λ ns. account_at ns 0 };

    #[tactic(auto, unfolding(crate::specs::Readable::account_reads))]
    fn read(numbers: &[i64; 4]) -> Option<Account> {
        let [roles, requirement, figure, net] = *numbers;
        Some(Account {
            roles: u8::try_from(roles).ok()?,
            requirement: Thousandths(u32::try_from(requirement).ok()?),
            margin: Margin {
                figure: Cents(figure),
                net: Net(net),
            },
        })
    }
}

impl Readable<5> for Allocation {
    ghost reads = { λ ns. allocation_reads ns 0 };

    ghost said = { λ ns. allocation_at ns 0 };

    #[tactic(auto, unfolding(crate::specs::Readable::allocation_reads))]
    fn read(numbers: &[i64; 5]) -> Option<Allocation> {
        let [generator, customer, quantity, status, asked] = *numbers;
        Some(Allocation {
            generator: u8::try_from(generator).ok()?,
            customer: u8::try_from(customer).ok()?,
            quantity: Thousandths(u32::try_from(quantity).ok()?),
            status: status_of(status, asked)?,
        })
    }
}

// The book that lent numbers are, but for its levels; none where they are no book's.
pub fn whole_in(book: &[i64]) -> Option<Whole>
    ensures { result ≡ cond (readable book.now) (Some (whole_said book.now)) None }
{
    let numbers: &[i64; BOOK_PLACES] = book.as_array()?;
    let (month, tables) = numbers.split_first_chunk::<12>()?;
    let (accounts, ledger) = tables.split_first_chunk::<128>()?;
    let fresh = fresh_whole();
    Some(Whole {
        month: Month::read(month)?,
        accounts: read_table(accounts.as_chunks().0.as_array()?, fresh.accounts[0])?,
        ledger: read_table(ledger.as_chunks().0.as_array()?, fresh.ledger[0])?,
    })
}
