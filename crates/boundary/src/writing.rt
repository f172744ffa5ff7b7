// A book written back as its numbers, each part at its place.
ghost use Rattle.std.specs.Prelude.{◌≡◌, Bool, length};
ghost use Rattle.boundary.specs.Numbers.{book_places, month_numbers, account_numbers, asked_number, allocation_numbers, numbers_of};
ghost use Rattle.boundary.specs.Readable.{fits_minute};
ghost use Rattle.boundary.specs.Fitting.{MonthFits, AccountFits, AllocationFits, BookFits};

use crate::tables::{Numbered, write_table};
use book::{Account, Allocation, Margin, Month, Status, Whole};
use reasons::number_of;

// Days, price, minute of the last step, last number given; and the two ends of each window.
impl Numbered<i64, 12> for Month {
    ghost numbers = { month_numbers };

    ghost keeps = { MonthFits };

    fn numbers(self) -> [i64; 12] {
        let [submit, accept, withdraw, reversal] = self.windows;
        [
            self.days as i64,
            self.price.0,
            self.last.0 as i64,
            self.given as i64,
            submit.opening.0 as i64,
            submit.closing.0 as i64,
            accept.opening.0 as i64,
            accept.closing.0 as i64,
            withdraw.opening.0 as i64,
            withdraw.closing.0 as i64,
            reversal.opening.0 as i64,
            reversal.closing.0 as i64,
        ]
    }
}

// Roles, requirement, figure, net at the figure.
impl Numbered<i64, 4> for Account {
    ghost numbers = { account_numbers };

    ghost keeps = { AccountFits };

    fn numbers(self) -> [i64; 4] {
        let Margin { figure, net } = self.margin;
        [
            self.roles as i64,
            self.requirement.0 as i64,
            figure.0,
            net.0,
        ]
    }
}

// The minute of the asking; 0 unless the status keeps one.
fn asked_number(status: Status) -> i64
    ensures { (result ≡ asked_number status) × (fits_minute result ≡ Bool.true) }
{
    match status {
        Status::ReversalAsked(t) => t.0 as i64,
        _ => 0,
    }
}

// Generator, customer, quantity, status number, minute of the asking.
impl Numbered<i64, 5> for Allocation {
    ghost numbers = { allocation_numbers };

    ghost keeps = { AllocationFits };

    fn numbers(self) -> [i64; 5] {
        [
            self.generator as i64,
            self.customer as i64,
            self.quantity.0 as i64,
            number_of(self.status) as i64,
            asked_number(self.status),
        ]
    }
}

// A whole book, over whatever stood there.
pub fn write_book(book: &mut [i64], whole: &Whole)
    requires { length book.old ≡ book_places }
    ensures { (book.new ≡ numbers_of whole.now.month whole.now.accounts whole.now.ledger) × BookFits whole.now.month whole.now.accounts whole.now.ledger }
{
    write_table(book, 0, &[whole.month]);
    write_table(book, 12, &whole.accounts);
    write_table(book, 140, &whole.ledger);
}
