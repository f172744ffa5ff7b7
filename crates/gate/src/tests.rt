// Tests of a step's time and of its numbers.
ghost use Rattle.std.specs.Prelude.{◌≡◌, ◌&&◌, ◌||◌, eqb, ltb, pos};
ghost use Rattle.std.specs.Int.Signed.{le_z};
ghost use Rattle.book.specs.Book.{within, most_price, most_end, most_figure, most_quantity};
ghost use Rattle.book.specs.Reasons.{from_to};
ghost use Rattle.gate.specs.Shared.{open_at};

use book::{Month, Window};
use reasons::{LEAST_FIGURE, MOST_FIGURE, MOST_PRICE, MOST_QUANTITY};
use units::{Cents, LongMinutes, Minutes, Thousandths};

const LEAST_END: i64 = -1_000_000;

const MOST_END: i64 = 1_000_000;

// An allocation number that was not given.
pub fn not_given(m: Month, number: u16) -> bool
    ensures { result ≡ (eqb number 0 || ltb m.given number) }
{
    number == 0 || m.given < number
}

// Whether a window is open: opening <= t < closing.
pub fn is_open(w: Window, at: Minutes) -> bool
    ensures { result ≡ open_at w at }
{
    w.opening <= at && at < w.closing
}

// A price: 0 to 5,000,000 cents.
pub fn price_fits(price: Cents) -> bool
    ensures { result ≡ (le_z (pos 0) price.0 && le_z price.0 (pos most_price)) }
{
    (Cents(0)..=Cents(MOST_PRICE)).contains(&price)
}

// A margin figure: within 100,000,000,000 of zero.
pub fn figure_fits(figure: Cents) -> bool
    ensures { result ≡ within most_figure figure.0 }
{
    (Cents(LEAST_FIGURE)..=Cents(MOST_FIGURE)).contains(&figure)
}

// A window's end: within 1,000,000 of zero.
pub fn end_fits(end: LongMinutes) -> bool
    ensures { result ≡ within most_end end.0 }
{
    (LongMinutes(LEAST_END)..=LongMinutes(MOST_END)).contains(&end)
}

// The quantity of a SUBMIT: 1 to 20,000,000 thousandths.
pub fn quantity_fits(quantity: Thousandths) -> bool
    ensures { result ≡ from_to 1 most_quantity quantity.0 }
{
    (Thousandths(1)..=Thousandths(MOST_QUANTITY)).contains(&quantity)
}
