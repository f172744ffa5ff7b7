// A history on a lent book, whose numbers are read, handed on and written back.
ghost use Rattle.boundary.specs.Lent.{Runs};
ghost use Rattle.boundary.specs.Inner.{Refuses};

use crate::reading::whole_in;
use crate::writing::write_book;
use book::{Month, Whole, fresh_month, fresh_whole};
use ledger::run_whole;

// Answer 1 to each record of a history: its book cannot be read, and is handed on as one that is not
// sound, a month that has one day.
fn refuse_all(levels: &mut [u32], history: &[u8], answers: &mut [u64]) -> u64
    ensures { Refuses levels.old history.now answers.old result levels.new answers.new }
{
    let month = Month {
        days: 1,
        ..fresh_month()
    };
    let mut unsound = Whole {
        month,
        ..fresh_whole()
    };
    run_whole(&mut unsound, levels, history, answers) as u64
}

// A history on any lent numbers.
pub fn run(book: &mut [i64], levels: &mut [u32], history: &[u8], answers: &mut [u64]) -> u64
    ensures { Runs book.old levels.old history.now answers.old result book.new levels.new answers.new }
{
    let Some(mut whole) = whole_in(book) else {
        return refuse_all(levels, history, answers);
    };
    let records = run_whole(&mut whole, levels, history, answers);
    write_book(book, &whole);
    records as u64
}
