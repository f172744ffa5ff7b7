// The core for programs in C, which `boundary_c` exports and `rionvakhe.h` declares. A call lends a
// book as numbers, with a record, a history or a room for figures, and gets the answer; nothing is
// kept between calls. No function here has a `requires`: whatever the lengths and contents, they are
// answered.
#![tactic(auto)]

ghost use Rattle.boundary.specs.Lent.{Freshens, Steps, Runs, Settles};

use crate::calls::run;
use crate::reading::{BOOK_PLACES, whole_in};
use crate::tables::write_table;
use crate::writing::write_book;
use book::fresh_whole;
use settlement::settle_whole;

mod calls; // calls.rt: a history on a lent book
mod figures; // figures.rt: the figures of a settlement as numbers
mod reading; // reading.rt: a book read from its numbers
mod tables; // tables.rt: tables of values in lent memory
mod writing; // writing.rt: a book written back as its numbers

// How many numbers a room for figures has.
const FIGURE_PLACES: usize = 288;

// The bytes of a record.
const RECORD_BYTES: usize = 24;

// How many levels a book has.
const LEVEL_PLACES: usize = 3968;

// The fresh book over whatever stood there, and 0; or 1 where a length is wrong, and nothing is written.
pub fn rionvakhe_fresh(book: &mut [i64], levels: &mut [u32]) -> u64
    ensures { Freshens book.old levels.old result book.new levels.new }
{
    if book.len() != BOOK_PLACES || levels.len() != LEVEL_PLACES {
        return 1;
    }
    write_book(book, &fresh_whole());
    levels.fill(0);
    0
}

// One record on a lent book: the reason, or 0 where it is done, and 32 times the number given.
pub fn rionvakhe_step(book: &mut [i64], levels: &mut [u32], record: &[u8]) -> u64
    ensures { Steps book.old levels.old «record».now result book.new levels.new }
{
    if record.len() != RECORD_BYTES {
        return 1;
    }
    let mut answer = [0u64; 1];
    run(book, levels, record, &mut answer);
    answer[0]
}

// Every record of a history in turn, as far as there is room for answers: how many were answered.
pub fn rionvakhe_run(
    book: &mut [i64],
    levels: &mut [u32],
    history: &[u8],
    answers: &mut [u64],
) -> u64
    ensures { Runs book.old levels.old history.now answers.old result book.new levels.new answers.new }
{
    run(book, levels, history, answers)
}

// The figures of each registered participant, in a lent room: the reason, or 0, and 32 times how many
// there are.
pub fn rionvakhe_settle(book: &[i64], levels: &[u32], figures: &mut [u64]) -> u64
    ensures { Settles book.now levels.now figures.old result figures.new }
{
    if figures.len() != FIGURE_PLACES {
        return 1;
    }
    let Some(whole) = whole_in(book) else {
        return 1;
    };
    match settle_whole(&whole, levels) {
        Ok(list) => {
            write_table(figures, 0, list.figures());
            32 * list.count as u64
        }
        Err(reason) => u8::from(reason) as u64,
    }
}
