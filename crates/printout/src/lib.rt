// What the ledger program prints of a month: a line for each record, then the settlement.
//
// No contract can say what is read or written. What the lines are is stated where they are made, in
// `text`; what the answers and the figures are, in `ledger` and `settlement`.
#![tactic(auto)]

mod page; // page.rt: lines on their way to standard output
mod settled; // settled.rt: the lines of settlement

ghost use Rattle.std.specs.Prelude.{◌≤◌, ◌^◌};

use book::Whole;
use page::Page;
pub use settled::figures_of;

// Records are run in pieces of so many bytes, of which each record has 24.
const PIECE: usize = 65_520;

// The records of a piece.
const RECORDS: usize = 2_730;

// No month has so many pieces: their bytes are close to 2^64. A proved loop has to end, and nothing
// says that a month does.
const MOST_PIECES: u64 = 281_474_976_710_656;

// A month on its way out: the book so far and its levels, room for the answers of a piece, and the
// page that gathers the lines.
#[derive(Drop)]
struct Month {
    book: Whole,
    levels: [u32; 3968],
    answers: [u64; RECORDS],
    page: Page,
}

impl Month {
    fn new() -> Month {
        Month {
            book: book::fresh_whole(),
            levels: book::fresh_levels(),
            answers: [0; RECORDS],
            page: Page::new(),
        }
    }

    // The records of a piece, run and printed, so many records having come before it.
    fn print(&mut self, piece: &[u8], before: u64)
        requires { before ≤ 2 ^ 62 }
    {
        let n = ledger::run_whole(&mut self.book, &mut self.levels, piece, &mut self.answers);
        self.page.answers(&self.answers[..n], before);
    }

    // The settlement, and all that is not yet written.
    fn settle(&mut self) {
        self.page.settlement(&self.book, &self.levels);
    }
}

// Reads step records from a descriptor, to the end and in whatever pieces they come, and prints the
// month to standard output. The memory in use does not grow with the month. Reading stops after a
// piece that was not whole, and once what is printed is no longer taken.
pub fn print_month(input: i32) {
    let mut piece = [0u8; PIECE];
    let mut month = Month::new();
    for n in 0..MOST_PIECES {
        let got = io::read_full(input, &mut piece);
        month.print(&piece[..got], n * RECORDS as u64);
        if got < PIECE || !month.page.going {
            break;
        }
    }
    month.settle();
}

// Prints a month of any length that stands in memory.
pub fn print_history(history: &[u8]) {
    let mut month = Month::new();
    let mut before: u64 = 0;
    for piece in history.chunks(PIECE) {
        month.print(piece, before);
        before += piece.len() as u64 / 24;
    }
    month.settle();
}
