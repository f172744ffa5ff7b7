// A run over a history: every record in turn, on one lent book, and an answer to each.
ghost use Rattle.std.specs.Prelude.{◌≡◌, ℕ, ◌+◌, ◌/◌, ◌≤◌, ◌<◌, min, length, set};
ghost use Rattle.sound.specs.Check.{book_from};
ghost use Rattle.ledger.specs.Ready.{Ready};
ghost use Rattle.ledger.specs.Running.{word_of, reason_in, number_in, written, Does, Runs};

use crate::rooms::do_step;
use book::{Account, Allocation, Answer, Month, Whole};
use record::decode_at;
use sound::Totals;

// What a run leaves beside the lent tables: the month, and how many records it has answered.
#[derive(Clone, Copy)]
pub struct Ran {
    pub month: Month,
    pub records: usize,
}

// How many records a run does, of so many bytes and with room for so many answers. A short last
// piece is a record.
fn turns(bytes: usize, room: usize) -> usize
    ensures { result ≡ min ((bytes + 23) / 24) room }
{
    bytes.div_ceil(24).min(room)
}

// An answer as one word.
fn word_of(reason: u8, number: u16) -> u64
    ensures { result ≡ word_of reason number }
{
    reason as u64 + 32 * number as u64
}

// The answer in a word: one for each record, as `Runs` and C have it.
pub fn answer_in(word: u64) -> Answer
    ensures { (result.reason ≡ reason_in word) × (result.number ≡ number_in word) }
{
    Answer {
        reason: (word % 32) as u8,
        number: (word / 32 % 65536) as u16,
    }
}

// As many records of a history as there is room for answers, on a sound book with the totals of its
// ledger.
fn do_records(
    month: &mut Month,
    accounts: &mut [Account],
    levels: &mut [u32],
    ledger: &mut [Allocation],
    totals: &mut [Totals],
    history: &[u8],
    answers: &mut [u64],
)
    requires { Ready (book_from month.old accounts.old levels.old ledger.old) totals.old }
    ensures { Does (book_from month.old accounts.old levels.old ledger.old) history.now answers.old (length answers.old) month.new accounts.new levels.new ledger.new answers.new }
{
    for (i, answer) in answers.iter_mut().enumerate() {
        let said = decode_at(history, i);
        *answer = match do_step(month, accounts, levels, ledger, totals, said) {
            Ok(number) => word_of(0, number.unwrap_or(0)),
            Err(reason) => word_of(reason.into(), 0),
        };
    }
}

// A history on a lent book, whatever the book holds and however long its tables and the history are:
// every record in turn, as far as there is room for answers.
pub fn run(
    month: Month,
    accounts: &mut [Account],
    levels: &mut [u32],
    ledger: &mut [Allocation],
    history: &[u8],
    answers: &mut [u64],
) -> Ran
    ensures { Runs (book_from month accounts.old levels.old ledger.old) history.now answers.old result.month result.records accounts.new levels.new ledger.new answers.new }
{
    let records = turns(history.len(), answers.len());
    let room = &mut answers[..records];
    let found = sound::check(month, accounts, levels, ledger);
    if found.usable {
        let mut after = month;
        let mut totals = found.totals;
        do_records(
            &mut after,
            accounts,
            levels,
            ledger,
            &mut totals,
            history,
            room,
        );
        Ran {
            month: after,
            records,
        }
    } else {
        room.fill(1);
        Ran { month, records }
    }
}

// A run on a book held whole; how many records it has answered.
pub fn run_whole(book: &mut Whole, levels: &mut [u32], history: &[u8], answers: &mut [u64]) -> usize
    ensures { Runs (book_from book.old.month book.old.accounts levels.old book.old.ledger) history.now answers.old book.new.month result book.new.accounts levels.new book.new.ledger answers.new }
{
    let ran = run(
        book.month,
        &mut book.accounts,
        levels,
        &mut book.ledger,
        history,
        answers,
    );
    book.month = ran.month;
    ran.records
}
