// A month on standard input, of at most nine records, printed as it is; then with each of its bytes
// changed in turn, a line of answers and numbers each; then cut at each length, a line each of how
// many records stand there, the answer to the last, and the first line of the settlement.
//
// Lines are written by the crate io: println! would make the program rest on os::c::rattle_errno too.
#![tactic(auto)]

use book::Whole;
use ledger::answer_in;

// Standard input, as the system numbers it.
const STDIN_FILENO: i32 = 0;

// Standard output, as the system numbers it.
const STDOUT_FILENO: i32 = 1;

// Nine records.
const BYTES: usize = 216;

const RECORDS: usize = 9;

fn first(n: u64) {
    io::print_decimal(STDOUT_FILENO, n);
}

fn then(n: u64) {
    io::write_all(STDOUT_FILENO, b" ");
    io::print_decimal(STDOUT_FILENO, n);
}

// Answers and numbers, after the place of the byte that was changed.
fn show_answers(at: usize, answers: &[u64]) {
    first(at as u64);
    for word in answers {
        let answer = answer_in(*word);
        then(u64::from(answer.reason));
        then(u64::from(answer.number));
    }
    io::write_all(STDOUT_FILENO, b"\n");
}

fn show_changed(at: usize, month: &[u8]) {
    let mut book = book::fresh_whole();
    let mut levels = book::fresh_levels();
    let mut answers = [0u64; RECORDS];
    ledger::run_whole(&mut book, &mut levels, month, &mut answers);
    show_answers(at, &answers);
}

// Another byte.
fn changed(byte: u8) -> u8 {
    if byte == 255 { 0 } else { 255 }
}

fn change_each(month: &mut [u8]) {
    for i in 0..month.len() {
        let byte = month[i];
        month[i] = changed(byte);
        show_changed(i, month);
        month[i] = byte;
    }
}

// The first line of a settlement, put into `line`; no line where nobody is registered.
fn first_line(line: &mut [u8], book: &Whole, levels: &[u32]) -> usize {
    match settlement::settle_whole(book, levels) {
        Ok(listing) => match listing.figures().first() {
            Some(f) => text::figures_line(line, 0, f.participant, printout::figures_of(*f)),
            None => 0,
        },
        Err(reason) => text::refusal_line(line, 0, u8::from(reason)),
    }
}

// A line after what stands on it already; its end alone where there is none.
fn show_line(line: &[u8]) {
    if line.is_empty() {
        io::write_all(STDOUT_FILENO, b"\n");
    } else {
        io::write_all(STDOUT_FILENO, b" ");
        io::write_all(STDOUT_FILENO, line);
    }
}

// How many records stand in a month, the answer to the last, and the first line of the settlement.
fn show_cut(month: &[u8]) {
    let mut book = book::fresh_whole();
    let mut levels = book::fresh_levels();
    let mut answers = [0u64; RECORDS];
    let records = ledger::run_whole(&mut book, &mut levels, month, &mut answers);
    first(month.len() as u64);
    then(records as u64);
    if let Some(word) = answers[..records].last() {
        then(u64::from(answer_in(*word).reason));
    }
    let mut line = [0u8; text::FIGURES_ROOM];
    let length = first_line(&mut line, &book, &levels);
    if let Some(line) = line.get(..length) {
        show_line(line);
    }
}

fn cut_each(month: &[u8]) {
    for i in 0..=month.len() {
        show_cut(&month[..i]);
    }
}

// A month as it is, changed and cut.
fn print_all(month: &mut [u8]) {
    printout::print_history(month);
    change_each(month);
    cut_each(month);
}

fn main() {
    let mut month = [0u8; BYTES];
    let got = io::read_full(STDIN_FILENO, &mut month);
    print_all(&mut month[..got]);
}
