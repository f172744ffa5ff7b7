// Which step put each quantity of the ledger: reads a history of step records on standard input, in
// chunks of whole records, and prints a line for each allocation number given. `audit::follow` finds
// them, and `answered` of its proofs says that nothing else could have put them.
//
// Lines are written by the crate io: println! would make the program rest on os::c::rattle_errno too.
#![tactic(auto)]

use audit::{Followed, Put};
use units::Minutes;

// Standard input, as the system numbers it.
const STDIN_FILENO: i32 = 0;

// Standard output, as the system numbers it.
const STDOUT_FILENO: i32 = 1;

// So many bytes are read at a time: 2,730 records of 24 bytes. Each program has its own loop over
// them: a public function that takes what to do with a piece would have a `requires`.
const CHUNK: usize = 65_520;

// A minute with its sign. The program cuts has the same: a library for both would have a public
// function of which no contract can speak.
fn show_minute(m: Minutes) {
    if m.0 < 0 {
        io::write_all(STDOUT_FILENO, b"-");
    }
    io::print_decimal(STDOUT_FILENO, audit::minutes_away(m));
}

// The name of a kind of step that puts a quantity, by its number, as `Put` has it.
fn name_of(kind: u8) -> &'static [u8] {
    match kind {
        audit::SUBMIT => b"SUBMIT",
        audit::GENERATOR_AMENDS => b"GENERATOR AMENDS",
        _ => b"OPERATOR AMENDS",
    }
}

// The line of one allocation. Answers whether its end was written.
fn show(number: u64, quantity: u32, put: Put) -> bool {
    io::write_all(STDOUT_FILENO, b"allocation ");
    io::print_decimal(STDOUT_FILENO, number);
    io::write_all(STDOUT_FILENO, b": quantity ");
    io::print_decimal(STDOUT_FILENO, u64::from(quantity));
    io::write_all(STDOUT_FILENO, b", put by record ");
    io::print_decimal(STDOUT_FILENO, put.place);
    io::write_all(STDOUT_FILENO, b" (");
    io::write_all(STDOUT_FILENO, name_of(put.kind));
    io::write_all(STDOUT_FILENO, b") at minute ");
    show_minute(put.minute);
    io::write_all(STDOUT_FILENO, b"\n")
}

// The lines of all that were given, up to one that cannot be written. Each has a step that put it
// (`answered`).
fn show_all(followed: &Followed) {
    let given = usize::from(followed.book.month.given);
    let quantities = followed.book.ledger.iter().zip(&followed.puts);
    for (i, (l, put)) in quantities.enumerate().take(given) {
        if let Some(put) = put {
            if !show(i as u64 + 1, l.quantity.0, *put) {
                return;
            }
        }
    }
}

fn main() {
    let mut levels = book::fresh_levels();
    let mut chunk = [0u8; CHUNK];
    let mut followed = Followed {
        book: book::fresh_whole(),
        puts: audit::nothing_put(),
    };
    let mut done: u64 = 0;
    for _ in 0..u64::MAX {
        let got = io::read_full(STDIN_FILENO, &mut chunk);
        audit::follow(&mut followed, &mut levels, &chunk[..got], done);
        done = done.saturating_add(got as u64 / 24);
        if got < CHUNK {
            break;
        }
    }
    show_all(&followed);
}
