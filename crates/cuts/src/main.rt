// How near each operator's cut lies to the published formula: reads a history of step records on
// standard input, in chunks of whole records, and prints for each done OPERATOR AMENDS what every
// allocation had, its exact share, what it has, and the distances, as `audit::misses` finds them.
//
// Lines are written by the crate io: println! would make the program rest on os::c::rattle_errno too.
#![tactic(auto)]

use audit::Measured;
use book::{Allocation, Whole};
use ledger::{answer_in, is_cut};
use record::Step;
use units::Minutes;

// Standard input, as the system numbers it.
const STDIN_FILENO: i32 = 0;

// Standard output, as the system numbers it.
const STDOUT_FILENO: i32 = 1;

// So many bytes are read at a time: 2,730 records of 24 bytes. Each program has its own loop over
// them: a public function that takes what to do with a piece would have a `requires`.
const CHUNK: usize = 65_520;

// A line could not be written.
#[derive(Clone, Copy)]
struct Unwritten;

// The book so far, the place of the last record done, and whether there was a cut.
#[derive(Drop)]
struct Desk {
    book: Whole,
    place: u64,
    cut: bool,
}

// A done OPERATOR AMENDS: its place, whose it is, when, and the credits that it was cut to.
#[derive(Clone, Copy)]
struct Cut {
    place: u64,
    generator: u8,
    minute: Minutes,
    credits: u64,
}

// A text and a number.
fn show(text: &[u8], number: u64) {
    io::write_all(STDOUT_FILENO, text);
    io::print_decimal(STDOUT_FILENO, number);
}

// A minute with its sign. The program origins has the same: a library for both would have a public
// function of which no contract can speak.
fn show_minute(m: Minutes) {
    if m.0 < 0 {
        io::write_all(STDOUT_FILENO, b"-");
    }
    io::print_decimal(STDOUT_FILENO, audit::minutes_away(m));
}

// The end of a line.
fn end_line() -> Result<(), Unwritten> {
    if io::write_all(STDOUT_FILENO, b"\n") {
        Ok(())
    } else {
        Err(Unwritten)
    }
}

// The line of one allocation that was cut.
fn show_share(
    number: u64,
    had: u32,
    has: u32,
    credits: u64,
    accepted: u64,
    distance: u64,
) -> Result<(), Unwritten> {
    show(b"allocation ", number);
    show(b": had ", u64::from(had));
    show(b", exact share ", u64::from(had));
    show(b" x ", credits);
    show(b" / ", accepted);
    show(b", has ", u64::from(has));
    show(b", distance ", distance);
    end_line()
}

// The lines of the allocations that were cut, up to one that cannot be written.
fn show_shares(
    cut: Cut,
    measured: &Measured,
    before: &[Allocation; 256],
    after: &[Allocation; 256],
) -> Result<(), Unwritten> {
    for (i, (was, is)) in before.iter().zip(after).enumerate() {
        if is_cut(cut.generator, *was) {
            show_share(
                i as u64 + 1,
                was.quantity.0,
                is.quantity.0,
                cut.credits,
                measured.accepted,
                measured.each[i],
            )?;
        }
    }
    Ok(())
}

// All lines of one cut. The sum's line is tried whatever became of those before it, and its end says
// whether more can be written.
fn show_cut(
    cut: Cut,
    before: &[Allocation; 256],
    after: &[Allocation; 256],
) -> Result<(), Unwritten> {
    // The credits of a sound book are of 32 bits.
    let tradeable = u32::try_from(cut.credits).unwrap_or(u32::MAX);
    let measured = audit::misses(cut.generator, tradeable, before, after);
    show(b"record ", cut.place);
    io::write_all(STDOUT_FILENO, b", minute ");
    show_minute(cut.minute);
    show(b": generator ", u64::from(cut.generator));
    show(b", accepted ", measured.accepted);
    show(b", tradeable ", cut.credits);
    let _ = end_line();
    let _ = show_shares(cut, &measured, before, after);
    show(b"sum of distances ", measured.sum);
    show(b", each times ", measured.accepted);
    end_line()
}

// One record, and its lines where it is a cut.
fn one(desk: &mut Desk, levels: &mut [u32], bytes: &[u8]) -> Result<(), Unwritten> {
    let before = desk.book;
    let mut answers = [0];
    ledger::run_whole(&mut desk.book, levels, bytes, &mut answers);
    desk.place = desk.place.saturating_add(1);
    let done = answer_in(answers[0]).reason == 0;
    if done {
        if let Some(Step::OperatorAmends { generator, at }) = record::decode(bytes) {
            desk.cut = true;
            let cut = Cut {
                place: desk.place,
                generator,
                minute: at,
                credits: credits::tradeable(levels, before.month.days, generator),
            };
            show_cut(cut, &before.ledger, &desk.book.ledger)?;
        }
    }
    Ok(())
}

// Every record of standard input, up to one whose lines cannot be written; a short last piece is
// one. Answers whether there was a cut.
fn show_all() -> Result<bool, Unwritten> {
    let mut levels = book::fresh_levels();
    let mut chunk = [0u8; CHUNK];
    let mut desk = Desk {
        book: book::fresh_whole(),
        place: 0,
        cut: false,
    };
    for _ in 0..u64::MAX {
        let got = io::read_full(STDIN_FILENO, &mut chunk);
        for bytes in chunk[..got].chunks(24) {
            one(&mut desk, &mut levels, bytes)?;
        }
        if got < CHUNK {
            break;
        }
    }
    Ok(desk.cut)
}

// What is proved of each sum, or that there was none.
fn conclude(cut: bool) {
    if cut {
        io::write_all(
            STDOUT_FILENO,
            b"proved of each sum (cut-promised): no list of whole thousandths with that total, one for each allocation, has a smaller one\n",
        );
    } else {
        io::write_all(STDOUT_FILENO, b"no cut: no OPERATOR AMENDS was done\n");
    }
}

fn main() {
    if let Ok(cut) = show_all() {
        conclude(cut);
    }
}
