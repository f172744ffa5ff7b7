// The lines that the ledger program prints, put into a buffer of the caller's. Where the buffer has
// too little room from the place given, nothing is written and the place is answered as it was.
// Buffer and place stay two parameters: `Laid`, the clause of all three lines, speaks of both. A reason
// is a number here: the lines take any.
#![tactic(auto)]

mod row; // row.rt: numbers as a line

ghost use Rattle.std.specs.Prelude.{◌≡◌, leb, ◌+◌};
ghost use Rattle.text.specs.Lines.{answer_line, figures_line, refusal_line, Laid};

use row::put_line;

// No line of a record is longer.
pub const ANSWER_ROOM: usize = 64;

// No line of settlement is longer.
pub const FIGURES_ROOM: usize = 256;

// No line of a refusal is longer.
pub const REFUSAL_ROOM: usize = 32;

// Whether so many bytes stand from a place on, in a buffer of that length.
pub fn has_room(length: usize, at: usize, most: usize) -> bool
    ensures { result ≡ leb (at + most) length }
{
    at <= length && most <= length - at
}

// A record's line: its place from 1, the answer, the allocation number.
#[tactic(auto, unfolding(crate::specs::Lines::answer_line))]
pub fn answer_line(out: &mut [u8], at: usize, place: u64, reason: u8, number: u16) -> usize
    ensures { Laid 64 out.old at (answer_line place reason number) out.new result }
{
    let numbers = [place, u64::from(reason), u64::from(number)];
    put_line(out, at, ANSWER_ROOM, b"", &numbers)
}

// A line of settlement: the participant and its eight figures, in the order given.
#[tactic(auto, unfolding(crate::specs::Lines::figures_line))]
pub fn figures_line(out: &mut [u8], at: usize, participant: u8, figures: [u64; 8]) -> usize
    ensures { Laid 256 out.old at (figures_line participant figures) out.new result }
{
    let mut numbers = [u64::from(participant); 9];
    numbers[1..].copy_from_slice(&figures);
    put_line(out, at, FIGURES_ROOM, b"S ", &numbers)
}

// Settlement refused, and the reason.
#[tactic(auto, unfolding(crate::specs::Lines::refusal_line))]
pub fn refusal_line(out: &mut [u8], at: usize, reason: u8) -> usize
    ensures { Laid 32 out.old at (refusal_line reason) out.new result }
{
    put_line(out, at, REFUSAL_ROOM, b"X ", &[u64::from(reason)])
}
