// Numbers as a line of text, in a buffer that has room for it.
ghost use Rattle.std.specs.Prelude.{[], ◌∷◌, ◌++◌, ◌+◌, ◌*◌, ◌≤◌, length};
ghost use Rattle.text.specs.Lines.{decimal, row, Put, Laid};

use crate::has_room;

// Bytes, from a place of the buffer on.
fn copy(out: &mut [u8], at: usize, bytes: &[u8]) -> usize
    requires { at + length bytes.now ≤ length out.old }
    ensures { Put out.old at bytes.now out.new result }
{
    let end = at + bytes.len();
    out[at..end].copy_from_slice(bytes);
    end
}

// A number and the byte after it: at most 20 digits, so 21 bytes.
fn put_number(out: &mut [u8], at: usize, n: u64, end: u8) -> usize
    requires { at + 21 ≤ length out.old }
    ensures { Put out.old at (decimal n ++ end ∷ []) out.new result × (result ≤ at + 21) }
{
    let mut digits = [0u8; 20];
    let k = io::decimal(n, &mut digits);
    let to = copy(out, at, &digits[..k]);
    out[to] = end;
    to + 1
}

// Numbers with a space between, and a newline after the last.
fn put_row(out: &mut [u8], at: usize, numbers: &[u64]) -> usize
    requires { at + 21 * length numbers.now ≤ length out.old }
    ensures { Put out.old at (row numbers.now) out.new result }
{
    let Some((last, others)) = numbers.split_last() else {
        return at;
    };
    let mut to = at;
    for n in others {
        to = put_number(out, to, *n, b' ');
    }
    put_number(out, to, *last, b'\n')
}

// The same after a mark, where the buffer has so much room; else nothing, and the place stays.
pub fn put_line(out: &mut [u8], at: usize, room: usize, mark: &[u8], numbers: &[u64]) -> usize
    requires { length mark.now + 21 * length numbers.now ≤ room }
    ensures { Laid room out.old at (mark.now ++ row numbers.now) out.new result }
{
    if !has_room(out.len(), at, room) {
        return at;
    }
    let to = copy(out, at, mark);
    put_row(out, to, numbers)
}
