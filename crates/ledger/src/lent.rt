// The accounts, the ledger and the totals, lent as runs of records: thin functions that read and
// rewrite them.
ghost use Rattle.std.specs.Prelude.{◌≡◌, ◌<◌, length, get_or, set};

// The record at a place; past the last one there is `none`.
pub fn get<T: Copy>(table: &[T], i: usize, none: T) -> T
    ensures { result ≡ get_or table.now i none }
{
    table.get(i).copied().unwrap_or(none)
}

// A record written at a place.
pub fn put<T: Copy>(table: &mut [T], i: usize, x: T)
    requires { i < length table.old }
    ensures { table.new ≡ set table.old i x }
{
    table[i] = x;
}
