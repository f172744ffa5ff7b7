// A ledger copied out of a lent run of records.
ghost use Rattle.std.specs.Prelude.{◌≡◌, ◌++◌, ◌-◌, length, take, replicate};
ghost use Rattle.book.specs.Book.{no_allocation};

use book::{Allocation, fresh_ledger};

// The first 256 records; where there are fewer, the others are empty.
pub fn records(ledger: &[Allocation]) -> [Allocation; 256]
    ensures { result ≡ take 256 ledger.now ++ replicate (256 - length ledger.now) no_allocation }
{
    let mut first = fresh_ledger();
    let n = ledger.len().min(256);
    first[..n].copy_from_slice(&ledger[..n]);
    first
}
