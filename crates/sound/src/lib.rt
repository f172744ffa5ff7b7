// Whether a book is sound: its tables have their lengths, and every number in them is inside its
// limits. With the test come the totals of the ledger, which whoever asked goes on with.
#![tactic(auto)]

mod adding; // adding.rt: the totals of a ledger
mod lent; // lent.rt: a ledger copied out of a lent run of records
mod limits; // limits.rt: one part of a book, whether it is zero or inside its limits
mod made; // made.rt: the totals of one participant
mod tables; // tables.rt: each table of a book, whole
mod test; // test.rt: the test of a book

pub use adding::totals;
pub use lent::records;
pub use made::{NO_TOTALS, Totals};
pub use test::{Checked, check};
