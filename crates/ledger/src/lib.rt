// Steps on a lent book: `step` does or refuses any record on any book, and `run` a whole history.
// A record goes through the gate into one of five rooms, by the part of the book that it alters.
// A room is given what its kinds read and lent what they may alter, and nothing else. The parts of a
// lent book go one by one: a struct of `&mut` slices could be pointed elsewhere by its borrower, so no
// proof shows that its owner's tables come back.
#![tactic(auto)]

mod accounts; // accounts.rt: the account room: REGISTER, REQUIREMENT, MARGIN
mod credited; // credited.rt: the levels room: CREATE, TERMINATE
mod cut; // cut.rt: the operator's cut, through the promise of share
mod cutting; // cutting.rt: the cut room: OPERATOR AMENDS
mod history; // history.rt: a run over a history
mod late; // late.rt: how a participant stands, and reasons 12 and 15
mod lent; // lent.rt: the ledger and the accounts, lent as runs of records
mod margin; // margin.rt: the margin test, and reason 13
mod months; // months.rt: the month room: OPEN, WINDOW
mod rooms; // rooms.rt: a step in its room
mod standing; // standing.rt: what reasons 12, 13 and 15 go by
mod steps; // steps.rt: one record on a lent book
mod totals; // totals.rt: the totals of each participant
mod trades; // trades.rt: what a trade reads and writes
mod trading; // trading.rt: the allocation room: SUBMIT to AGREE REVERSAL, GENERATOR AMENDS

pub use cut::{is_cut, weight};
pub use history::{Ran, answer_in, run, run_whole};
pub use steps::{Done, step};
