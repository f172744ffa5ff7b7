// Settlement: the eight figures of each registered participant, from a book that is lent or held
// whole. Everything under `settle` and `settle_whole` is private.
#![tactic(auto)]

mod figures; // figures.rt: one participant's figures
mod listing; // listing.rt: the figures of all, and whether one has an excess
mod settling; // settling.rt: settlement of a lent book, or of a whole one

pub use figures::{Figures, Pay};
pub use listing::Listing;
pub use settling::{settle, settle_whole};
