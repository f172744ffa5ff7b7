// The settlement desk's two questions, answered by proved functions: which step put a quantity that
// stands in the ledger (`follow`), and how far each allocation of a cut lies from its exact share
// (`misses`). Neither has a `requires`.
#![tactic(auto)]

mod minutes; // minutes.rt: signed minutes, to be printed
mod nearness; // nearness.rt: a cut against the published formula
mod origin; // origin.rt: the step that put each quantity

pub use minutes::minutes_away;
pub use nearness::{Measured, misses};
pub use origin::{Followed, GENERATOR_AMENDS, OPERATOR_AMENDS, Put, SUBMIT, follow, nothing_put};
