// What reasons 12, 13 and 15 go by.
ghost use Rattle.ledger.specs.Ready.{LevelsFit, MonthFits, AccountFits, SumsFit};

use book::{Account, Month};
use sound::Totals;

// How the participant that a step is judged by stands: the month and the levels, its account and its
// totals, with each number inside its limits.
#[derive(Clone, Copy)]
pub struct Standing<'a> {
    pub month: Month,
    pub levels: &'a [u32],
    pub account: Account,
    pub totals: Totals,
    ghost month_fits: { MonthFits month },
    ghost levels_fit: { LevelsFit levels.now },
    ghost account_fits: { AccountFits account },
    ghost totals_fit: { SumsFit totals },
}
