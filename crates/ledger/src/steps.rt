// One record on a lent book.
ghost use Rattle.std.specs.Prelude.{◌<◌, IfOk, IfSome};
ghost use Rattle.sound.specs.Check.{book_from};
ghost use Rattle.ledger.specs.Writing.{step_said};
ghost use Rattle.ledger.specs.Answering.{Answers};

use crate::rooms::do_step;
use book::{Account, Allocation, Month};
use reasons::Reason;
use record::decode;

// The month that a done step leaves, and the number that it gives.
#[derive(Clone, Copy)]
pub struct Done {
    pub month: Month,
    pub number: Option<u16>,
}

// Whatever the book holds, and however long its tables and the record are.
pub fn step(
    month: Month,
    accounts: &mut [Account],
    levels: &mut [u32],
    ledger: &mut [Allocation],
    bytes: &[u8],
) -> Result<Done, Reason>
    ensures does { Answers (book_from month accounts.old levels.old ledger.old) bytes.now (step_said month result) accounts.new levels.new ledger.new }
    ensures numbered { IfOk result (λ done. IfSome done.number (λ n. 0 < n)) }
{
    let found = sound::check(month, accounts, levels, ledger);
    if !found.usable {
        return Err(Reason::Unusable);
    }
    let mut month = month;
    let mut totals = found.totals;
    let number = do_step(
        &mut month,
        accounts,
        levels,
        ledger,
        &mut totals,
        decode(bytes),
    )?;
    Ok(Done { month, number })
}
