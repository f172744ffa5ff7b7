// The core for programs in C as a static library: each export is the function of `boundary` that has
// its name, with the same clauses. `crates/boundary/rionvakhe.h` declares them.
#![tactic(auto)]

ghost use Rattle.boundary.specs.Lent.{Freshens, Steps, Runs, Settles};

// The fresh book over whatever stood there, and 0; or 1 where a length is wrong, and nothing is written.
#[unsafe(no_mangle)]
pub extern "C" fn rionvakhe_fresh(book: &mut [i64], levels: &mut [u32]) -> u64
    ensures { Freshens book.old levels.old result book.new levels.new }
{
    boundary::rionvakhe_fresh(book, levels)
}

// One record on a lent book: the reason, or 0 where it is done, and 32 times the number given.
#[unsafe(no_mangle)]
pub extern "C" fn rionvakhe_step(book: &mut [i64], levels: &mut [u32], record: &[u8]) -> u64
    ensures { Steps book.old levels.old «record».now result book.new levels.new }
{
    boundary::rionvakhe_step(book, levels, record)
}

// Every record of a history in turn, as far as there is room for answers: how many were answered.
#[unsafe(no_mangle)]
pub extern "C" fn rionvakhe_run(
    book: &mut [i64],
    levels: &mut [u32],
    history: &[u8],
    answers: &mut [u64],
) -> u64
    ensures { Runs book.old levels.old history.now answers.old result book.new levels.new answers.new }
{
    boundary::rionvakhe_run(book, levels, history, answers)
}

// The figures of each registered participant, in a lent room: the reason, or 0, and 32 times how many
// there are.
#[unsafe(no_mangle)]
pub extern "C" fn rionvakhe_settle(book: &[i64], levels: &[u32], figures: &mut [u64]) -> u64
    ensures { Settles book.now levels.now figures.old result figures.new }
{
    boundary::rionvakhe_settle(book, levels, figures)
}
