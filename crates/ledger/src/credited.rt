// The levels room: CREATE and TERMINATE. It is lent the month and the levels, and reads the
// accounts; ledger and totals it does not see.
ghost use Rattle.std.specs.Prelude.{◌≡◌, ℕ, ◌+◌, ◌≤◌, ◌<◌, length, get_or, map, IfOk, IfSome};
ghost use Rattle.std.specs.List.{list_any};
ghost use Rattle.book.specs.Book.{participants, most_days, most_level, level_places};
ghost use Rattle.book.specs.Words.{level_place};
ghost use Rattle.book.specs.Steps.{changed};
ghost use Rattle.reasons.specs.Numbers.{reason_said};
ghost use Rattle.gate.specs.Rooms.{creates};
ghost use Rattle.ledger.specs.Ready.{LevelsFit};
ghost use Rattle.ledger.specs.Judging.{blocks, blocked_in};
ghost use Rattle.ledger.specs.Writing.{moved_by, stepped};
ghost use Rattle.ledger.specs.Rooms.{StepFits, Moved, Known, Credited, LevelsRoom};

use crate::lent::get;
use book::{Account, Month, NO_ACCOUNT};
use gate::{LevelChange, LevelStep, levels_reason};
use reasons::{MOST_LEVEL, Reason};

// The place of a level in the table.
fn level_place(participant: u8, kind: u8, day: u8) -> usize
    requires { (participant < participants) × ((0 < kind) × ((kind ≤ 4) × ((0 < day) × (day ≤ most_days)))) }
    ensures { (result ≡ level_place participant kind day) × (result + 32 ≤ level_places + day) }
{
    participant as usize * 124 + (kind as usize - 1) * 31 + (day as usize - 1)
}

// Whether some level is in the way: one that a CREATE of q would pass, or that a TERMINATE of q takes
// more than.
fn any_blocked(change: LevelChange, q: u32, levels: &[u32]) -> bool
    requires { q ≤ most_level }
    ensures { result ≡ list_any (blocks (creates change) q) levels.now }
{
    match change {
        LevelChange::Create => levels.iter().any(|level| MOST_LEVEL - q < *level),
        LevelChange::Terminate => levels.iter().any(|level| *level < q),
    }
}

// One level, raised or lowered by q.
fn moved(change: LevelChange, q: u32, level: u32) -> u32
    requires { (q ≤ most_level) × (level ≤ most_level) }
    ensures { result ≡ moved_by (creates change) q level }
{
    match change {
        LevelChange::Create => level + q,
        LevelChange::Terminate => level.saturating_sub(q),
    }
}

// Each level, raised or lowered by q.
fn move_levels(change: LevelChange, q: u32, levels: &mut [u32])
    requires { (q ≤ most_level) × ((i : ℕ) → i < length levels.old → get_or levels.old i 0 ≤ most_level) }
    ensures { levels.new ≡ map (moved_by (creates change) q) levels.old }
{
    for level in levels.iter_mut() {
        *level = moved(change, q, *level);
    }
}

// Reason 14, or the levels from the step's day to D raised or lowered.
fn credit(m: Month, levels: &mut [u32], x: LevelStep) -> Result<(), Reason>
    requires { LevelsFit levels.old × StepFits m x }
    ensures { Moved m levels.old x (reason_said result) levels.new }
{
    let from = level_place(x.participant, x.kind, x.day);
    let days = m.days as usize + 1 - x.day as usize;
    let credited = &mut levels[from..from + days];
    if any_blocked(x.change, x.quantity.0, credited) {
        return Err(Reason::LevelPassed);
    }
    move_levels(x.change, x.quantity.0, credited);
    Ok(())
}

// The reason, or the levels moved.
fn on_levels(m: Month, roles: u8, levels: &mut [u32], x: LevelStep) -> Result<(), Reason>
    requires { LevelsFit levels.old × ((m.days ≤ most_days) × Known roles x.participant) }
    ensures { Credited m roles levels.old x (reason_said result) levels.new }
{
    levels_reason(m, roles, x)?;
    credit(m, levels, x)
}

// The room.
pub fn levels_room(
    month: &mut Month,
    accounts: &[Account],
    levels: &mut [u32],
    x: LevelStep,
) -> Result<Option<u16>, Reason>
    requires { (length accounts.now ≡ participants) × (LevelsFit levels.old × (month.old.days ≤ most_days)) }
    ensures does { LevelsRoom month.old accounts.now levels.old x (stepped month.new result) levels.new }
    ensures numbered { IfOk result (λ given. IfSome given (λ n. 0 < n)) }
{
    let roles = get(accounts, x.participant as usize, NO_ACCOUNT).roles;
    on_levels(*month, roles, levels, x)?;
    month.last = x.at;
    Ok(None)
}
