// Credits: sums over the days of a month in the table of levels, which is lent and may be any.
#![tactic(auto)]

ghost use Rattle.std.specs.Prelude.{◌≡◌, ◌&&◌, ◌*◌, ◌/◌, ◌≤◌, eqb, leb, ltb, length, sum};
ghost use Rattle.book.specs.Book.{participants, most_days, level_places};
ghost use Rattle.credits.specs.Credits.{tradeable_at, dsm_at};

// A participant has 31 places for each of four kinds.
const KIND: usize = 31;

const PARTICIPANT: usize = 124;

// The levels of a run of days.
fn over_days(levels: &[u32]) -> u64
    requires { length levels.now ≤ most_days }
    ensures total { result ≡ sum levels.now }
    ensures most { result ≤ length levels.now * 4294967295 }
{
    levels.iter().map(|level| u64::from(*level)).sum()
}

// A sum over days by their number, rounded down.
fn by_days(sum: u64, days: u8) -> u64
    ensures { result ≡ sum / days }
{
    sum.checked_div(u64::from(days)).unwrap_or(0)
}

// Whether a table of so many levels is whole, and has a row of so many days for a participant.
fn has_row(places: usize, days: u8, participant: u8) -> bool
    ensures { result ≡ (eqb places level_places && (leb days most_days && ltb participant participants)) }
{
    places == 3968 && days <= 31 && participant < 32
}

// Tradeable credits: the levels of kinds 1 and 2 summed over days 1 to D, divided by D, rounded down;
// 0 where there is no such row.
#[tactic(auto, unfolding(crate::specs::Credits::tradeable_at))]
pub fn tradeable(levels: &[u32], days: u8, participant: u8) -> u64
    ensures { result ≡ tradeable_at levels.now days participant }
{
    if !has_row(levels.len(), days, participant) {
        return 0;
    }
    let from = usize::from(participant) * PARTICIPANT;
    let run = usize::from(days);
    let ordinary = over_days(&levels[from..from + run]);
    let contracted = over_days(&levels[from + KIND..from + KIND + run]);
    by_days(ordinary + contracted, days)
}

// DSM: kind 4 likewise.
#[tactic(auto, unfolding(crate::specs::Credits::dsm_at))]
pub fn dsm(levels: &[u32], days: u8, participant: u8) -> u64
    ensures { result ≡ dsm_at levels.now days participant }
{
    if !has_row(levels.len(), days, participant) {
        return 0;
    }
    let from = usize::from(participant) * PARTICIPANT + 3 * KIND;
    by_days(over_days(&levels[from..from + usize::from(days)]), days)
}
