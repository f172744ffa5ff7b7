// Small tests on the parts of a book, the reasons by name, and how a test refuses for one.
#![tactic(auto)]

ghost use Rattle.std.specs.Prelude.{◌≡◌, cond, ◌||◌, ◌<◌};
ghost use Rattle.book.specs.Book.{status_number, participants};
ghost use Rattle.reasons.specs.Numbers.{reason_number};
ghost use Rattle.reasons.specs.Parts.{generates, consumes, roles_of, slot, pends, counts};

use book::{Account, Allocation, Status};

// The reasons of document 01's table, in its order, each with its number: Unusable is for records,
// tables and books that say nothing, and Excess for settlement.
#[derive(Clone, Copy, PartialEq, Eq, PartialOrd, Ord)]
pub enum Reason {
    Unusable = 1,
    NoMonth,
    Already,
    BeforeLast,
    Unknown,
    WrongParty,
    Outside,
    Closed,
    WrongStatus,
    WasWithdrawn,
    AllGiven,
    NotCovered,
    MarginFails,
    LevelPassed,
    NoExcess,
    Excess,
}

// The number of a reason.
impl From<Reason> for u8 {
    ghost from_gives = { λ r n. n ≡ reason_number r };

    fn from(reason: Reason) -> u8 {
        reason as u8
    }
}

// The roles, by number; 0 is not registered. Numbers and no enum: a lent account may hold any, and
// the functions here answer for each.
pub const GENERATOR: u8 = 1;

pub const CUSTOMER: u8 = 2;

pub const BOTH: u8 = 3;

pub const PARTICIPANTS: u8 = 32;

// The most numbers that can be given.
pub const MOST_GIVEN: u16 = 256;

// The days of a month.
pub const FEWEST_DAYS: u8 = 28;

pub const MOST_DAYS: u8 = 31;

// The most that a level can be.
pub const MOST_LEVEL: u32 = 10_000_000;

pub const MOST_QUANTITY: u32 = 20_000_000;

pub const MOST_PRICE: i64 = 5_000_000;

pub const LEAST_FIGURE: i64 = -100_000_000_000;

pub const MOST_FIGURE: i64 = 100_000_000_000;

// Refused for the reason, if the test holds. Two functions, this and the next: a `!` at each call says
// less than the name.
pub fn refused_if<R: Drop>(test: bool, reason: R) -> Result<(), R>
    ensures { result ≡ cond test (Err reason) (Ok tt) }
{
    if test { Err(reason) } else { Ok(()) }
}

// Refused for the reason, unless the test holds.
pub fn refused_unless<R: Drop>(test: bool, reason: R) -> Result<(), R>
    ensures { result ≡ cond test (Ok tt) (Err reason) }
{
    if test { Ok(()) } else { Err(reason) }
}

// This and the next: each is a word of document 01.
pub fn is_generator(roles: u8) -> bool
    ensures { result ≡ generates roles }
{
    roles == GENERATOR || roles == BOTH
}

pub fn is_customer(roles: u8) -> bool
    ensures { result ≡ consumes roles }
{
    roles == CUSTOMER || roles == BOTH
}

// The place of a participant's account; of one past the last, the first place.
pub fn slot_of(participant: u8) -> usize
    ensures { (result ≡ slot participant) × (result < participants) }
{
    if participant < PARTICIPANTS {
        participant as usize
    } else {
        0
    }
}

// The roles of a participant, from the account at its place; past the last participant there are none.
pub fn roles_of(participant: u8, a: Account) -> u8
    ensures { result ≡ roles_of participant a }
{
    if participant < PARTICIPANTS {
        a.roles
    } else {
        0
    }
}

// The number of a status. By a match, since one status carries its minute; and by a function, since
// `From` is for the crate of the type, which is book.
pub fn number_of(status: Status) -> u8
    ensures { result ≡ status_number status }
{
    match status {
        Status::Empty => 0,
        Status::Submitted => 1,
        Status::Withdrawn => 2,
        Status::Accepted => 3,
        Status::ReversalAsked(_) => 4,
        Status::Reversed => 5,
    }
}

// What a record adds to its generator's pending quantity.
pub fn pending_in(l: Allocation) -> u32
    ensures { result ≡ pends l }
{
    match l.status {
        Status::Submitted => l.quantity.0,
        _ => 0,
    }
}

// What a record adds to its parties' accepted quantities.
pub fn accepted_in(l: Allocation) -> u32
    ensures { result ≡ counts l }
{
    match l.status {
        Status::Accepted | Status::ReversalAsked(_) => l.quantity.0,
        _ => 0,
    }
}
