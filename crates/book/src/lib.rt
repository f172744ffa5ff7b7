// The book of one Trading Month: its parts, and the fresh one. `specs/` is document 01 as
// definitions, and `proofs/` has what holds of them.
#![tactic(auto)]

ghost use Rattle.std.specs.Prelude.{◌≡◌};
ghost use Rattle.book.specs.Book.{fresh};

use units::{Cents, Minutes, Net, Thousandths};

// A window is open when opening <= t < closing.
#[derive(Clone, Copy, PartialEq, Eq)]
pub struct Window {
    pub opening: Minutes,
    pub closing: Minutes,
}

// The month; days is 0 while none is open, a number, since a lent month may hold any. The widest
// field comes first, so that a copy has no gaps.
#[derive(Clone, Copy, PartialEq, Eq)]
pub struct Month {
    pub price: Cents,
    pub last: Minutes,
    pub windows: [Window; 4],
    pub given: u16,
    pub days: u8,
}

// The margin figure of a participant, and its net when the figure was stored.
#[derive(Clone, Copy, PartialEq, Eq)]
pub struct Margin {
    pub figure: Cents,
    pub net: Net,
}

// A participant's account; roles is 0 while it is not registered, 1 generator, 2 customer, 3 both: a
// number, since a lent account may hold any.
#[derive(Clone, Copy, PartialEq, Eq)]
pub struct Account {
    pub roles: u8,
    pub requirement: Thousandths,
    pub margin: Margin,
}

#[derive(Clone, Copy, PartialEq, Eq)]
pub enum Status {
    Empty,
    Submitted,
    Withdrawn,
    Accepted,
    ReversalAsked(Minutes),
    Reversed,
}

// One record of the ledger.
#[derive(Clone, Copy, PartialEq, Eq)]
pub struct Allocation {
    pub generator: u8,
    pub customer: u8,
    pub quantity: Thousandths,
    pub status: Status,
}

// The account of nobody.
pub const NO_ACCOUNT: Account = Account {
    roles: 0,
    requirement: Thousandths(0),
    margin: Margin {
        figure: Cents(0),
        net: Net(0),
    },
};

// The record of no allocation.
pub const NO_ALLOCATION: Allocation = Allocation {
    generator: 0,
    customer: 0,
    quantity: Thousandths(0),
    status: Status::Empty,
};

// A book that is held whole, but for its levels, which are lent beside it.
#[derive(Clone, Copy, PartialEq, Eq)]
pub struct Whole {
    pub month: Month,
    pub accounts: [Account; 32],
    pub ledger: [Allocation; 256],
}

// The answer to a record: the reason, or 0 where it is done, and the number given, 0 but for a done
// SUBMIT. Two numbers: the rules, `demand_1` and the word of an answer speak of these.
#[derive(Clone, Copy, PartialEq, Eq)]
pub struct Answer {
    pub reason: u8,
    pub number: u16,
}

// No month open.
pub fn fresh_month() -> Month
    ensures { result ≡ fresh.month }
{
    let w = Window {
        opening: Minutes(0),
        closing: Minutes(0),
    };
    Month {
        days: 0,
        price: Cents(0),
        last: Minutes(0),
        given: 0,
        windows: [w; 4],
    }
}

// Nobody registered.
pub fn fresh_accounts() -> [Account; 32]
    ensures { result ≡ fresh.accounts }
{
    [NO_ACCOUNT; 32]
}

// No credits.
pub fn fresh_levels() -> [u32; 3968]
    ensures { result ≡ fresh.levels }
{
    [0; 3968]
}

// No allocation.
pub fn fresh_ledger() -> [Allocation; 256]
    ensures { result ≡ fresh.ledger }
{
    [NO_ALLOCATION; 256]
}

// The fresh book, but for its levels.
pub fn fresh_whole() -> Whole
    ensures { result ≡ record { month = fresh.month; accounts = fresh.accounts; ledger = fresh.ledger } }
{
    Whole {
        month: fresh_month(),
        accounts: fresh_accounts(),
        ledger: fresh_ledger(),
    }
}
