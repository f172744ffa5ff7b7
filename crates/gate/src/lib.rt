// The gate: by which room a step goes in, and what it is refused for at the door, before any total
// is worked out: reasons 2 to 11. A room is the part of the book that a step alters, as document
// 01's table of kinds has it, and a room's own step has what its kinds use and nothing else.
#![tactic(auto)]

ghost use Rattle.std.specs.Prelude.{◌≡◌, Some};
ghost use Rattle.gate.specs.Rooms.{said_by};

mod doors; // doors.rt: steps that alter the month, an account, levels, or all that a generator has accepted
mod tests; // tests.rt: of a time, a window, and the numbers of a step
mod trades; // trades.rt: steps that alter one allocation

pub use doors::{account_reason, cut_reason, levels_reason, month_reason};
use record::Step;
pub use trades::allocation_reason;
use units::{Cents, LongMinutes, Minutes, Thousandths};

// A step's days, selector, roles and kind are numbers as its record has them: a record may hold any,
// and the doors answer for those that stand for nothing (reason 7).

// What OPEN and WINDOW set.
#[derive(Clone, Copy)]
pub enum MonthChange {
    Open { days: u8, price: Cents },
    Window { selector: u8, end: LongMinutes },
}

// A step that alters the month.
#[derive(Clone, Copy)]
pub struct MonthStep {
    pub change: MonthChange,
    pub at: Minutes,
}

// What REGISTER, REQUIREMENT and MARGIN store.
#[derive(Clone, Copy)]
pub enum AccountChange {
    Roles(u8),
    Requirement(Thousandths),
    Margin(Cents),
}

// A step that alters an account.
#[derive(Clone, Copy)]
pub struct AccountStep {
    pub participant: u8,
    pub change: AccountChange,
    pub at: Minutes,
}

// What is done to levels.
#[derive(Clone, Copy, PartialEq, Eq)]
pub enum LevelChange {
    Create,
    Terminate,
}

// A step that alters levels: CREATE or TERMINATE.
#[derive(Clone, Copy)]
pub struct LevelStep {
    pub change: LevelChange,
    pub participant: u8,
    pub kind: u8,
    pub day: u8,
    pub quantity: Thousandths,
    pub at: Minutes,
}

// What is done to one allocation.
#[derive(Clone, Copy)]
pub enum Trade {
    Submit { customer: u8, quantity: Thousandths },
    Withdraw(u16),
    Accept(u16),
    AskReversal(u16),
    AgreeReversal(u16),
    Amend { number: u16, quantity: Thousandths },
}

// A step that alters one allocation. All but SUBMIT name it by its number.
#[derive(Clone, Copy)]
pub struct AllocationStep {
    pub party: u8,
    pub trade: Trade,
    pub at: Minutes,
}

// A step that alters all that a generator has accepted: OPERATOR AMENDS.
#[derive(Clone, Copy)]
pub struct CutStep {
    pub generator: u8,
    pub at: Minutes,
}

// What a record asks, by the part of the book that it alters.
#[derive(Clone, Copy)]
pub enum Room {
    Month(MonthStep),
    Account(AccountStep),
    Levels(LevelStep),
    Allocation(AllocationStep),
    Cut(CutStep),
    Nowhere,
}

// A step that alters the month.
fn month(change: MonthChange, at: Minutes) -> Room
    ensures { result ≡ Room.Month (record { change = change; at = at }) }
{
    Room::Month(MonthStep { change, at })
}

// One that alters an account.
fn account(participant: u8, change: AccountChange, at: Minutes) -> Room
    ensures { result ≡ Room.Account (record { participant = participant; change = change; at = at }) }
{
    Room::Account(AccountStep {
        participant,
        change,
        at,
    })
}

// One that alters an allocation.
fn allocation(party: u8, trade: Trade, at: Minutes) -> Room
    ensures { result ≡ Room.Allocation (record { party = party; trade = trade; at = at }) }
{
    Room::Allocation(AllocationStep { party, trade, at })
}

// The room of a step: one exhaustive match, an arm for each kind.
impl From<Step> for Room {
    ghost from_gives = { λ step room. said_by room ≡ Some step };

    fn from(step: Step) -> Room {
        match step {
            Step::Open { days, price, at } => month(MonthChange::Open { days, price }, at),
            Step::Window { selector, end, at } => month(MonthChange::Window { selector, end }, at),
            Step::Register {
                participant,
                roles,
                at,
            } => account(participant, AccountChange::Roles(roles), at),
            Step::Requirement {
                customer,
                quantity,
                at,
            } => account(customer, AccountChange::Requirement(quantity), at),
            Step::Margin {
                participant,
                figure,
                at,
            } => account(participant, AccountChange::Margin(figure), at),
            Step::Create {
                participant,
                kind,
                day,
                quantity,
                at,
            } => Room::Levels(LevelStep {
                change: LevelChange::Create,
                participant,
                kind,
                day,
                quantity,
                at,
            }),
            Step::Terminate {
                participant,
                kind,
                day,
                quantity,
                at,
            } => Room::Levels(LevelStep {
                change: LevelChange::Terminate,
                participant,
                kind,
                day,
                quantity,
                at,
            }),
            Step::Submit {
                generator,
                customer,
                quantity,
                at,
            } => allocation(generator, Trade::Submit { customer, quantity }, at),
            Step::Withdraw {
                generator,
                number,
                at,
            } => allocation(generator, Trade::Withdraw(number), at),
            Step::Accept {
                customer,
                number,
                at,
            } => allocation(customer, Trade::Accept(number), at),
            Step::AskReversal {
                generator,
                number,
                at,
            } => allocation(generator, Trade::AskReversal(number), at),
            Step::AgreeReversal {
                customer,
                number,
                at,
            } => allocation(customer, Trade::AgreeReversal(number), at),
            Step::GeneratorAmends {
                generator,
                number,
                quantity,
                at,
            } => allocation(generator, Trade::Amend { number, quantity }, at),
            Step::OperatorAmends { generator, at } => Room::Cut(CutStep { generator, at }),
        }
    }
}

// The room of what a record says.
pub fn room_of(said: Option<Step>) -> Room
    ensures { said_by result ≡ said }
{
    said.map_or(Room::Nowhere, Room::from)
}
