// What a step is refused for at the door, by kind: steps that alter the month, an account, levels,
// or all that a generator has accepted.
#![tactic(auto, unfolding(reasons::specs::Chain::when, reasons::specs::Chain::first, crate::proofs::Chains::opened))]

ghost use Rattle.std.specs.Prelude.{◌≡◌, not, ◌&&◌, eqb};
ghost use Rattle.std.specs.Int.Signed.{lt_z};
ghost use Rattle.record.specs.declared.Step.TheVariants as S;
ghost use Rattle.book.specs.Book.{most_level};
ghost use Rattle.book.specs.Reasons.{from_to};
ghost use Rattle.reasons.specs.Chain.{when, first};
ghost use Rattle.reasons.specs.Numbers.{reason_said};
ghost use Rattle.reasons.specs.Parts.{generates};
ghost use Rattle.gate.specs.Rooms.{month_step, account_step, level_step, cut_step};
ghost use Rattle.gate.specs.Doors.{ByMonth, ByParty};
ghost use Rattle.gate.specs.Shared.{before_all};

use crate::tests::{end_fits, figure_fits, price_fits};
use crate::{AccountChange, AccountStep, CutStep, LevelStep, MonthChange, MonthStep};
use book::Month;
use reasons::{
    FEWEST_DAYS, MOST_DAYS, MOST_LEVEL, MOST_QUANTITY, PARTICIPANTS, Reason, is_customer,
    is_generator, refused_if, refused_unless,
};
use units::{Cents, LongMinutes, Minutes, Thousandths};

// 2 and 4: of every kind but OPEN.
pub fn before_all(m: Month, at: Minutes) -> Result<(), Reason>
    ensures { reason_said result ≡ before_all m at }
{
    refused_if(m.days == 0, Reason::NoMonth)?;
    refused_if(at < m.last, Reason::BeforeLast)
}

fn open(m: Month, days: u8, price: Cents, at: Minutes) -> Result<(), Reason>
    ensures { ByMonth m (S.Open days price at) (reason_said result) }
{
    let fits = (FEWEST_DAYS..=MOST_DAYS).contains(&days) && price_fits(price);
    refused_unless(m.days == 0, Reason::Already)?;
    refused_unless(fits, Reason::Outside)
}

fn window(m: Month, selector: u8, end: LongMinutes, at: Minutes) -> Result<(), Reason>
    ensures { ByMonth m (S.Window selector end at) (reason_said result) }
{
    before_all(m, at)?;
    refused_unless(
        (1..=8).contains(&selector) && end_fits(end),
        Reason::Outside,
    )
}

// OPEN and WINDOW.
pub fn month_reason(m: Month, x: MonthStep) -> Result<(), Reason>
    ensures { ByMonth m (month_step x) (reason_said result) }
{
    match x.change {
        MonthChange::Open { days, price } => open(m, days, price, x.at),
        MonthChange::Window { selector, end } => window(m, selector, end, x.at),
    }
}

fn register(m: Month, roles: u8, participant: u8, new: u8, at: Minutes) -> Result<(), Reason>
    ensures { ByParty m participant roles (S.Register participant new at) (reason_said result) }
{
    refused_if(m.days == 0, Reason::NoMonth)?;
    refused_unless(roles == 0, Reason::Already)?;
    refused_if(at < m.last, Reason::BeforeLast)?;
    refused_unless(
        participant < PARTICIPANTS && (1..=3).contains(&new),
        Reason::Outside,
    )
}

fn requirement(
    m: Month,
    roles: u8,
    customer: u8,
    quantity: Thousandths,
    at: Minutes,
) -> Result<(), Reason>
    ensures { ByParty m customer roles (S.Requirement customer quantity at) (reason_said result) }
{
    before_all(m, at)?;
    refused_if(roles == 0, Reason::Unknown)?;
    refused_unless(is_customer(roles), Reason::WrongParty)?;
    refused_unless(quantity <= Thousandths(MOST_QUANTITY), Reason::Outside)
}

fn margin(m: Month, roles: u8, participant: u8, figure: Cents, at: Minutes) -> Result<(), Reason>
    ensures { ByParty m participant roles (S.Margin participant figure at) (reason_said result) }
{
    before_all(m, at)?;
    refused_if(roles == 0, Reason::Unknown)?;
    refused_unless(figure_fits(figure), Reason::Outside)
}

// REGISTER, REQUIREMENT and MARGIN.
pub fn account_reason(m: Month, roles: u8, x: AccountStep) -> Result<(), Reason>
    ensures { ByParty m x.participant roles (account_step x) (reason_said result) }
{
    let p = x.participant;
    let at = x.at;
    match x.change {
        AccountChange::Roles(new) => register(m, roles, p, new, at),
        AccountChange::Requirement(quantity) => requirement(m, roles, p, quantity, at),
        AccountChange::Margin(figure) => margin(m, roles, p, figure, at),
    }
}

// Whether a participant may not hold credits of a kind: kinds 1 to 3 are a generator's.
fn wrong_holder(kind: u8, roles: u8) -> bool
    ensures { result ≡ (from_to 1 3 kind && not (generates roles)) }
{
    (1..=3).contains(&kind) && !is_generator(roles)
}

// The kind, the first day and the quantity of a credit.
fn credit_fits(days: u8, kind: u8, day: u8, quantity: Thousandths) -> bool
    ensures { result ≡ (from_to 1 4 kind && (from_to 1 days day && from_to 1 most_level quantity.0)) }
{
    let quantities = Thousandths(1)..=Thousandths(MOST_LEVEL);
    (1..=4).contains(&kind) && (1..=days).contains(&day) && quantities.contains(&quantity)
}

// CREATE and TERMINATE.
pub fn levels_reason(m: Month, roles: u8, x: LevelStep) -> Result<(), Reason>
    ensures { ByParty m x.participant roles (level_step x) (reason_said result) }
{
    before_all(m, x.at)?;
    refused_if(roles == 0, Reason::Unknown)?;
    refused_if(wrong_holder(x.kind, roles), Reason::WrongParty)?;
    refused_unless(
        credit_fits(m.days, x.kind, x.day, x.quantity),
        Reason::Outside,
    )
}

// OPERATOR AMENDS.
pub fn cut_reason(m: Month, roles: u8, x: CutStep) -> Result<(), Reason>
    ensures { ByParty m x.generator roles (cut_step x) (reason_said result) }
{
    before_all(m, x.at)?;
    refused_if(roles == 0, Reason::Unknown)?;
    refused_unless(is_generator(roles), Reason::WrongParty)
}
