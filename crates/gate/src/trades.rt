// What a step is refused for at the door, by kind: steps that alter one allocation.
#![tactic(auto, unfolding(reasons::specs::Chain::when, reasons::specs::Chain::first, book::specs::Reasons::window_open))]

ghost use Rattle.std.specs.Prelude.{◌≡◌, not, ◌||◌, ◌+◌, ◌<◌};
ghost use Rattle.record.specs.declared.Step.TheVariants as S;
ghost use Rattle.book.specs.Reasons.{window_open};
ghost use Rattle.reasons.specs.Chain.{when, first};
ghost use Rattle.reasons.specs.Numbers.{reason_said};
ghost use Rattle.reasons.specs.Parts.{generates, consumes};
ghost use Rattle.gate.specs.Doors.{ByParties, ByTrade};
ghost use Rattle.gate.specs.Shared.{as_named, in_window, to_accept, to_amend};

use crate::doors::before_all;
use crate::tests::{is_open, not_given, quantity_fits};
use crate::{AllocationStep, Trade};
use book::{Allocation, Month, Status};
use reasons::{
    MOST_GIVEN, MOST_QUANTITY, Reason, is_customer, is_generator, refused_if, refused_unless,
};
use units::{Minutes, Thousandths};

// The places of the windows, a list in the rules too.
const SUBMITTING: usize = 0;

const ACCEPTING: usize = 1;

const WITHDRAWING: usize = 2;

const REVERSING: usize = 3;

// Whether A is no generator or B no customer.
fn wrong_parties(roles: u8, customers: u8) -> bool
    ensures { result ≡ (not (generates roles) || not (consumes customers)) }
{
    !is_generator(roles) || !is_customer(customers)
}

// SUBMIT, whose parties are A and B.
#[tactic(auto, unfolding(reasons::specs::Chain::when, reasons::specs::Chain::first, crate::proofs::Chains::opened, book::specs::Reasons::window_open))]
fn submit(
    m: Month,
    roles: u8,
    customers: u8,
    generator: u8,
    customer: u8,
    quantity: Thousandths,
    at: Minutes,
) -> Result<(), Reason>
    ensures { ByParties m generator roles customer customers (S.Submit generator customer quantity at) (reason_said result) }
{
    before_all(m, at)?;
    refused_if(roles == 0 || customers == 0, Reason::Unknown)?;
    refused_if(wrong_parties(roles, customers), Reason::WrongParty)?;
    refused_unless(quantity_fits(quantity), Reason::Outside)?;
    refused_unless(is_open(m.windows[SUBMITTING], at), Reason::Closed)?;
    refused_if(MOST_GIVEN <= m.given, Reason::AllGiven)
}

// What a step on an allocation that it names goes by, but for the number: the month, A's roles, the
// record at the number's place, A and the minute.
#[derive(Clone, Copy)]
struct Asked {
    month: Month,
    roles: u8,
    here: Allocation,
    party: u8,
    at: Minutes,
}

impl Asked {
    // 2, 4, 5 and 6, where A has to be a party of the allocation: `named`.
    fn as_named(self, named: u8, number: u16) -> Result<(), Reason>
        ensures { reason_said result ≡ as_named self named number }
    {
        before_all(self.month, self.at)?;
        refused_if(
            self.roles == 0 || not_given(self.month, number),
            Reason::Unknown,
        )?;
        refused_unless(named == self.party, Reason::WrongParty)
    }

    // WITHDRAW, ASK REVERSAL and AGREE REVERSAL: in a window, where the allocation has the status.
    fn timed(self, named: u8, number: u16, window: usize, has: bool) -> Result<(), Reason>
        requires { window < 4 }
        ensures { reason_said result ≡ first (as_named self named number) (in_window (window + 1) has self.month self.at) }
    {
        self.as_named(named, number)?;
        refused_unless(is_open(self.month.windows[window], self.at), Reason::Closed)?;
        refused_unless(has, Reason::WrongStatus)
    }

    fn accept(self, number: u16) -> Result<(), Reason>
        ensures { reason_said result ≡ first (as_named self self.here.customer number) (to_accept self.month self.at self.here) }
    {
        let withdrawn = self.here.status == Status::Withdrawn;
        let other = self.here.status != Status::Submitted && !withdrawn;
        self.as_named(self.here.customer, number)?;
        refused_unless(
            is_open(self.month.windows[ACCEPTING], self.at),
            Reason::Closed,
        )?;
        refused_if(other, Reason::WrongStatus)?;
        refused_if(withdrawn, Reason::WasWithdrawn)
    }

    // GENERATOR AMENDS.
    fn amend(self, number: u16, quantity: Thousandths) -> Result<(), Reason>
        ensures { reason_said result ≡ first (as_named self self.here.generator number) (to_amend quantity self.here) }
    {
        let accepted = matches!(
            self.here.status,
            Status::Accepted | Status::ReversalAsked(_)
        );
        self.as_named(self.here.generator, number)?;
        refused_unless(quantity <= Thousandths(MOST_QUANTITY), Reason::Outside)?;
        refused_unless(accepted, Reason::WrongStatus)
    }
}

// SUBMIT to AGREE REVERSAL, and GENERATOR AMENDS.
pub fn allocation_reason(
    m: Month,
    roles: u8,
    customers: u8,
    here: Allocation,
    x: AllocationStep,
) -> Result<(), Reason>
    ensures { ByTrade m roles customers here x (reason_said result) }
{
    let asked = Asked {
        month: m,
        roles,
        here,
        party: x.party,
        at: x.at,
    };
    match x.trade {
        Trade::Submit { customer, quantity } => {
            let others = if customer == x.party {
                roles
            } else {
                customers
            };
            submit(m, roles, others, x.party, customer, quantity, x.at)
        }
        Trade::Withdraw(number) => {
            let submitted = here.status == Status::Submitted;
            asked.timed(here.generator, number, WITHDRAWING, submitted)
        }
        Trade::Accept(number) => asked.accept(number),
        Trade::AskReversal(number) => {
            let accepted = here.status == Status::Accepted;
            asked.timed(here.generator, number, REVERSING, accepted)
        }
        Trade::AgreeReversal(number) => {
            let is_asked = matches!(here.status, Status::ReversalAsked(_));
            asked.timed(here.customer, number, REVERSING, is_asked)
        }
        Trade::Amend { number, quantity } => asked.amend(number, quantity),
    }
}
