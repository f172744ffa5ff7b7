// A step that alters one allocation, by value: what it reads of the book, and what it writes.
ghost use Rattle.std.specs.Prelude.{◌≡◌};
ghost use Rattle.gate.specs.Doors.{customer_in};
ghost use Rattle.ledger.specs.Judging.{place_of, judged_by, NumberLeft};
ghost use Rattle.ledger.specs.Writing.{allocation_by, traded_at, given_by};

use book::{Allocation, Month, Status};
use gate::{AllocationStep, Trade};

// ---- what it reads
// The place in the ledger that a step reads and writes.
pub fn place(m: Month, x: AllocationStep) -> usize
    ensures { result ≡ place_of m x.trade }
{
    match x.trade {
        Trade::Submit { .. } => m.given as usize,
        Trade::Withdraw(number)
        | Trade::Accept(number)
        | Trade::AskReversal(number)
        | Trade::AgreeReversal(number)
        | Trade::Amend { number, .. } => number.saturating_sub(1) as usize,
    }
}

// Participant B: the customer of a SUBMIT. 0 and no Option where there is none, as `customer_in` of
// the gate's clauses has it.
pub fn customer_in(x: AllocationStep) -> u8
    ensures { result ≡ customer_in x.trade }
{
    match x.trade {
        Trade::Submit { customer, .. } => customer,
        _ => 0,
    }
}

// Whose credits, totals and margin a step is judged by.
pub fn judged_by(x: AllocationStep, here: Allocation) -> u8
    ensures { result ≡ judged_by x.party x.trade here }
{
    match x.trade {
        Trade::Accept(_) => here.generator,
        Trade::AgreeReversal(_) => here.customer,
        _ => x.party,
    }
}

// ---- what it writes
// The record that a done step writes back at its place.
pub fn allocation_by(x: AllocationStep, l: Allocation) -> Allocation
    ensures { result ≡ allocation_by x.party x.at x.trade l }
{
    let status = match x.trade {
        Trade::Submit { customer, quantity } => {
            return Allocation {
                generator: x.party,
                customer,
                quantity,
                status: Status::Submitted,
            };
        }
        Trade::Amend { quantity, .. } => return Allocation { quantity, ..l },
        Trade::Withdraw(_) => Status::Withdrawn,
        Trade::Accept(_) => Status::Accepted,
        Trade::AskReversal(_) => Status::ReversalAsked(x.at),
        Trade::AgreeReversal(_) => Status::Reversed,
    };
    Allocation { status, ..l }
}

// A done step stores its minute; the number that it gives.
pub fn store(month: &mut Month, x: AllocationStep) -> Option<u16>
    requires { NumberLeft month.old x.trade }
    ensures month { month.new ≡ traded_at x.at x.trade month.old }
    ensures number { result ≡ given_by x.trade month.old }
{
    month.last = x.at;
    match x.trade {
        Trade::Submit { .. } => {
            month.given += 1;
            Some(month.given)
        }
        _ => None,
    }
}
