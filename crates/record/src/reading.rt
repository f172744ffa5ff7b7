// The step that the fields of a record say. Each kind takes the fields that it uses; the rest is tested by writing the step again.
ghost use Rattle.std.specs.Prelude.{◌≡◌};
ghost use Rattle.record.specs.Kinds.{kind_of};
ghost use Rattle.record.specs.Record.{made, said_as};

use crate::Step;
use crate::form::Fields;
use crate::kind::Kind;
use units::{Cents, LongMinutes};

// The step of a kind, whatever stands in the fields that the kind does not use. One exhaustive match, an arm for each kind: cut in two, it would need an
// arm that is never taken.
fn of_kind(kind: Kind, f: Fields) -> Step
    ensures { result ≡ made kind f }
{
    let at = f.minute;
    match kind {
        Kind::Open => Step::Open {
            days: f.day,
            price: Cents::from(f.amount),
            at,
        },
        Kind::Window => Step::Window {
            selector: f.selector,
            end: LongMinutes::from(f.amount),
            at,
        },
        Kind::Register => Step::Register {
            participant: f.a,
            roles: f.selector,
            at,
        },
        Kind::Requirement => Step::Requirement {
            customer: f.a,
            quantity: f.quantity,
            at,
        },
        Kind::Margin => Step::Margin {
            participant: f.a,
            figure: Cents::from(f.amount),
            at,
        },
        Kind::Create => Step::Create {
            participant: f.a,
            kind: f.selector,
            day: f.day,
            quantity: f.quantity,
            at,
        },
        Kind::Terminate => Step::Terminate {
            participant: f.a,
            kind: f.selector,
            day: f.day,
            quantity: f.quantity,
            at,
        },
        Kind::Submit => Step::Submit {
            generator: f.a,
            customer: f.b,
            quantity: f.quantity,
            at,
        },
        Kind::Withdraw => Step::Withdraw {
            generator: f.a,
            number: f.number,
            at,
        },
        Kind::Accept => Step::Accept {
            customer: f.a,
            number: f.number,
            at,
        },
        Kind::AskReversal => Step::AskReversal {
            generator: f.a,
            number: f.number,
            at,
        },
        Kind::AgreeReversal => Step::AgreeReversal {
            customer: f.a,
            number: f.number,
            at,
        },
        Kind::GeneratorAmends => Step::GeneratorAmends {
            generator: f.a,
            number: f.number,
            quantity: f.quantity,
            at,
        },
        Kind::OperatorAmends => Step::OperatorAmends { generator: f.a, at },
    }
}

// What the fields say: the step of their kind, if writing it gives the fields again.
#[tactic(auto, using(crate::proofs::Tested::tested, crate::proofs::Tested::none))]
pub fn step_of(f: Fields) -> Option<Step>
    ensures { result ≡ said_as (kind_of f.kind) f }
{
    let kind = Kind::try_from(f.kind).ok()?;
    let step = of_kind(kind, f);
    (Fields::from(step) == f).then_some(step)
}
