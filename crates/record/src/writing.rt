// The fields of a step: each kind writes those that it uses.
ghost use Rattle.std.specs.Prelude.{◌≡◌, pos};
ghost use Rattle.record.specs.Kinds.{kind_number};
ghost use Rattle.record.specs.Record.{row, written};

use crate::Step;
use crate::form::{Amount, Fields};
use crate::kind::Kind;
use units::{Minutes, Thousandths};

// A record of a kind, with its participant A and its minute, and zero in every other field.
fn rest_zero(kind: Kind, a: u8, minute: Minutes) -> Fields
    ensures { result ≡ row (kind_number kind) a 0 0 0 0 0 (pos 0) minute }
{
    Fields {
        kind: u8::from(kind),
        a,
        b: 0,
        selector: 0,
        minute,
        number: 0,
        day: 0,
        eleven: 0,
        quantity: Thousandths(0),
        amount: Amount(0),
    }
}

// The fields of a step. One exhaustive match, as in `reading::of_kind`.
impl From<Step> for Fields {
    ghost from_gives = { λ step f. f ≡ written step };

    fn from(step: Step) -> Fields {
        match step {
            Step::Open { days, price, at } => Fields {
                day: days,
                amount: Amount::from(price),
                ..rest_zero(Kind::Open, 0, at)
            },
            Step::Window { selector, end, at } => Fields {
                selector,
                amount: Amount::from(end),
                ..rest_zero(Kind::Window, 0, at)
            },
            Step::Register {
                participant,
                roles,
                at,
            } => Fields {
                selector: roles,
                ..rest_zero(Kind::Register, participant, at)
            },
            Step::Requirement {
                customer,
                quantity,
                at,
            } => Fields {
                quantity,
                ..rest_zero(Kind::Requirement, customer, at)
            },
            Step::Margin {
                participant,
                figure,
                at,
            } => Fields {
                amount: Amount::from(figure),
                ..rest_zero(Kind::Margin, participant, at)
            },
            Step::Create {
                participant,
                kind,
                day,
                quantity,
                at,
            } => Fields {
                selector: kind,
                day,
                quantity,
                ..rest_zero(Kind::Create, participant, at)
            },
            Step::Terminate {
                participant,
                kind,
                day,
                quantity,
                at,
            } => Fields {
                selector: kind,
                day,
                quantity,
                ..rest_zero(Kind::Terminate, participant, at)
            },
            Step::Submit {
                generator,
                customer,
                quantity,
                at,
            } => Fields {
                b: customer,
                quantity,
                ..rest_zero(Kind::Submit, generator, at)
            },
            Step::Withdraw {
                generator,
                number,
                at,
            } => Fields {
                number,
                ..rest_zero(Kind::Withdraw, generator, at)
            },
            Step::Accept {
                customer,
                number,
                at,
            } => Fields {
                number,
                ..rest_zero(Kind::Accept, customer, at)
            },
            Step::AskReversal {
                generator,
                number,
                at,
            } => Fields {
                number,
                ..rest_zero(Kind::AskReversal, generator, at)
            },
            Step::AgreeReversal {
                customer,
                number,
                at,
            } => Fields {
                number,
                ..rest_zero(Kind::AgreeReversal, customer, at)
            },
            Step::GeneratorAmends {
                generator,
                number,
                quantity,
                at,
            } => Fields {
                number,
                quantity,
                ..rest_zero(Kind::GeneratorAmends, generator, at)
            },
            Step::OperatorAmends { generator, at } => rest_zero(
                Kind::OperatorAmends,
                generator,
                at,
            ),
        }
    }
}
