// The step record: what 24 bytes say, and the 24 bytes of a step. No function here has a `requires`: whatever the bytes, they are answered.
#![tactic(auto)]

ghost use Rattle.std.specs.Prelude.{◌≡◌, ◌*◌, take, drop, Some};
ghost use Rattle.record.specs.Record.{decode_of, bytes_of};
ghost use Rattle.record.specs.Ranged.{Ranged};

use form::Fields;
use units::{Cents, LongMinutes, Minutes, Thousandths};

mod form; // form.rt: the fields of a record
mod kind; // kind.rt: the kinds of step
mod reading; // reading.rt: the step that fields say
mod writing; // writing.rt: the fields of a step

// A step of the market's history: one of fourteen kinds, each with its own data. Days, selector, roles
// and kind of a credit are numbers: a record may say any.
#[derive(Clone, Copy)]
pub enum Step {
    Open {
        days: u8,
        price: Cents,
        at: Minutes,
    },
    Window {
        selector: u8,
        end: LongMinutes,
        at: Minutes,
    },
    Register {
        participant: u8,
        roles: u8,
        at: Minutes,
    },
    Requirement {
        customer: u8,
        quantity: Thousandths,
        at: Minutes,
    },
    Margin {
        participant: u8,
        figure: Cents,
        at: Minutes,
    },
    Create {
        participant: u8,
        kind: u8,
        day: u8,
        quantity: Thousandths,
        at: Minutes,
    },
    Terminate {
        participant: u8,
        kind: u8,
        day: u8,
        quantity: Thousandths,
        at: Minutes,
    },
    Submit {
        generator: u8,
        customer: u8,
        quantity: Thousandths,
        at: Minutes,
    },
    Withdraw {
        generator: u8,
        number: u16,
        at: Minutes,
    },
    Accept {
        customer: u8,
        number: u16,
        at: Minutes,
    },
    AskReversal {
        generator: u8,
        number: u16,
        at: Minutes,
    },
    AgreeReversal {
        customer: u8,
        number: u16,
        at: Minutes,
    },
    GeneratorAmends {
        generator: u8,
        number: u16,
        quantity: Thousandths,
        at: Minutes,
    },
    OperatorAmends {
        generator: u8,
        at: Minutes,
    },
}

// The bytes of a record.
const SIZE: usize = 24;

// What a record of bytes says, a step or nothing that counts as one (document 01's reason 1): every list of bytes, of any length, is answered.
#[tactic(auto, using(crate::proofs::Says::fields_say, crate::proofs::Refusal::long_refused))]
pub fn decode(record: &[u8]) -> Option<Step>
    ensures { result ≡ decode_of «record».now }
{
    let bytes = record.as_array::<SIZE>()?;
    reading::step_of(Fields::from(bytes))
}

// The same for the record at a place (from 0) of a file of records, uncopied. Past the last whole record it is refused.
#[tactic(auto, using(crate::proofs::Pieces::piece, crate::proofs::Pieces::past_refused))]
pub fn decode_at(history: &[u8], place: usize) -> Option<Step>
    ensures { result ≡ decode_of (take 24 (drop (place * 24) history.now)) }
{
    let (records, _) = history.as_chunks::<SIZE>();
    decode(records.get(place)?)
}

// The 24 bytes of a step, which fits its fields by its types.
#[tactic(auto, unfolding(crate::specs::Record::bytes_of))]
fn encoded(step: Step) -> [u8; 24]
    ensures bytes { result ≡ bytes_of step }
    ensures fits { Ranged step }
{
    Fields::from(step).into()
}

// The 24 bytes of a step.
pub fn encode(step: Step) -> [u8; 24]
    ensures { result ≡ bytes_of step }
{
    encoded(step)
}

// What the record of a step says: for every step, that step.
#[tactic(auto, using(crate::proofs::RoundTrip::step_again))]
pub fn read_back(step: Step) -> Option<Step>
    ensures { result ≡ Some step }
{
    decode(&encoded(step))
}
