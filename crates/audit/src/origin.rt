// The step that put each quantity of the ledger: every record of a history in turn, and of each
// allocation the last done step that put its quantity.
ghost use Rattle.std.specs.Prelude.{◌≡◌, cond, ◌≤◌, ◌<◌, length, replicate, Some, None};
ghost use Rattle.audit.specs.Following.{book_held, put_of, Follows};
ghost use Rattle.audit.specs.Putting.{puts_by, PutEach, FollowsOne};

use book::{Allocation, Whole};
use ledger::{answer_in, is_cut, run_whole};
use record::Step;
use units::Minutes;

// The numbers of the kinds that put a quantity.
pub const SUBMIT: u8 = 8;

pub const GENERATOR_AMENDS: u8 = 13;

pub const OPERATOR_AMENDS: u8 = 14;

// The step that put a quantity: its place in the history, its kind and its minute. The kind stays a
// number, since `follow` takes and leaves any that a caller has in `puts`.
#[derive(Clone, Copy, PartialEq, Eq)]
pub struct Put {
    pub place: u64,
    pub kind: u8,
    pub minute: Minutes,
}

// A book, and of each of its allocations the step that put its quantity, where one did.
#[derive(Clone, Copy, PartialEq, Eq)]
pub struct Followed {
    pub book: Whole,
    pub puts: [Option<Put>; 256],
}

// No quantity put.
pub fn nothing_put() -> [Option<Put>; 256]
    ensures { result ≡ replicate 256 None }
{
    [None; 256]
}

// A done step as the one that puts the quantity of the allocation with that number, where it does
// and so many numbers were given.
#[tactic(auto, unfolding(crate::specs::Putting::puts_by))]
fn put_by(step: Step, given: u16, number: u64, l: Allocation, place: u64) -> Option<Put>
    ensures { result ≡ cond (puts_by step given number l) (Some (put_of step place)) None }
{
    let (puts, kind, minute) = match step {
        Step::Submit { at, .. } => (number == u64::from(given) + 1, SUBMIT, at),
        Step::GeneratorAmends {
            number: amended,
            at,
            ..
        } => (number == u64::from(amended), GENERATOR_AMENDS, at),
        Step::OperatorAmends { generator, at } => (is_cut(generator, l), OPERATOR_AMENDS, at),
        _ => return None,
    };
    puts.then_some(Put {
        place,
        kind,
        minute,
    })
}

// What stands for each allocation after a done step.
fn put_all(
    step: Step,
    given: u16,
    ledger: &[Allocation; 256],
    place: u64,
    puts: &mut [Option<Put>; 256],
)
    ensures { PutEach (puts_by step given) ledger.now (Some (put_of step place)) puts.old puts.new }
{
    for (i, put) in puts.iter_mut().enumerate() {
        if let Some(now) = put_by(step, given, i as u64 + 1, ledger[i], place) {
            *put = Some(now);
        }
    }
}

// One record, of 1 to 24 bytes, on a book.
fn follow_one(followed: &mut Followed, levels: &mut [u32], bytes: &[u8], place: u64)
    requires { (0 < length bytes.now) × (length bytes.now ≤ 24) }
    ensures { FollowsOne (book_held followed.old.book levels.old) bytes.now place followed.old.puts followed.new levels.new }
{
    let before = followed.book;
    let mut answers = [0];
    run_whole(&mut followed.book, levels, bytes, &mut answers);
    let done = answer_in(answers[0]).reason == 0;
    if done {
        if let Some(step) = record::decode(bytes) {
            put_all(
                step,
                before.month.given,
                &before.ledger,
                place,
                &mut followed.puts,
            );
        }
    }
}

// Every record of a history on a book, and of each allocation the last done step that put its
// quantity; so many records were followed before.
pub fn follow(followed: &mut Followed, levels: &mut [u32], history: &[u8], done: u64)
    ensures { Follows (book_held followed.old.book levels.old) history.now done followed.old.puts followed.new levels.new }
{
    let mut place = done;
    for bytes in history.chunks(24) {
        place = place.saturating_add(1);
        follow_one(followed, levels, bytes, place);
    }
}
