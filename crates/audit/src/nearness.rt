// A cut against the published formula: how far the new quantity of each accepted allocation lies
// from its exact share, its quantity x tradeable / accepted. Distances are multiplied by the
// accepted total, so that all of them are whole numbers.
ghost use Rattle.std.specs.Prelude.{◌≡◌, ◌-◌, ◌^◌, min};
ghost use Rattle.share.specs.Totals.{total};
ghost use Rattle.audit.specs.Measuring.{quantities_of, Comparable, MissEach, Measures};

use book::Allocation;
use ledger::weight;
use reasons::MOST_QUANTITY;

// The accepted total, each distance, and all of them. All 0 where a total is above 20,000,000, as
// that of no sound book is: `Measures` gives every pair of ledgers its numbers, so there is no Err.
#[derive(Clone, Copy)]
pub struct Measured {
    pub accepted: u64,
    pub each: [u64; 256],
    pub sum: u64,
}

// The most that a generator has accepted in a sound book.
const MOST: u64 = MOST_QUANTITY as u64;

// What a generator has accepted in all, as far as 64 bits hold.
fn accepted_of(generator: u8, ledger: &[Allocation; 256]) -> u64
    ensures { result ≡ min (total (quantities_of generator ledger.now)) (2 ^ 64 - 1) }
{
    ledger
        .iter()
        .map(|l| weight(generator, *l))
        .fold(0, u64::saturating_add)
}

// The distance of each new quantity from its exact share.
fn miss_each(
    generator: u8,
    tradeable: u32,
    accepted: u64,
    before: &[Allocation; 256],
    after: &[Allocation; 256],
) -> [u64; 256]
    requires { (accepted ≡ total (quantities_of generator before.now)) × Comparable (quantities_of generator before.now) (quantities_of generator after.now) }
    ensures { MissEach (quantities_of generator before.now) tradeable (quantities_of generator after.now) result }
{
    let mut each = [0; 256];
    for i in 0..256 {
        let has = accepted * weight(generator, after[i]);
        let exact = weight(generator, before[i]) * u64::from(tradeable);
        each[i] = has.abs_diff(exact);
    }
    each
}

// Of each accepted allocation of a generator how far its new quantity lies from its exact share,
// times the accepted total; and all of it.
pub fn misses(
    generator: u8,
    tradeable: u32,
    before: &[Allocation; 256],
    after: &[Allocation; 256],
) -> Measured
    ensures { Measures (quantities_of generator before.now) tradeable (quantities_of generator after.now) result }
{
    let accepted = accepted_of(generator, before);
    if accepted > MOST || accepted_of(generator, after) > MOST {
        return Measured {
            accepted: 0,
            each: [0; 256],
            sum: 0,
        };
    }
    let each = miss_each(generator, tradeable, accepted, before, after);
    let sum = each.iter().sum();
    Measured {
        accepted,
        each,
        sum,
    }
}
