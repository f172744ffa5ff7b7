// The operator's cut on the lent ledger, through the promise of the crate share.
ghost use Rattle.std.specs.Prelude.{◌≡◌, cond, map, ℕ, ◌≤◌, ◌<◌, length, get_or};
ghost use Rattle.book.specs.Book.{most_given, most_quantity};
ghost use Rattle.book.specs.Words.{is_accepted, accepted_in};
ghost use Rattle.book.specs.Cut.{is_cut, with_quantity, recut, cut};
ghost use Rattle.ledger.specs.Ready.{CutFits};

use book::{Allocation, Status};
use share::share;
use units::Thousandths;

// Whether a status is that of an accepted allocation.
fn is_accepted(status: Status) -> bool
    ensures { result ≡ is_accepted status }
{
    matches!(status, Status::Accepted | Status::ReversalAsked(_))
}

// Whether a record is one of the generator's accepted allocations.
pub fn is_cut(generator: u8, l: Allocation) -> bool
    ensures { result ≡ is_cut generator l }
{
    l.generator == generator && is_accepted(l.status)
}

// What a record weighs in a generator's cut.
#[tactic(auto, unfolding(book::specs::Words::accepted_in))]
pub fn weight(generator: u8, l: Allocation) -> u64
    ensures { result ≡ accepted_in generator l }
{
    if is_cut(generator, l) {
        l.quantity.0 as u64
    } else {
        0
    }
}

// What each record weighs. By place, as in `recut_by`: of a zip that writes, a proof knows nothing
// that was written.
fn weigh(generator: u8, ledger: &[Allocation], weights: &mut [u64])
    requires { length weights.old ≡ length ledger.now }
    ensures { weights.new ≡ map (accepted_in generator) ledger.now }
{
    for (i, w) in weights.iter_mut().enumerate() {
        *w = weight(generator, ledger[i]);
    }
}

// A record at its new quantity, where it is one of the generator's accepted ones.
fn at_quantity(generator: u8, l: Allocation, quantity: u64) -> Allocation
    requires { quantity ≤ most_quantity }
    ensures { result ≡ cond (is_cut generator l) (with_quantity l quantity) l }
{
    if is_cut(generator, l) {
        let quantity = Thousandths(quantity as u32);
        return Allocation { quantity, ..l };
    }
    l
}

// The records at their new quantities.
#[tactic(auto, unfolding(book::specs::Cut::recut))]
fn recut_by(generator: u8, ledger: &mut [Allocation], shares: &[u64])
    requires { (length shares.now ≡ length ledger.old) × ((i : ℕ) → i < length ledger.old → get_or shares.now i 0 ≤ most_quantity) }
    ensures { ledger.new ≡ recut generator ledger.old shares.now }
{
    for (i, l) in ledger.iter_mut().enumerate() {
        *l = at_quantity(generator, *l, shares[i]);
    }
}

// The ledger after the cut of a generator to its tradeable credits.
pub fn cut_to(generator: u8, credits: Thousandths, ledger: &mut [Allocation])
    requires { (length ledger.old ≡ most_given) × CutFits generator credits.0 ledger.old }
    ensures { ledger.new ≡ cut generator credits.0 ledger.old }
{
    let mut weights = [0u64; 256];
    let mut shares = [0u64; 256];
    weigh(generator, ledger, &mut weights);
    // Never refused: `CutFits` has a weight to share by, and no request too large.
    let _ = share(&weights, credits.0 as u64, &mut shares);
    recut_by(generator, ledger, &shares);
}
