// A whole amount shared in proportion to weights: `share`.
//
// Shares are rounded down, and the spare units go one each to the largest remainders, of equal
// remainders to the lower index first. `specs/Shares.antt` has that list as a definition, and
// `specs/Nearness.antt` what is promised of it.
#![tactic(auto)]

ghost use Rattle.std.specs.Prelude.{◌≡◌, ◌<◌, false, length};
ghost use Rattle.share.specs.Totals.{total};
ghost use Rattle.share.specs.Shares.{floors, spare, share_of};
ghost use Rattle.share.specs.Answers.{too_large, answer_of, shares_after};

// Why a request is not shared.
#[derive(Clone, Copy, PartialEq, Eq)]
pub enum Unshared {
    LengthsDiffer,
    TooLarge,
    NoWeight,
}

// What a request multiplies and adds stays below this, or the request is too large.
const LIMIT: u64 = 0x8000_0000_0000_0000;

// Shares `amount` in proportion to `weights`, or answers why not, and `shares` stays as it was.
#[tactic(auto, unfolding(crate::specs::Answers::answer_of, crate::specs::Answers::no_weight, crate::specs::Answers::shares_after, crate::specs::Answers::settled))]
pub fn share(weights: &[u64], amount: u64, shares: &mut [u64]) -> Result<(), Unshared>
    ensures { (result ≡ answer_of weights.now amount (length shares.old))
        × (shares.new ≡ shares_after weights.now amount shares.old) }
{
    if shares.len() != weights.len() {
        return Err(Unshared::LengthsDiffer);
    }
    if too_large(weights, amount) {
        return Err(Unshared::TooLarge);
    }
    if amount == 0 {
        shares.fill(0);
        return Ok(());
    }
    let sum = weights.iter().sum();
    if sum == 0 {
        return Err(Unshared::NoWeight);
    }
    let request = Request {
        weights,
        amount,
        sum,
    };
    let spares = request.round_down(shares);
    request.give_spares(spares, shares);
    Ok(())
}

// Whether what the request multiplies and adds reaches the limit. What 64 bits cannot hold does.
fn too_large(weights: &[u64], amount: u64) -> bool
    ensures { result ≡ too_large weights.now amount }
{
    // Left where the weights alone reach the limit, before the largest is looked for.
    let Some(sum) = weights.iter().try_fold(0u64, |sum, weight| {
        let sum = sum.saturating_add(*weight);
        (sum < LIMIT).then_some(sum)
    })
    else {
        return true;
    };
    let most = weights.iter().copied().max().unwrap_or(0);
    most.saturating_mul(amount).saturating_add(sum) >= LIMIT
}

// A request that has passed every test, with the total of its weights.
#[derive(Clone, Copy)]
struct Request<'a> {
    weights: &'a [u64],
    amount: u64,
    sum: u64,
    ghost counted: { sum ≡ total weights.now },
    ghost some: { 0 < sum },
    ghost fits: { too_large weights.now amount ≡ false },
}

impl Request<'_> {
    // Writes every share rounded down, and returns what is left of the amount.
    fn round_down(self, shares: &mut [u64]) -> u64
        requires { length shares.old ≡ length self.weights.now }
        ensures { (result ≡ spare self.entry.weights.now self.entry.amount)
            × (shares.new ≡ floors self.entry.weights.now self.entry.amount) }
    {
        let mut left = self.amount;
        // By index: what is written through `iter_mut().zip(..)` no proof can name.
        for (i, weight) in self.weights.iter().enumerate() {
            let down = weight * self.amount / self.sum;
            shares[i] = down;
            left -= down;
        }
        left
    }

    // Gives the spare units, one each, to the largest remainders of shares that are rounded down.
    //
    // While a share is rounded down, the share times the sum is at most the weight times the
    // amount, and the difference is its remainder. With its unit it is more.
    // The search is nested, and left by its label: document 01 asks for that form.
    fn give_spares(self, spares: u64, shares: &mut [u64])
        requires { (spares ≡ spare self.weights.now self.amount)
            × (shares.old ≡ floors self.weights.now self.amount) }
        ensures { shares.new ≡ share_of self.entry.weights.now self.entry.amount }
    {
        let mut left = spares;
        'spares: loop {
            let mut best = 0;
            // One more than the remainder of `best`, and 0 while there is none.
            let mut top = 0;
            let mut i = 0;
            let chosen = loop {
                if left == 0 {
                    break 'spares;
                }
                if i == self.weights.len() {
                    break best;
                }
                let exact = self.weights[i] * self.amount;
                let held = shares[i] * self.sum;
                if held <= exact {
                    let rest = exact - held;
                    if rest >= top {
                        best = i;
                        top = rest + 1;
                    }
                }
                i += 1;
            };
            shares[chosen] += 1;
            left -= 1;
        }
    }
}
