// One part of a book: whether it is zero, as in the fresh book, and whether it is inside its limits,
// as in an open one.
ghost use Rattle.std.specs.Prelude.{◌≡◌, cond, get_or};
ghost use Rattle.std.specs.List.{list_all};
ghost use Rattle.book.specs.Book.{no_account};
ghost use Rattle.book.specs.Sound.{is_no_month, is_no_account, is_no_allocation, window_sound, month_sound, account_sound};
ghost use Rattle.sound.specs.Check.{given_fits, record_fits};

use book::{
    Account, Allocation, Margin, Month, NO_ACCOUNT, NO_ALLOCATION, Status, Window, fresh_month,
};
use reasons::{
    BOTH, FEWEST_DAYS, LEAST_FIGURE, MOST_DAYS, MOST_FIGURE, MOST_GIVEN, MOST_PRICE, MOST_QUANTITY,
    is_customer, is_generator,
};
use units::{Cents, Minutes, Net, Thousandths};

const LEAST_END: Minutes = Minutes(-1_000_000);

const MOST_END: Minutes = Minutes(1_000_000);

const LEAST_NET: Net = Net(-640_000_000);

const MOST_NET: Net = Net(640_000_000);

#[tactic(auto, unfolding(book::specs::Sound::is_no_month))]
pub fn is_no_month(m: Month) -> bool
    ensures { result ≡ is_no_month m }
{
    m == fresh_month()
}

#[tactic(auto, unfolding(book::specs::Sound::is_no_account))]
pub fn is_no_account(a: Account) -> bool
    ensures { result ≡ is_no_account a }
{
    a == NO_ACCOUNT
}

#[tactic(auto, unfolding(book::specs::Sound::is_no_allocation))]
pub fn is_no_allocation(l: Allocation) -> bool
    ensures { result ≡ is_no_allocation l }
{
    l == NO_ALLOCATION
}

// A window's two ends.
fn window_sound(w: Window) -> bool
    ensures { result ≡ window_sound w }
{
    (LEAST_END..=MOST_END).contains(&w.opening) && (LEAST_END..=MOST_END).contains(&w.closing)
}

// The four windows.
fn windows_sound(windows: &[Window]) -> bool
    ensures { result ≡ list_all window_sound windows.now }
{
    windows.iter().copied().all(window_sound)
}

#[tactic(auto, unfolding(book::specs::Sound::month_sound))]
pub fn month_sound(m: Month) -> bool
    ensures { result ≡ month_sound m }
{
    (FEWEST_DAYS..=MOST_DAYS).contains(&m.days)
        && (Cents(0)..=Cents(MOST_PRICE)).contains(&m.price)
        && m.given <= MOST_GIVEN
        && windows_sound(&m.windows)
}

#[tactic(auto, unfolding(book::specs::Sound::account_sound))]
pub fn account_sound(a: Account) -> bool
    ensures { result ≡ account_sound a }
{
    a.roles <= BOTH
        && a.requirement <= Thousandths(MOST_QUANTITY)
        && (Cents(LEAST_FIGURE)..=Cents(MOST_FIGURE)).contains(&a.margin.figure)
        && (LEAST_NET..=MOST_NET).contains(&a.margin.net)
}

// The roles of a participant; nobody past the accounts has any.
fn roles_in(accounts: &[Account], participant: u8) -> u8
    ensures { result ≡ (get_or accounts.now participant no_account).roles }
{
    accounts
        .get(usize::from(participant))
        .map_or(0, |a| a.roles)
}

// A record up to the number given.
#[tactic(auto, unfolding(crate::specs::Check::given_fits))]
fn is_given(accounts: &[Account], l: Allocation) -> bool
    ensures { result ≡ given_fits accounts.now l }
{
    l.status != Status::Empty
        && is_generator(roles_in(accounts, l.generator))
        && is_customer(roles_in(accounts, l.customer))
        && l.quantity <= Thousandths(MOST_QUANTITY)
}

// A record that is given, or a later one.
pub fn record_fits(given: u16, accounts: &[Account], i: usize, l: Allocation) -> bool
    ensures { result ≡ record_fits given accounts.now i l }
{
    if i < usize::from(given) {
        is_given(accounts, l)
    } else {
        is_no_allocation(l)
    }
}
