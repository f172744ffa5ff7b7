// The month room: OPEN and WINDOW. It is lent the month; accounts, levels and ledger it does not see.
ghost use Rattle.std.specs.Prelude.{◌≡◌, ◌≤◌, ◌<◌, nat_abs, IfOk, IfSome};
ghost use Rattle.book.specs.Book.{most_end};
ghost use Rattle.book.specs.Steps.{with_end, window_set};
ghost use Rattle.ledger.specs.Writing.{month_by, stepped};
ghost use Rattle.ledger.specs.Rooms.{ChangeFits, MonthRoom};

use book::{Month, Window};
use gate::{MonthChange, MonthStep, month_reason};
use reasons::Reason;
use units::{LongMinutes, Minutes};

// A window with one end set: an opening for selectors 1 to 4, a closing for 5 to 8.
fn with_end(w: Window, selector: u8, end: Minutes) -> Window
    ensures { result ≡ with_end selector end.0 w }
{
    if selector <= 4 {
        Window { opening: end, ..w }
    } else {
        Window { closing: end, ..w }
    }
}

// WINDOW: one end, which lies in the range of a minute.
fn with_window(m: Month, selector: u8, end: LongMinutes) -> Month
    requires { (0 < selector) × (nat_abs end.0 ≤ most_end) }
    ensures { result ≡ window_set selector end.0 m }
{
    let k = (selector as usize - 1) % 4;
    let mut windows = m.windows;
    windows[k] = with_end(windows[k], selector, Minutes(end.0 as i32));
    Month { windows, ..m }
}

// The month as a done step leaves it, but for its minute.
fn month_by(m: Month, change: MonthChange) -> Month
    requires { ChangeFits change }
    ensures { result ≡ month_by change m }
{
    match change {
        MonthChange::Open { days, price } => Month { days, price, ..m },
        MonthChange::Window { selector, end } => with_window(m, selector, end),
    }
}

// The room.
pub fn month_room(month: &mut Month, x: MonthStep) -> Result<Option<u16>, Reason>
    ensures does { MonthRoom month.old x (stepped month.new result) }
    ensures numbered { IfOk result (λ given. IfSome given (λ n. 0 < n)) }
{
    month_reason(*month, x)?;
    *month = Month {
        last: x.at,
        ..month_by(*month, x.change)
    };
    Ok(None)
}
