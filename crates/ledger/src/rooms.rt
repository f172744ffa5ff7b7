// A step in its room.
ghost use Rattle.std.specs.Prelude.{◌<◌, IfOk, IfSome};
ghost use Rattle.sound.specs.Check.{book_from};
ghost use Rattle.ledger.specs.Ready.{Ready};
ghost use Rattle.ledger.specs.Writing.{stepped};
ghost use Rattle.ledger.specs.Rooms.{DoesStep};

use crate::accounts::account_room;
use crate::credited::levels_room;
use crate::cutting::cut_room;
use crate::months::month_room;
use crate::trading::allocation_room;
use book::{Account, Allocation, Month};
use gate::{Room, room_of};
use reasons::Reason;
use record::Step;
use sound::Totals;

// What a record asks, on a book that may be used, beside the totals of its ledger; the number that
// it gives. A match: each room is lent other parts, and none can be left out.
pub fn do_step(
    month: &mut Month,
    accounts: &mut [Account],
    levels: &mut [u32],
    ledger: &mut [Allocation],
    totals: &mut [Totals],
    said: Option<Step>,
) -> Result<Option<u16>, Reason>
    requires { Ready (book_from month.old accounts.old levels.old ledger.old) totals.old }
    ensures does { DoesStep (book_from month.old accounts.old levels.old ledger.old) said (stepped month.new result) accounts.new levels.new ledger.new totals.new }
    ensures numbered { IfOk result (λ given. IfSome given (λ n. 0 < n)) }
{
    match room_of(said) {
        Room::Month(x) => month_room(month, x),
        Room::Account(x) => account_room(month, accounts, totals, x),
        Room::Levels(x) => levels_room(month, accounts, levels, x),
        Room::Allocation(x) => allocation_room(month, accounts, levels, ledger, totals, x),
        Room::Cut(x) => cut_room(month, accounts, levels, ledger, totals, x),
        Room::Nowhere => Err(Reason::Unusable),
    }
}
