// The units of the market. Quantity, money and time are types of their own, so that none can be added to another.
// What those three share is the trait `Unit`: an add that answers every pair, and an order.
#![tactic(auto)]

mod unit; // unit.rt: what holds of every unit
mod quantity; // quantity.rt: thousandths of a MW as a unit, and how far one is above another
mod money; // money.rt: cents as a unit
mod time; // time.rt: minutes as a unit

pub use unit::Unit;

// A quantity, in thousandths of a MW.
#[derive(Clone, Copy, PartialEq, Eq, PartialOrd, Ord)]
pub struct Thousandths(pub u32);

// A difference of quantities, in thousandths of a MW: received less made.
#[derive(Clone, Copy, PartialEq, Eq, PartialOrd, Ord)]
pub struct Net(pub i64);

// Money, in whole cents.
#[derive(Clone, Copy, PartialEq, Eq, PartialOrd, Ord)]
pub struct Cents(pub i64);

// Time, in minutes from 8:00 on the month's first day.
#[derive(Clone, Copy, PartialEq, Eq, PartialOrd, Ord)]
pub struct Minutes(pub i32);

// A time as the eight bytes of an amount can hold it: a window's end before its range is tested.
#[derive(Clone, Copy, PartialEq, Eq, PartialOrd, Ord)]
pub struct LongMinutes(pub i64);
