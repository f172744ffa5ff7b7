// The totals of one participant.
use units::Thousandths;

// What a participant has pending, made and received in all.
#[derive(Clone, Copy, PartialEq, Eq)]
pub struct Totals {
    pub pending: Thousandths,
    pub made: Thousandths,
    pub received: Thousandths,
}

// Nothing at all.
pub const NO_TOTALS: Totals = Totals {
    pending: Thousandths(0),
    made: Thousandths(0),
    received: Thousandths(0),
};
