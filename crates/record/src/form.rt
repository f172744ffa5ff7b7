// The fields of a record, read from its bytes and written again.
ghost use Rattle.std.specs.Prelude.{◌≡◌};
ghost use Rattle.record.specs.Form.{fields_of, layout};

use units::{Cents, LongMinutes, Minutes, Thousandths};

// The eight bytes of an amount, before the step's kind says whether they are money or a time.
#[derive(Clone, Copy, PartialEq, Eq)]
pub struct Amount(pub i64);

impl From<Cents> for Amount {
    ghost from_gives = { λ money amount. amount ≡ record { 0 = money.0 } };

    fn from(money: Cents) -> Amount {
        Amount(money.0)
    }
}

impl From<LongMinutes> for Amount {
    ghost from_gives = { λ time amount. amount ≡ record { 0 = time.0 } };

    fn from(time: LongMinutes) -> Amount {
        Amount(time.0)
    }
}

impl From<Amount> for Cents {
    ghost from_gives = { λ amount money. money ≡ record { 0 = amount.0 } };

    fn from(amount: Amount) -> Cents {
        Cents(amount.0)
    }
}

impl From<Amount> for LongMinutes {
    ghost from_gives = { λ amount time. time ≡ record { 0 = amount.0 } };

    fn from(amount: Amount) -> LongMinutes {
        LongMinutes(amount.0)
    }
}

// The fields of a record, in the order of its bytes. The kind is a number: byte 0 may hold one that no
// kind has.
#[derive(Clone, Copy, PartialEq, Eq)]
pub struct Fields {
    pub kind: u8,
    pub a: u8,
    pub b: u8,
    pub selector: u8,
    pub minute: Minutes,
    pub number: u16,
    pub day: u8,
    pub eleven: u8,
    pub quantity: Thousandths,
    pub amount: Amount,
}

// The fields of 24 bytes.
impl From<&[u8; 24]> for Fields {
    ghost from_gives = { λ s f. f ≡ fields_of s.now };

    fn from(s: &[u8; 24]) -> Fields {
        Fields {
            kind: s[0],
            a: s[1],
            b: s[2],
            selector: s[3],
            minute: Minutes(i32::from_be_bytes([s[4], s[5], s[6], s[7]])),
            number: u16::from_be_bytes([s[8], s[9]]),
            day: s[10],
            eleven: s[11],
            quantity: Thousandths(u32::from_be_bytes([s[12], s[13], s[14], s[15]])),
            amount: Amount(i64::from_be_bytes([
                s[16], s[17], s[18], s[19], s[20], s[21], s[22], s[23],
            ])),
        }
    }
}

// The 24 bytes of the fields.
impl From<Fields> for [u8; 24] {
    ghost from_gives = { λ f s. s ≡ layout f };

    fn from(f: Fields) -> [u8; 24] {
        let [m0, m1, m2, m3] = f.minute.0.to_be_bytes();
        let [n0, n1] = f.number.to_be_bytes();
        let [q0, q1, q2, q3] = f.quantity.0.to_be_bytes();
        let [a0, a1, a2, a3, a4, a5, a6, a7] = f.amount.0.to_be_bytes();
        [
            f.kind, f.a, f.b, f.selector, m0, m1, m2, m3, n0, n1, f.day, f.eleven, q0, q1, q2, q3,
            a0, a1, a2, a3, a4, a5, a6, a7,
        ]
    }
}
