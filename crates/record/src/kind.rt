// The kinds of step, and their numbers in byte 0.
ghost use Rattle.std.specs.Prelude.{◌≡◌};
ghost use Rattle.std.specs.Result.{result_ok};
ghost use Rattle.record.specs.Kinds.{kind_of, kind_number};

// A kind of step: document 01's table of kinds, in its order and with its numbers.
#[derive(Clone, Copy, PartialEq, Eq)]
pub enum Kind {
    Open = 1,
    Window = 2,
    Register = 3,
    Requirement = 4,
    Margin = 5,
    Create = 6,
    Terminate = 7,
    Submit = 8,
    Withdraw = 9,
    Accept = 10,
    AskReversal = 11,
    AgreeReversal = 12,
    GeneratorAmends = 13,
    OperatorAmends = 14,
}

// A number that no kind has.
#[derive(Clone, Copy)]
pub struct UnknownKind;

impl TryFrom<u8> for Kind {
    type Error = UnknownKind;

    ghost try_from_gives = { λ n r. result_ok r ≡ kind_of n };

    fn try_from(number: u8) -> Result<Kind, UnknownKind> {
        match number {
            1 => Ok(Kind::Open),
            2 => Ok(Kind::Window),
            3 => Ok(Kind::Register),
            4 => Ok(Kind::Requirement),
            5 => Ok(Kind::Margin),
            6 => Ok(Kind::Create),
            7 => Ok(Kind::Terminate),
            8 => Ok(Kind::Submit),
            9 => Ok(Kind::Withdraw),
            10 => Ok(Kind::Accept),
            11 => Ok(Kind::AskReversal),
            12 => Ok(Kind::AgreeReversal),
            13 => Ok(Kind::GeneratorAmends),
            14 => Ok(Kind::OperatorAmends),
            _ => Err(UnknownKind),
        }
    }
}

impl From<Kind> for u8 {
    ghost from_gives = { λ kind n. n ≡ kind_number kind };

    fn from(kind: Kind) -> u8 {
        kind as u8
    }
}
