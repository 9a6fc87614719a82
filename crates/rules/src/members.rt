// What a member's kind asks of its reserve.
ghost use Rattle.std.specs.Prelude.{◌≡◌};
ghost use Rattle.numbers.specs.Range.{In};
ghost use Rattle.rules.specs.Members.{minimum_of, standing_of, call_of};
ghost use Rattle.rules.specs.Ranges.{reserve_most};

use crate::units::Fen;

/// What kind of member it is, by its number in the book.
#[derive(Clone, Copy, Debug, PartialEq, Eq)]
pub enum MemberKind {
    Broker = 1,
    Other = 2,
}

/// What a member's reserve lets it do, by the number that the sheet gives.
#[derive(Clone, Copy, Debug, PartialEq, Eq)]
pub enum Standing {
    MayOpen = 0,
    NoOpening = 1,
    Liquidation = 2,
}

impl MemberKind {
    pub const BROKER_MINIMUM: Fen = Fen(200_000_000);

    pub const OTHER_MINIMUM: Fen = Fen(50_000_000);

    pub fn minimum(self) -> Fen
        ensures { result ≡ minimum_of self }
    {
        match self {
            MemberKind::Broker => Self::BROKER_MINIMUM,
            MemberKind::Other => Self::OTHER_MINIMUM,
        }
    }

    pub fn standing(self, reserve: Fen) -> Standing
        ensures { result ≡ standing_of self reserve }
    {
        if self.minimum().0 <= reserve.0 {
            Standing::MayOpen
        } else if 0 <= reserve.0 {
            Standing::NoOpening
        } else {
            Standing::Liquidation
        }
    }

    pub fn call(self, reserve: Fen) -> Fen
        requires { In reserve_most reserve.0 }
        ensures { result ≡ call_of self reserve }
    {
        Fen((self.minimum().0 - reserve.0).max(0))
    }
}

/// A number that is no kind of member.
#[derive(Clone, Copy, Debug, PartialEq, Eq)]
pub struct UnknownKind(pub u32);

impl TryFrom<u32> for MemberKind {
    type Error = UnknownKind;

    ghost use Rattle.rules.specs.Members.{KindOf};

    ghost try_from_gives = { KindOf };

    fn try_from(number: u32) -> Result<Self, UnknownKind> {
        match number {
            1 => Ok(MemberKind::Broker),
            2 => Ok(MemberKind::Other),
            _ => Err(UnknownKind(number)),
        }
    }
}

impl From<MemberKind> for u32 {
    ghost use Rattle.std.specs.Prelude.{◌≡◌};
    ghost use Rattle.rules.specs.Members.{kind_number};

    ghost from_gives = { λ kind n. n ≡ kind_number kind };

    fn from(kind: MemberKind) -> u32 {
        kind as u32
    }
}

impl From<Standing> for u32 {
    ghost use Rattle.std.specs.Prelude.{◌≡◌};
    ghost use Rattle.rules.specs.Members.{number_of};

    ghost from_gives = { λ standing n. n ≡ number_of standing };

    fn from(standing: Standing) -> u32 {
        standing as u32
    }
}
