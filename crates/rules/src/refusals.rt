// Why a call is refused.
ghost use Rattle.rules.specs.Refusals.{refusal_number, answered};
ghost use Rattle.std.specs.Prelude.{◌≡◌};

/// The refusals of document 01, by its numbers. The order is that of the numbers.
#[derive(Clone, Copy, Debug, PartialEq, Eq, PartialOrd, Ord)]
pub enum Refusal {
    BadRecord = 1,
    ManyRecords = 2,
    BelowMinimum = 3,
    FewLots = 4,
    ManyLots = 5,
    AboveRoom = 6,
    FewUnpaired = 7,
    BadPrices = 8,
    ReserveBeyond = 9,
    BadBook = 10,
    ShortRoom = 11,
}

impl From<Refusal> for u8 {
    ghost use Rattle.std.specs.Prelude.{◌≡◌};
    ghost use Rattle.rules.specs.Refusals.{refusal_number};

    ghost from_gives = { λ refusal n. n ≡ refusal_number refusal };

    fn from(refusal: Refusal) -> u8 {
        refusal as u8
    }
}

/// What a call answers to others: 0, or the number of its refusal.
pub fn answer(outcome: Result<(), Refusal>) -> u8
    ensures { result ≡ answered outcome }
{
    match outcome {
        Ok(()) => 0,
        Err(refusal) => u8::from(refusal),
    }
}
