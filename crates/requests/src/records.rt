// A day record: its fields as they stand, and what it asks for.
use rules::units::{Fen, Lots, Price};

// The two marks of a record, as they stand: the definition `record_at` is of the bytes, and `Mark` is what reads them.
#[derive(Clone, Copy)]
pub struct Marks {
    pub first: u8,
    pub second: u8,
}

// The fields of 24 bytes, whatever they say, as the definition `record_at` has them; `Kind` is what reads the kind.
#[derive(Clone, Copy)]
pub struct Record {
    pub kind: u8,
    pub contract: usize,
    pub first: usize,
    pub second: usize,
    pub marks: Marks,
    pub blank: u16,
    pub a: u64,
    pub b: u64,
}

#[derive(Clone, Copy, Debug, PartialEq, Eq)]
pub enum Kind {
    Trade,
    Pairing,
    Deposit,
    Withdrawal,
    Pledge,
}

/// A number that is no kind of record.
#[derive(Clone, Copy, Debug, PartialEq, Eq)]
pub struct UnknownKind(pub u8);

impl TryFrom<u8> for Kind {
    type Error = UnknownKind;

    ghost use Rattle.requests.specs.Kinds.{KindOf};

    ghost try_from_gives = { KindOf };

    fn try_from(number: u8) -> Result<Self, UnknownKind> {
        match number {
            1 => Ok(Kind::Trade),
            2 => Ok(Kind::Pairing),
            3 => Ok(Kind::Deposit),
            4 => Ok(Kind::Withdrawal),
            5 => Ok(Kind::Pledge),
            0 | 6..=255 => Err(UnknownKind(number)),
        }
    }
}

#[derive(Clone, Copy, Debug, PartialEq, Eq)]
pub enum Mark {
    Opens,
    ClosesOld,
    ClosesNew,
}

/// A number that is no mark.
#[derive(Clone, Copy, Debug, PartialEq, Eq)]
pub struct UnknownMark(pub u8);

impl TryFrom<u8> for Mark {
    type Error = UnknownMark;

    ghost use Rattle.requests.specs.Records.{MarkOf};

    ghost try_from_gives = { MarkOf };

    fn try_from(number: u8) -> Result<Self, UnknownMark> {
        match number {
            0 => Ok(Mark::Opens),
            1 => Ok(Mark::ClosesOld),
            2 => Ok(Mark::ClosesNew),
            3..=255 => Err(UnknownMark(number)),
        }
    }
}

#[derive(Clone, Copy)]
pub struct Trade {
    pub contract: usize,
    pub buyer: usize,
    pub seller: usize,
    pub buying: Mark,
    pub selling: Mark,
    pub price: Price,
    pub lots: Lots,
}

#[derive(Clone, Copy)]
pub struct Pairing {
    pub contract: usize,
    pub buyer: usize,
    pub seller: usize,
    pub lots: Lots,
}

// A deposit or a withdrawal.
#[derive(Clone, Copy)]
pub struct Payment {
    pub member: usize,
    pub amount: Fen,
}

#[derive(Clone, Copy)]
pub struct Pledge {
    pub member: usize,
    pub market: Fen,
    pub discount: u64,
}

// What a record asks for.
#[derive(Clone, Copy)]
pub enum Request {
    Trading(Trade),
    PairingUp(Pairing),
    Depositing(Payment),
    Withdrawing(Payment),
    Pledging(Pledge),
}
