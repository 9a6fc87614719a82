// What a trade and a pairing do to one side of a position, and what they ask of it.
ghost use Rattle.std.specs.Prelude.{◌≡◌, true, ◌*◌, ◌^◌, ◌≤◌};
ghost use Rattle.numbers.specs.Range.{In};
ghost use Rattle.validity.specs.Totals.{SideIn};

use book::positions::{Position, Side};
use requests::records::Mark;
use rules::units::{Fen, Lots, Price};
use validity::sides::held;

// Which side of a position.
#[derive(Clone, Copy, Debug, PartialEq, Eq)]
pub enum Way {
    Long,
    Short,
}

// Who in a trade.
#[derive(Clone, Copy, Debug, PartialEq, Eq)]
pub enum Party {
    Buyer,
    Seller,
}

impl Way {
    ghost use Rattle.posting.specs.Fills.{side_on, with_side};

    pub fn side(self, p: Position) -> Side
        ensures { result ≡ side_on self p }
    {
        match self {
            Way::Long => p.long,
            Way::Short => p.short,
        }
    }

    pub fn with(self, s: Side, p: Position) -> Position
        ensures { result ≡ with_side self s p }
    {
        match self {
            Way::Long => Position { long: s, ..p },
            Way::Short => Position { short: s, ..p },
        }
    }
}

impl Party {
    ghost use Rattle.posting.specs.Fills.{way_of, paid};

    pub fn way(self, mark: Mark) -> Way
        ensures { result ≡ way_of self mark }
    {
        match (self, mark) {
            (Party::Buyer, Mark::Opens) => Way::Long,
            (Party::Buyer, Mark::ClosesOld | Mark::ClosesNew) => Way::Short,
            (Party::Seller, Mark::Opens) => Way::Short,
            (Party::Seller, Mark::ClosesOld | Mark::ClosesNew) => Way::Long,
        }
    }

    // The highest price and the most lots of a record stay clauses: they are fields of several types, and a type of each would be no plainer.
    fn paid(self, price: Price, n: Lots, cash: Fen) -> Fen
        requires { In (2 * 10 ^ 15) cash.0 × (price.0 ≤ 10_000_000) × (n.0 ≤ 10_000) }
        ensures { result ≡ paid self price n cash }
    {
        let amount = i64::from(n.0) * i64::from(price.0);
        match self {
            Party::Buyer => Fen(cash.0 - amount),
            Party::Seller => Fen(cash.0 + amount),
        }
    }
}

/// Lots of a record, and the side of a position on which they fall.
#[derive(Clone, Copy)]
pub struct Fill {
    pub lots: Lots,
    pub side: Side,
    ghost few: { lots.0 ≤ 10_000 },
    ghost side_in: { SideIn side },
}

impl Fill {
    ghost use Rattle.posting.specs.Fills.{marked, paired_up, enough, roomy, free};

    pub fn marked(self, mark: Mark) -> Side
        requires { enough mark self.lots.0 self.side ≡ true }
        ensures { result ≡ marked mark self.lots.0 self.side }
    {
        let n = self.lots.0;
        let s = self.side;
        match mark {
            Mark::Opens => Side {
                new: Lots(s.new.0 + n),
                ..s
            },
            Mark::ClosesOld => Side {
                closed: Lots(s.closed.0 + n),
                ..s
            },
            Mark::ClosesNew => Side {
                new: Lots(s.new.0 - n),
                ..s
            },
        }
    }

    pub fn paired_up(self) -> Side
        ensures { result ≡ paired_up self.lots.0 self.side }
    {
        Side {
            paired: Lots(self.side.paired.0 + self.lots.0),
            ..self.side
        }
    }

    pub fn enough(self, mark: Mark) -> bool
        ensures { result ≡ enough mark self.lots.0 self.side }
    {
        let s = self.side;
        match mark {
            Mark::Opens => true,
            Mark::ClosesOld => (self.lots.0 <= s.opening.0 - s.closed.0) & self.free(),
            Mark::ClosesNew => (self.lots.0 <= s.new.0) & self.free(),
        }
    }

    pub fn roomy(self, mark: Mark) -> bool
        ensures { result ≡ roomy mark self.lots.0 self.side }
    {
        match mark {
            Mark::Opens => held(self.side).0 + self.lots.0 <= 100_000,
            Mark::ClosesOld | Mark::ClosesNew => true,
        }
    }

    pub fn free(self) -> bool
        ensures { result ≡ free self.lots.0 self.side }
    {
        self.side.paired.0 + self.lots.0 <= held(self.side).0
    }
}

ghost use Rattle.posting.specs.Fills.{way_of, side_on, dealt, enough};
ghost use Rattle.posting.specs.Ranges.{DealtIn};

pub fn dealt(party: Party, mark: Mark, price: Price, n: Lots, p: Position) -> Position
    requires { DealtIn p × (price.0 ≤ 10_000_000) × (n.0 ≤ 10_000) × (enough mark n.0 (side_on (way_of party mark) p) ≡ true) }
    ensures { result ≡ dealt party mark price n p }
{
    let way = party.way(mark);
    let fill = Fill {
        lots: n,
        side: way.side(p),
    };
    Position {
        cash: party.paid(price, n, p.cash),
        traded: Lots(p.traded.0 + n.0),
        ..way.with(fill.marked(mark), p)
    }
}
