// Each contract, over all members: as many long as short, and cash sums that total zero.
ghost use Rattle.std.specs.Prelude.{◌≡◌, ◌<◌};
ghost use Rattle.folds.specs.Tests.{all_of};
ghost use Rattle.book.specs.Rows.{book_of};
ghost use Rattle.validity.specs.Valid.{balance_tests, balanced};
ghost use Rattle.validity.specs.Totals.{SideIn, PositionIn, SideFew, TotalsFew, add_side, add_row, totals_to};

use crate::ranged::RangedRows;
use crate::sides::held;
use book::positions::{Position, Side};

/// The lots of one contract on one side, over some members.
#[derive(Clone, Copy, Default, PartialEq)]
pub struct SideTotals {
    pub opening: u64,
    pub held: u64,
    pub paired: u64,
}

/// The lots on both sides, and the cash sums.
#[derive(Clone, Copy, Default)]
pub struct Totals {
    pub long: SideTotals,
    pub short: SideTotals,
    pub cash: i64,
}

impl SideTotals {
    fn with(self, s: Side) -> SideTotals
        requires { SideFew self × SideIn s }
        ensures { result ≡ add_side self s }
    {
        SideTotals {
            opening: self.opening + u64::from(s.opening.0),
            held: self.held + u64::from(held(s).0),
            paired: self.paired + u64::from(s.paired.0),
        }
    }
}

impl Totals {
    fn with(self, p: Position) -> Totals
        requires { TotalsFew self × PositionIn p }
        ensures { result ≡ add_row self p }
    {
        Totals {
            long: self.long.with(p.long),
            short: self.short.with(p.short),
            cash: self.cash + p.cash.0,
        }
    }
}

fn contract_totals(book: &RangedRows<'_>, j: usize) -> Totals
    requires { j < book.now.rows.head.contracts }
    ensures { result ≡ totals_to (book_of book.now.rows) j book.now.rows.head.members }
{
    let mut t = Totals::default();
    for m in 0..book.rows.head.members {
        t = t.with(book.rows.position(m, j));
    }
    t
}

fn contract_balanced(book: &RangedRows<'_>, j: usize) -> bool
    requires { j < book.now.rows.head.contracts }
    ensures { result ≡ all_of (balance_tests (book_of book.now.rows) j) }
{
    let t = contract_totals(book, j);
    (t.long == t.short) & (t.cash == 0)
}

pub fn balanced(book: &RangedRows<'_>) -> bool
    ensures { result ≡ balanced (book_of book.now.rows) }
{
    (0..book.rows.head.contracts).all(|j| contract_balanced(book, j))
}
