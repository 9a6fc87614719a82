// An evening: a valid book's rows with prices that are right for them, and each member's night by both.
ghost use Rattle.std.specs.Prelude.{◌≡◌, ◌↔◌, ◌<◌, true, IsOk, IfOk, IfErr};
ghost use Rattle.rules.specs.declared.refusals.Refusal.TheVariants.{BadPrices};
ghost use Rattle.book.specs.Rows.{book_of};
ghost use Rattle.validity.specs.Totals.{Ranged};
ghost use Rattle.tonight.specs.Evening.{Priced};
ghost use Rattle.tonight.specs.Prices.{prices_ok};
ghost use Rattle.tonight.specs.Night.{tally_in, tally_to, night_of, reserves_ok};

use crate::nights::{Night, night_after};
use crate::prices::{prices_at, prices_ok};
use crate::tallies::{Tally, contract_tally};
use book::lent::Rows;
use rules::refusals::Refusal;
use validity::ranged::RangedRows;
use validity::rows::about_zero;

// The rows stand bare, not as `RangedRows`: the clauses here and in settlement say `evening.now.rows`, for one field more.
#[derive(Clone, Copy)]
pub struct Evening<'a> {
    pub rows: Rows<'a>,
    pub prices: &'a [u8],
    ghost ranged: { Ranged (book_of rows) },
    ghost priced: { Priced rows.head prices.now },
}

// A place in range stays a clause: it speaks of the place and the book.
impl<'a> Evening<'a> {
    ghost use Rattle.tonight.specs.GivenOf.{given_of};

    /// The evening of the book at the prices; refused where the prices are not right for it.
    pub fn priced(book: RangedRows<'a>, prices: &'a [u8]) -> Result<Evening<'a>, Refusal>
        ensures right { IsOk result ↔ (prices_ok (book_of book.entry.rows) prices.now ≡ true) }
        ensures refused { IfErr result (λ refusal. refusal ≡ BadPrices) }
        ensures same { IfOk result (λ evening. (evening.rows ≡ book.entry.rows) × (evening.prices.now ≡ prices.now)) }
    {
        if prices_ok(&book.rows, prices) {
            Ok(Evening {
                rows: book.rows,
                prices,
            })
        } else {
            Err(Refusal::BadPrices)
        }
    }

    // One member in one contract.
    fn tally_in(&self, m: usize, j: usize) -> Tally
        requires { (m < self.now.rows.head.members) × (j < self.now.rows.head.contracts) }
        ensures { result ≡ tally_in (book_of self.now.rows) (given_of self.now) m j }
    {
        let terms = self.rows.contract(j).terms;
        let p = self.rows.position(m, j);
        contract_tally(terms, p, prices_at(self.prices, terms.last, j))
    }

    /// One member over all contracts.
    pub fn tally(&self, m: usize) -> Tally
        requires { m < self.now.rows.head.members }
        ensures { result ≡ tally_to (book_of self.now.rows) (given_of self.now) m self.now.rows.head.contracts }
    {
        let mut t = Tally::default();
        for j in 0..self.rows.head.contracts {
            t = t.with(self.tally_in(m, j));
        }
        t
    }

    pub fn night(&self, m: usize) -> Night
        requires { m < self.now.rows.head.members }
        ensures { result ≡ night_of (book_of self.now.rows) (given_of self.now) m }
    {
        night_after(m, self.rows.member(m), self.tally(m))
    }

    /// Whether every member's reserve tonight is in its range.
    pub fn reserves_ok(&self) -> bool
        ensures { result ≡ reserves_ok (book_of self.now.rows) (given_of self.now) }
    {
        (0..self.rows.head.members).all(|m| about_zero(
            self.night(m).figures.reserve,
            1_000_000_000_000_000,
        ))
    }
}
