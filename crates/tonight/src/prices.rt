// The evening's prices: k pairs of u32, settlement price then delivery price.
ghost use Rattle.std.specs.Prelude.{◌≡◌, ◌+◌, ◌*◌, ◌≤◌, ◌<◌, length};
ghost use Rattle.folds.specs.Tests.{all_of};
ghost use Rattle.book.specs.Rows.{book_of};
ghost use Rattle.tonight.specs.Prices.{pair_size, prices_by, unpaired, none_paired, pair_tests, pair_ok, prices_ok};

use book::lent::Rows;
use book::positions::Position;
use rules::units::{Price, Prices};

pub const PAIR: usize = 8;

const DELIVERY: usize = 4;

/// The prices of contract j, with its last settlement price.
pub fn prices_at(prices: &[u8], last: Price, j: usize) -> Prices
    requires { (j ≤ 32) × (j * pair_size + pair_size ≤ length prices.now) }
    ensures { result ≡ prices_by last prices.now j }
{
    Prices {
        last,
        tonight: Price(wire::read(prices, j * PAIR)),
        delivery: Price(wire::read(prices, j * PAIR + DELIVERY)),
    }
}

fn unpaired(p: Position) -> bool
    ensures { result ≡ unpaired p }
{
    p.long.paired.0 == 0 && p.short.paired.0 == 0
}

fn none_paired(rows: &Rows<'_>, j: usize) -> bool
    requires { j < rows.now.head.contracts }
    ensures { result ≡ none_paired (book_of rows.now) j }
{
    (0..rows.head.members).all(|m| unpaired(rows.position(m, j)))
}

// Ranges are two comparisons, as the definition's `between` is.
fn in_range(prices: Prices, none_paired: bool) -> bool
    ensures { result ≡ all_of (pair_tests prices.tonight prices.delivery none_paired) }
{
    1 <= prices.tonight.0
        && prices.tonight.0 <= 10_000_000
        && prices.delivery.0 <= 10_000_000
        && (1 <= prices.delivery.0 || none_paired)
}

fn pair_ok(rows: &Rows<'_>, prices: &[u8], j: usize) -> bool
    requires { (j < rows.now.head.contracts) × (j * pair_size + pair_size ≤ length prices.now) }
    ensures { result ≡ pair_ok (book_of rows.now) prices.now j }
{
    in_range(prices_at(prices, Price(0), j), none_paired(rows, j))
}

pub fn prices_ok(rows: &Rows<'_>, prices: &[u8]) -> bool
    ensures { result ≡ prices_ok (book_of rows.now) prices.now }
{
    let k = rows.head.contracts;
    prices.len() == k * PAIR && (0..k).all(|j| pair_ok(rows, prices, j))
}
