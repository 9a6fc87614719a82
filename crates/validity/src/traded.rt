// A member's traded lots, over all contracts, against its accepted records.
ghost use Rattle.std.specs.Prelude.{◌≡◌, ◌<◌};
ghost use Rattle.book.specs.Rows.{book_of};
ghost use Rattle.validity.specs.Valid.{traded_of, traded_ok};

use book::lent::Rows;

// A place in range stays a clause, as in rows.rt.
fn traded_lots(rows: &Rows<'_>, m: usize) -> u64
    requires { m < rows.now.head.members }
    ensures { result ≡ traded_of (book_of rows.now) m }
{
    let mut sum = 0;
    for j in 0..rows.head.contracts {
        sum += u64::from(rows.position(m, j).traded.0);
    }
    sum
}

pub fn traded_ok(rows: &Rows<'_>) -> bool
    ensures { result ≡ traded_ok (book_of rows.now) }
{
    (0..rows.head.members).all(|m| traded_lots(rows, m)
        <= 10_000 * u64::from(rows.member(m).accepted))
}
