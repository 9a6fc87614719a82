// Whether the fields and the traded lots of a book's rows are in their ranges.
ghost use Rattle.std.specs.Prelude.{◌≡◌, ◌↔◌, IfSome, IsSome};
ghost use Rattle.book.specs.Rows.{book_of};
ghost use Rattle.validity.specs.Totals.{Ranged};

use crate::{rows, traded};
use book::lent::Rows;

/// Rows whose fields, and whose traded lots, are in their ranges.
#[derive(Clone, Copy)]
pub struct RangedRows<'a> {
    pub rows: Rows<'a>,
    ghost ranged: { Ranged (book_of rows) },
}

pub fn in_range(rows: Rows<'_>) -> Option<RangedRows<'_>>
    ensures ranged { IsSome result ↔ Ranged (book_of rows.entry) }
    ensures same { IfSome result (λ b. b.rows ≡ rows.entry) }
{
    if rows::rows_ok(&rows) && traded::traded_ok(&rows) {
        Some(RangedRows { rows })
    } else {
        None
    }
}
