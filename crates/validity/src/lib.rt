// Whether bytes are a valid book. Each part of the check is the definition's part of the same name.
#![tactic(auto)]

pub mod balances;
pub mod heads;
pub mod ranged;
pub mod rows;
pub mod sides;
pub mod traded;

ghost use Rattle.std.specs.Prelude.{◌≡◌, ◌↔◌, true, IfSome, IsSome};
ghost use Rattle.book.specs.Heads.{head_at};
ghost use Rattle.validity.specs.Valid.{valid_book};

use ranged::RangedRows;

/// The rows of a valid book; none where the bytes are not one.
pub fn checked(s: &[u8]) -> Option<RangedRows<'_>>
    ensures valid { IsSome result ↔ (valid_book s.now ≡ true) }
    ensures rows { IfSome result (λ b. (b.rows.bytes.now ≡ s.now) × (b.rows.head ≡ head_at s.now)) }
{
    let rows = heads::rows_in(s)?;
    let ranged = ranged::in_range(rows)?;
    if balances::balanced(&ranged) {
        Some(ranged)
    } else {
        None
    }
}

pub fn valid(s: &[u8]) -> bool
    ensures { result ≡ valid_book s.now }
{
    checked(s).is_some()
}
