// Every field of every row in its range.
ghost use Rattle.std.specs.Prelude.{◌≡◌, ◌<◌};
ghost use Rattle.folds.specs.Tests.{all_of, between};
ghost use Rattle.book.specs.Rows.{book_of};
ghost use Rattle.validity.specs.Valid.{up_to, about_zero, contract_tests, member_tests, side_tests, position_tests, contract_rows, member_row, member_rows, position_row, position_rows, rows_ok};

use book::contracts::Contract;
use book::lent::Rows;
use book::members::Member;
use book::positions::{Position, Side};
use rules::members::MemberKind;
use rules::units::Fen;

// least..most.
fn between(number: u32, least: u32, most: u32) -> bool
    ensures { result ≡ between least most number }
{
    (least..=most).contains(&number)
}

fn contract_ok(c: Contract) -> bool
    ensures { result ≡ all_of (contract_tests c) }
{
    between(c.terms.last.0, 1, 10_000_000)
        & between(c.terms.multiplier, 1, 100)
        & between(c.terms.rate, 1, 10_000)
        & (c.terms.fee <= 100_000)
        & (c.terms.delivery <= 100_000)
        & (c.zero == 0)
}

// 0..most.
fn up_to(amount: Fen, most: u64) -> bool
    ensures { result ≡ up_to most amount }
{
    (0 <= amount.0) & about_zero(amount, most)
}

/// −most..most.
pub fn about_zero(amount: Fen, most: u64) -> bool
    ensures { result ≡ about_zero most amount }
{
    amount.0.unsigned_abs() <= most
}

fn member_ok(r: Member) -> bool
    ensures { result ≡ all_of (member_tests r) }
{
    if 20_000 < r.accepted {
        return false;
    }
    let most = 1_000_000_000_000 * u64::from(r.accepted);
    about_zero(r.figures.reserve, 1_000_000_000_000_000)
        & up_to(r.figures.margin, 10_000_000_000_000_000)
        & up_to(r.figures.usable, 1_000_000_000_000_000)
        & up_to(r.securities.market, 1_000_000_000_000_000)
        & (r.securities.discount <= 8_000)
        & up_to(r.day.deposits, most)
        & up_to(r.day.withdrawals, most)
}

fn side_ok(s: Side) -> bool
    ensures { result ≡ all_of (side_tests s) }
{
    let opening = s.opening.0;
    let closed = s.closed.0;
    if opening < closed {
        return false;
    }
    let held = u64::from(opening - closed) + u64::from(s.new.0);
    (opening <= 100_000) & (held <= 100_000) & (u64::from(s.paired.0) <= held)
}

fn position_ok(p: Position) -> bool
    ensures { result ≡ all_of (position_tests p) }
{
    let most = 10_000_000 * u64::from(p.traded.0);
    side_ok(p.long) & side_ok(p.short) & about_zero(p.cash, most) & (p.zero == 0)
}

fn contract_rows(rows: &Rows<'_>) -> bool
    ensures { result ≡ contract_rows (book_of rows.now) }
{
    (0..rows.head.contracts).all(|j| contract_ok(rows.contract(j)))
}

// A place in range stays a clause: it speaks of the place and the book, and a type of places would have to hold the book.
fn member_row(rows: &Rows<'_>, m: usize) -> bool
    requires { m < rows.now.head.members }
    ensures { result ≡ member_row (book_of rows.now) m }
{
    let kind = MemberKind::try_from(rows.kind_number(m));
    kind.is_ok() & member_ok(rows.member(m))
}

fn member_rows(rows: &Rows<'_>) -> bool
    ensures { result ≡ member_rows (book_of rows.now) }
{
    (0..rows.head.members).all(|m| member_row(rows, m))
}

fn position_row(rows: &Rows<'_>, m: usize) -> bool
    requires { m < rows.now.head.members }
    ensures { result ≡ position_row (book_of rows.now) m }
{
    (0..rows.head.contracts).all(|j| position_ok(rows.position(m, j)))
}

fn position_rows(rows: &Rows<'_>) -> bool
    ensures { result ≡ position_rows (book_of rows.now) }
{
    (0..rows.head.members).all(|m| position_row(rows, m))
}

pub fn rows_ok(rows: &Rows<'_>) -> bool
    ensures { result ≡ rows_ok (book_of rows.now) }
{
    contract_rows(rows) & member_rows(rows) & position_rows(rows)
}
