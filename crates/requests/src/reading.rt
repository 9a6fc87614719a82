// A record's bytes to what it asks for, or to nothing, where it is refused 1.
ghost use Rattle.std.specs.Prelude.{◌≡◌, length, ◌≤◌, cond, Some, None};
ghost use Rattle.folds.specs.Tests.{all_of};
ghost use Rattle.requests.specs.Records.{record_size, record_at, unmarked, trade_tests, pairing_tests, payment_tests, pledge_tests, read_trade, read_pairing, payment, read_deposit, read_withdrawal, read_pledge, read_kind, request_of};

use crate::records::{Kind, Mark, Marks, Pairing, Payment, Pledge, Record, Request, Trade};
use book::heads::Head;
use rules::units::{Fen, Lots, Price};

#[tactic(auto, unfolding(crate::specs::Records::record_at))]
fn record_at(r: &[u8]) -> Record
    requires { length r.now ≡ record_size }
    ensures { result ≡ record_at r.now }
{
    let blank = wire::read(r, 6);
    let a = wire::read(r, 8);
    let b = wire::read(r, 16);
    Record {
        kind: r[0],
        contract: usize::from(r[1]),
        first: usize::from(r[2]),
        second: usize::from(r[3]),
        marks: Marks {
            first: r[4],
            second: r[5],
        },
        blank,
        a,
        b,
    }
}

fn unmarked(q: Record) -> bool
    ensures { result ≡ unmarked q }
{
    (q.marks.first == 0) & (q.marks.second == 0)
}

// The tests of each kind, in the definition's order: what two kinds share stands in both, as there.
fn trade_fits(h: Head, q: Record) -> bool
    ensures { result ≡ all_of (trade_tests h q) }
{
    (q.contract < h.contracts)
        & (q.first < h.members)
        & (q.second < h.members)
        & (q.first != q.second)
        & ((1 <= q.a) & (q.a <= 10_000_000))
        & ((1 <= q.b) & (q.b <= 10_000))
        & (q.blank == 0)
}

fn pairing_fits(h: Head, q: Record) -> bool
    ensures { result ≡ all_of (pairing_tests h q) }
{
    (q.contract < h.contracts)
        & (q.first < h.members)
        & (q.second < h.members)
        & (q.first != q.second)
        & unmarked(q)
        & (q.a == 0)
        & ((1 <= q.b) & (q.b <= 10_000))
        & (q.blank == 0)
}

fn payment_fits(h: Head, q: Record) -> bool
    ensures { result ≡ all_of (payment_tests h q) }
{
    (q.contract == 0)
        & (q.first < h.members)
        & (q.second == 0)
        & unmarked(q)
        & ((1 <= q.a) & (q.a <= 1_000_000_000_000))
        & (q.b == 0)
        & (q.blank == 0)
}

fn pledge_fits(h: Head, q: Record) -> bool
    ensures { result ≡ all_of (pledge_tests h q) }
{
    (q.contract == 0)
        & (q.first < h.members)
        & (q.second == 0)
        & unmarked(q)
        & (q.a <= 1_000_000_000_000_000)
        & (q.b <= 8_000)
        & (q.blank == 0)
}

// Numbers are narrowed by `as` where the tests have shown their range: `TryFrom` would make an error that cannot come.
#[tactic(auto, unfolding(crate::specs::Records::read_trade))]
fn read_trade(h: Head, q: Record) -> Option<Request>
    ensures { result ≡ read_trade h q }
{
    if !trade_fits(h, q) {
        return None;
    }
    let buying = Mark::try_from(q.marks.first).ok()?;
    let selling = Mark::try_from(q.marks.second).ok()?;
    Some(Request::Trading(Trade {
        contract: q.contract,
        buyer: q.first,
        seller: q.second,
        buying,
        selling,
        price: Price(q.a as u32),
        lots: Lots(q.b as u32),
    }))
}

#[tactic(auto, unfolding(crate::specs::Records::read_pairing))]
fn read_pairing(h: Head, q: Record) -> Option<Request>
    ensures { result ≡ read_pairing h q }
{
    if !pairing_fits(h, q) {
        return None;
    }
    Some(Request::PairingUp(Pairing {
        contract: q.contract,
        buyer: q.first,
        seller: q.second,
        lots: Lots(q.b as u32),
    }))
}

// A deposit's or a withdrawal's.
fn read_payment(h: Head, q: Record) -> Option<Payment>
    ensures { result ≡ cond (all_of (payment_tests h q)) (Some (payment q)) None }
{
    if !payment_fits(h, q) {
        return None;
    }
    Some(Payment {
        member: q.first,
        amount: Fen(q.a as i64),
    })
}

#[tactic(auto, unfolding(crate::specs::Records::read_pledge))]
fn read_pledge(h: Head, q: Record) -> Option<Request>
    ensures { result ≡ read_pledge h q }
{
    if !pledge_fits(h, q) {
        return None;
    }
    Some(Request::Pledging(Pledge {
        member: q.first,
        market: Fen(q.a as i64),
        discount: q.b,
    }))
}

#[tactic(auto, unfolding(crate::specs::Records::read_kind, crate::specs::Records::read_deposit, crate::specs::Records::read_withdrawal))]
fn read_kind(h: Head, q: Record) -> Option<Request>
    ensures { result ≡ read_kind h q }
{
    match Kind::try_from(q.kind).ok()? {
        Kind::Trade => read_trade(h, q),
        Kind::Pairing => read_pairing(h, q),
        Kind::Deposit => read_payment(h, q).map(Request::Depositing),
        Kind::Withdrawal => read_payment(h, q).map(Request::Withdrawing),
        Kind::Pledge => read_pledge(h, q),
    }
}

#[tactic(auto, unfolding(crate::specs::Records::request_of))]
pub fn request_of(h: Head, r: &[u8]) -> Option<Request>
    ensures { result ≡ request_of h r.now }
{
    if r.len() != 24 {
        return None;
    }
    read_kind(h, record_at(r))
}
