// Section 1: a contract's row.
ghost use Rattle.std.specs.Prelude.{◌≡◌, ◌+◌, ◌≤◌, ◌<◌, length};
ghost use Rattle.book.specs.Layout.{most_contracts, contract_size, contract_off};
ghost use Rattle.book.specs.ContractRows.{terms_at, contract_at, put_contract};

use crate::layout;
use rules::units::Price;

/// What a posting may see of a contract. No record changes it.
#[derive(Clone, Copy)]
pub struct Terms {
    pub last: Price,
    pub multiplier: u32,
    pub rate: u32,
    pub fee: u32,
    pub delivery: u32,
}

#[derive(Clone, Copy)]
pub struct Contract {
    pub terms: Terms,
    pub zero: u32,
}

#[tactic(auto, unfolding(crate::specs::Layout::contract_off))]
pub fn contract_off(j: usize) -> usize
    requires { j ≤ most_contracts }
    ensures { result ≡ contract_off j }
{
    layout::HEAD + j * layout::CONTRACT
}

#[tactic(auto, unfolding(crate::specs::ContractRows::terms_at))]
fn terms_in(row: &[u8; layout::CONTRACT]) -> Terms
    ensures { result ≡ terms_at row.now 0 }
{
    Terms {
        last: Price(wire::read(row, layout::LAST)),
        multiplier: wire::read(row, layout::MULTIPLIER),
        rate: wire::read(row, layout::RATE),
        fee: wire::read(row, layout::FEE),
        delivery: wire::read(row, layout::DELIVERY),
    }
}

#[tactic(auto, unfolding(crate::specs::ContractRows::contract_at))]
fn contract_in(row: &[u8; layout::CONTRACT]) -> Contract
    ensures { result ≡ contract_at row.now 0 }
{
    Contract {
        terms: terms_in(row),
        zero: wire::read(row, layout::CONTRACT_ZERO),
    }
}

pub fn contract_at(s: &[u8], off: usize) -> Contract
    requires { off + contract_size ≤ length s.now }
    ensures { result ≡ contract_at s.now off }
{
    contract_in(wire::bytes_at(s, off))
}

pub fn put_contract(s: &mut [u8], off: usize, c: Contract)
    requires { off + contract_size ≤ length s.old }
    ensures { s.new ≡ put_contract s.old off c }
{
    let terms = c.terms;
    let (_, rest) = s.split_at_mut(off);
    let row: &mut [u8; layout::CONTRACT] = rest.first_chunk_mut().unwrap();
    wire::write(row, layout::LAST, terms.last.0);
    wire::write(row, layout::MULTIPLIER, terms.multiplier);
    wire::write(row, layout::RATE, terms.rate);
    wire::write(row, layout::FEE, terms.fee);
    wire::write(row, layout::DELIVERY, terms.delivery);
    wire::write(row, layout::CONTRACT_ZERO, c.zero);
}
