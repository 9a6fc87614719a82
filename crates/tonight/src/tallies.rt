// A member's profit or loss, fee and margin, in one contract and over several.
ghost use Rattle.std.specs.Prelude.{◌≡◌};
ghost use Rattle.tonight.specs.Night.{tally_by, add_tally};
ghost use Rattle.tonight.specs.Evening.{RowsIn, TallyFew};

use book::contracts::Terms;
use book::positions::Position;
use rules::units::{Fen, Prices};
use validity::sides::{held_sides, opening_sides, paired_sides};

/// Profit or loss, fee and margin: in one contract, or over several.
#[derive(Clone, Copy, Default)]
pub struct Tally {
    pub profit: Fen,
    pub fee: Fen,
    pub margin: Fen,
}

impl Tally {
    pub fn with(self, t: Tally) -> Tally
        requires { TallyFew 32 self × TallyFew 1 t }
        ensures { result ≡ add_tally self t }
    {
        Tally {
            profit: Fen(self.profit.0 + t.profit.0),
            fee: Fen(self.fee.0 + t.fee.0),
            margin: Fen(self.margin.0 + t.margin.0),
        }
    }
}

/// One member in one contract.
pub fn contract_tally(terms: Terms, p: Position, prices: Prices) -> Tally
    requires { RowsIn terms p prices }
    ensures { result ≡ tally_by terms p prices }
{
    let held = held_sides(p);
    let opening = opening_sides(p);
    let paired = paired_sides(p);
    let charged = rules::margin::larger_side(rules::margin::remaining(held, paired));
    Tally {
        profit: rules::profit::contract_profit(
            terms.multiplier,
            p.cash,
            held,
            opening,
            paired,
            prices,
        ),
        fee: rules::fee::contract_fee(p.traded, paired, terms.fee, terms.delivery),
        margin: rules::margin::contract_margin(
            charged,
            prices.tonight,
            terms.multiplier,
            terms.rate,
        ),
    }
}
