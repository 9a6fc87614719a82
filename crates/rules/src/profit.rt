// The profit or loss of one contract, from the sums that the book keeps of it.
ghost use Rattle.std.specs.Prelude.{◌≡◌};
ghost use Rattle.rules.specs.Profit.{net_of, profit_of};
ghost use Rattle.rules.specs.Ranges.{ProfitIn};

use crate::units::{Fen, Prices, Sides};

/// Long less short.
pub fn net(sides: Sides) -> i64
    ensures { result ≡ net_of sides }
{
    i64::from(sides.long.0) - i64::from(sides.short.0)
}

pub fn contract_profit(
    multiplier: u32,
    cash: Fen,
    held: Sides,
    opening: Sides,
    paired: Sides,
    prices: Prices,
) -> Fen
    requires { ProfitIn multiplier cash held opening paired prices }
    ensures { result ≡ profit_of multiplier cash held opening paired prices }
{
    let last = i64::from(prices.last.0);
    let tonight = i64::from(prices.tonight.0);
    let delivery = i64::from(prices.delivery.0);
    let marked = cash.0 + net(held) * tonight - net(opening) * last;
    Fen(i64::from(multiplier) * (marked + net(paired) * (delivery - tonight)))
}
