// The margin of one contract, by the lots to charge.
ghost use Rattle.std.specs.Prelude.{◌≡◌};
ghost use Rattle.rules.specs.Margin.{remaining_of, larger_side_of, margin_of};
ghost use Rattle.rules.specs.Ranges.{AtMost, MarginIn};

use crate::units::{Fen, Lots, Price, Sides};

pub fn remaining(held: Sides, paired: Sides) -> Sides
    requires { AtMost paired held }
    ensures { result ≡ remaining_of held paired }
{
    Sides {
        long: Lots(held.long.0 - paired.long.0),
        short: Lots(held.short.0 - paired.short.0),
    }
}

pub fn larger_side(sides: Sides) -> Lots
    ensures { result ≡ larger_side_of sides }
{
    Lots(sides.long.0.max(sides.short.0))
}

pub fn contract_margin(charged: Lots, price: Price, multiplier: u32, rate: u32) -> Fen
    requires { MarginIn charged price multiplier rate }
    ensures { result ≡ margin_of charged price multiplier rate }
{
    let value = i64::from(charged.0) * i64::from(price.0) * i64::from(multiplier);
    Fen((value * i64::from(rate) + 9_999) / 10_000)
}
