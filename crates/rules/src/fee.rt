// The fee of one contract. Each member is charged for itself, and for both of its sides.
ghost use Rattle.std.specs.Prelude.{◌≡◌};
ghost use Rattle.rules.specs.Fee.{fee_of};
ghost use Rattle.rules.specs.Ranges.{FeeIn};

use crate::units::{Fen, Lots, Sides};

pub fn contract_fee(traded: Lots, paired: Sides, trade_fee: u32, delivery_fee: u32) -> Fen
    requires { FeeIn traded paired trade_fee delivery_fee }
    ensures { result ≡ fee_of traded paired trade_fee delivery_fee }
{
    let both = i64::from(paired.long.0) + i64::from(paired.short.0);
    Fen(i64::from(traded.0) * i64::from(trade_fee) + both * i64::from(delivery_fee))
}
