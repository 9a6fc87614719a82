// What a member's securities count for.
ghost use Rattle.std.specs.Prelude.{◌≡◌, ◌^◌};
ghost use Rattle.numbers.specs.Range.{In};
ghost use Rattle.rules.specs.Ranges.{SecuritiesIn};
ghost use Rattle.rules.specs.Securities.{discounted_of, usable_of};

use crate::units::Fen;

pub fn discounted(market: Fen, discount: u32) -> Fen
    requires { SecuritiesIn market discount }
    ensures { result ≡ discounted_of market discount }
{
    Fen(market.0 * i64::from(discount) / 10_000)
}

pub fn usable(discounted: Fen, money: Fen) -> Fen
    requires { In (10 ^ 15) discounted.0 }
    ensures { result ≡ usable_of discounted money }
{
    let have = money.0;
    if have < 0 {
        return Fen(0);
    }
    // With so much money the discounted amount is the smaller, and 4 times the money need not fit.
    if 1_000_000_000_000_000 <= have {
        return discounted;
    }
    Fen(discounted.0.min(4 * have))
}
