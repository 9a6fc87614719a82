// Tonight's money, reserve and figures.
ghost use Rattle.std.specs.Prelude.{◌≡◌};
ghost use Rattle.rules.specs.Night.{money_tonight_of, reserve_tonight_of, figures_tonight_of};
ghost use Rattle.rules.specs.Ranges.{MoneyTonightIn, ReserveTonightIn, FiguresTonightIn};

use crate::money::money;
use crate::securities::usable;
use crate::units::{Fen, Figures, Movements};

// The movements come apart: a struct would be taken apart in the clause, which names each of the four amounts.
pub fn money_tonight(money: Fen, profit: Fen, deposits: Fen, withdrawals: Fen, fee: Fen) -> Fen
    requires { MoneyTonightIn money profit deposits withdrawals fee }
    ensures { result ≡ money_tonight_of money profit deposits withdrawals fee }
{
    Fen(money.0 + profit.0 + deposits.0 - withdrawals.0 - fee.0)
}

pub fn reserve_tonight(money: Fen, usable: Fen, margin: Fen) -> Fen
    requires { ReserveTonightIn money usable margin }
    ensures { result ≡ reserve_tonight_of money usable margin }
{
    Fen(money.0 + usable.0 - margin.0)
}

pub fn figures_tonight(
    morning: Figures,
    movements: Movements,
    discounted: Fen,
    margin: Fen,
) -> Figures
    requires { FiguresTonightIn morning movements discounted margin }
    ensures { result ≡ figures_tonight_of morning movements discounted margin }
{
    let before = money(morning);
    let have = money_tonight(
        before,
        movements.profit,
        movements.deposits,
        movements.withdrawals,
        movements.fee,
    );
    let usable = usable(discounted, have);
    let reserve = reserve_tonight(have, usable, margin);
    Figures {
        reserve,
        margin,
        usable,
    }
}
