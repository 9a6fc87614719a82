// A member's money, and what of it may go out.
ghost use Rattle.std.specs.Prelude.{◌≡◌};
ghost use Rattle.rules.specs.Money.{money_of, room_of, room_left_of, withdrawable_of};
ghost use Rattle.rules.specs.Ranges.{FiguresIn, RoomLeftIn};

use crate::members::MemberKind;
use crate::units::{Fen, Figures};

// The figures' range stays a clause. A second type of figures, as RangedRows is of Rows, would be no plainer: figures are a field of a member's row, read before it is checked.
pub fn money(figures: Figures) -> Fen
    requires { FiguresIn figures }
    ensures { result ≡ money_of figures }
{
    Fen(figures.reserve.0 + figures.margin.0 - figures.usable.0)
}

pub fn room(kind: MemberKind, figures: Figures) -> Fen
    requires { FiguresIn figures }
    ensures { result ≡ room_of kind figures }
{
    let margin = figures.margin.0;
    let usable = figures.usable.0;
    let kept = (margin - usable).max((usable + 3) / 4);
    Fen(money(figures).0 - kept - kind.minimum().0)
}

pub fn room_left(kind: MemberKind, figures: Figures, deposits: Fen, withdrawals: Fen) -> Fen
    requires { RoomLeftIn figures deposits withdrawals }
    ensures { result ≡ room_left_of kind figures deposits withdrawals }
{
    Fen(room(kind, figures).0 + deposits.0 - withdrawals.0)
}

pub fn withdrawable(kind: MemberKind, figures: Figures) -> Fen
    requires { FiguresIn figures }
    ensures { result ≡ withdrawable_of kind figures }
{
    Fen(room(kind, figures).0.max(0))
}
