// A position's lots by side: held, opening and paired.
ghost use Rattle.std.specs.Prelude.{◌≡◌};
ghost use Rattle.rules.specs.Units.{lots};
ghost use Rattle.book.specs.Positions.{held_of, opening_of, held_sides, paired_of};
ghost use Rattle.validity.specs.Totals.{SideIn, PositionIn};

use book::positions::{Position, Side};
use rules::units::{Lots, Sides};

pub fn held(s: Side) -> Lots
    requires { SideIn s }
    ensures { result ≡ lots (held_of s) }
{
    Lots(s.opening.0 - s.closed.0 + s.new.0)
}

// `held_sides`, `opening_sides` and `paired_sides` are alike but for what they take of a side; `held` asks `SideIn`, the others nothing, so that one over a closure would be no plainer.
pub fn held_sides(p: Position) -> Sides
    requires { PositionIn p }
    ensures { result ≡ held_sides p }
{
    Sides {
        long: held(p.long),
        short: held(p.short),
    }
}

pub fn opening_sides(p: Position) -> Sides
    ensures { result ≡ opening_of p }
{
    Sides {
        long: p.long.opening,
        short: p.short.opening,
    }
}

pub fn paired_sides(p: Position) -> Sides
    ensures { result ≡ paired_of p }
{
    Sides {
        long: p.long.paired,
        short: p.short.paired,
    }
}
