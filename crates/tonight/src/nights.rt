// A member's night: tonight's figures, and what follows from them.
ghost use Rattle.std.specs.Prelude.{◌≡◌};
ghost use Rattle.validity.specs.InRange.{MemberIn};
ghost use Rattle.tonight.specs.Night.{figures_after, night_after};
ghost use Rattle.tonight.specs.Evening.{TallyFew};

use crate::tallies::Tally;
use book::members::Member;
use rules::members::Standing;
use rules::units::{Fen, Figures, Movements};

/// What the sheet says of a member; margin, usable and reserve are its figures.
#[derive(Clone, Copy)]
pub struct Night {
    pub member: usize,
    pub profit: Fen,
    pub fee: Fen,
    pub figures: Figures,
    pub withdrawable: Fen,
    pub call: Fen,
    pub standing: Standing,
}

fn figures_after(r: Member, t: Tally) -> Figures
    requires { MemberIn r × TallyFew 32 t }
    ensures { result ≡ figures_after r t }
{
    let rate = r.securities.discount as u32;
    let discounted = rules::securities::discounted(r.securities.market, rate);
    let moved = Movements {
        profit: t.profit,
        deposits: r.day.deposits,
        withdrawals: r.day.withdrawals,
        fee: t.fee,
    };
    rules::night::figures_tonight(r.figures, moved, discounted, t.margin)
}

pub fn night_after(m: usize, r: Member, t: Tally) -> Night
    requires { MemberIn r × TallyFew 32 t }
    ensures { result ≡ night_after m r t }
{
    let figures = figures_after(r, t);
    Night {
        member: m,
        profit: t.profit,
        fee: t.fee,
        figures,
        withdrawable: rules::money::withdrawable(r.kind, figures),
        call: r.kind.call(figures.reserve),
        standing: r.kind.standing(figures.reserve),
    }
}
