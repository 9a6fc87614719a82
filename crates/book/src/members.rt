// Section 2: a member's row, in parts, so that a longer row is one part more. Rows are read and written alike in all three sections, each by its own fields, in an array of its size where it lies: a settlement that writes rows apart and copies them takes about a third longer.
ghost use Rattle.std.specs.Prelude.{◌≡◌, ◌+◌, ◌≤◌, length};
ghost use Rattle.folds.specs.Rows.{put_fields};
ghost use Rattle.book.specs.Layout.{most_members, most_contracts, member_size, member_off};
ghost use Rattle.book.specs.Members.{kind_of, figures_at, securities_at, day_at, member_at, figures_fields, securities_fields, day_fields, put_member};

use crate::heads::Head;
use crate::layout;
use rules::members::MemberKind;
use rules::units::{Fen, Figures};

#[derive(Clone, Copy)]
pub struct Securities {
    pub market: Fen,
    pub discount: u64,
}

// What came and went today.
#[derive(Clone, Copy)]
pub struct Day {
    pub deposits: Fen,
    pub withdrawals: Fen,
}

#[derive(Clone, Copy)]
pub struct Member {
    pub kind: MemberKind,
    pub accepted: u32,
    pub figures: Figures,
    pub securities: Securities,
    pub day: Day,
}

#[tactic(auto, unfolding(crate::specs::Layout::member_off))]
pub fn member_off(h: Head, m: usize) -> usize
    requires { (h.contracts ≤ most_contracts) × (m ≤ most_members) }
    ensures { result ≡ member_off h m }
{
    h.members_start() + m * layout::MEMBER
}

// A number other than 1 and 2 is no kind, and the book that has one is not valid; the definition is total, and so is this.
fn kind_of(number: u32) -> MemberKind
    ensures { result ≡ kind_of number }
{
    MemberKind::try_from(number).unwrap_or(MemberKind::Other)
}

#[tactic(auto, unfolding(crate::specs::Members::figures_at))]
fn figures_in(row: &[u8; layout::MEMBER]) -> Figures
    ensures { result ≡ figures_at row.now 0 }
{
    Figures {
        reserve: Fen(wire::read(row, layout::RESERVE)),
        margin: Fen(wire::read(row, layout::MARGIN)),
        usable: Fen(wire::read(row, layout::USABLE)),
    }
}

#[tactic(auto, unfolding(crate::specs::Members::securities_at))]
fn securities_in(row: &[u8; layout::MEMBER]) -> Securities
    ensures { result ≡ securities_at row.now 0 }
{
    Securities {
        market: Fen(wire::read(row, layout::MARKET)),
        discount: wire::read(row, layout::DISCOUNT),
    }
}

#[tactic(auto, unfolding(crate::specs::Members::day_at))]
fn day_in(row: &[u8; layout::MEMBER]) -> Day
    ensures { result ≡ day_at row.now 0 }
{
    Day {
        deposits: Fen(wire::read(row, layout::DEPOSITS)),
        withdrawals: Fen(wire::read(row, layout::WITHDRAWALS)),
    }
}

#[tactic(auto, unfolding(crate::specs::Members::member_at))]
fn member_in(row: &[u8; layout::MEMBER]) -> Member
    ensures { result ≡ member_at row.now 0 }
{
    Member {
        kind: kind_of(wire::read(row, layout::KIND)),
        accepted: wire::read(row, layout::ACCEPTED),
        figures: figures_in(row),
        securities: securities_in(row),
        day: day_in(row),
    }
}

pub fn member_at(s: &[u8], off: usize) -> Member
    requires { off + member_size ≤ length s.now }
    ensures { result ≡ member_at s.now off }
{
    member_in(wire::bytes_at(s, off))
}

fn put_figures(row: &mut [u8; layout::MEMBER], f: Figures)
    ensures { row.new ≡ put_fields row.old 0 (figures_fields f) }
{
    wire::write(row, layout::RESERVE, f.reserve.0);
    wire::write(row, layout::MARGIN, f.margin.0);
    wire::write(row, layout::USABLE, f.usable.0);
}

fn put_securities(row: &mut [u8; layout::MEMBER], c: Securities)
    ensures { row.new ≡ put_fields row.old 0 (securities_fields c) }
{
    wire::write(row, layout::MARKET, c.market.0);
    wire::write(row, layout::DISCOUNT, c.discount);
}

fn put_day(row: &mut [u8; layout::MEMBER], d: Day)
    ensures { row.new ≡ put_fields row.old 0 (day_fields d) }
{
    wire::write(row, layout::DEPOSITS, d.deposits.0);
    wire::write(row, layout::WITHDRAWALS, d.withdrawals.0);
}

pub fn put_member(s: &mut [u8], off: usize, r: Member)
    requires { off + member_size ≤ length s.old }
    ensures { s.new ≡ put_member s.old off r }
{
    let (_, rest) = s.split_at_mut(off);
    let row: &mut [u8; layout::MEMBER] = rest.first_chunk_mut().unwrap();
    wire::write(row, layout::KIND, u32::from(r.kind));
    wire::write(row, layout::ACCEPTED, r.accepted);
    put_figures(row, r.figures);
    put_securities(row, r.securities);
    put_day(row, r.day);
}
