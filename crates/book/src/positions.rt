// Section 3: a member's row in one contract.
ghost use Rattle.std.specs.Prelude.{◌≡◌, ◌+◌, ◌≤◌, length};
ghost use Rattle.folds.specs.Rows.{put_fields};
ghost use Rattle.book.specs.Layout.{most_members, most_contracts, position_size, short_at, position_off};
ghost use Rattle.book.specs.Positions.{side_at, position_at, lots_fields, dealt_fields, put_position};

use crate::heads::Head;
use crate::layout;
use rules::units::{Fen, Lots};

// The counts of one side, long or short.
#[derive(Clone, Copy)]
pub struct Side {
    pub opening: Lots,
    pub closed: Lots,
    pub new: Lots,
    pub paired: Lots,
}

#[derive(Clone, Copy)]
pub struct Position {
    pub long: Side,
    pub short: Side,
    pub cash: Fen,
    pub traded: Lots,
    pub zero: u32,
}

#[tactic(auto, unfolding(crate::specs::Layout::position_off))]
pub fn position_off(h: Head, m: usize, j: usize) -> usize
    requires { (h.members ≤ most_members) × (h.contracts ≤ most_contracts) × (m ≤ most_members) × (j ≤ most_contracts) }
    ensures { result ≡ position_off h m j }
{
    h.positions_start() + m * (h.contracts * layout::POSITION) + j * layout::POSITION
}

// The counts of a side stand eight bytes apart, the first of them at off.
#[tactic(auto, unfolding(crate::specs::Positions::side_at))]
fn side_in(row: &[u8; layout::POSITION], off: usize) -> Side
    requires { off ≤ short_at }
    ensures { result ≡ side_at row.now off }
{
    Side {
        opening: Lots(wire::read(row, off + layout::OPENING)),
        closed: Lots(wire::read(row, off + layout::CLOSED)),
        new: Lots(wire::read(row, off + layout::NEW)),
        paired: Lots(wire::read(row, off + layout::PAIRED)),
    }
}

#[tactic(auto, unfolding(crate::specs::Positions::position_at))]
fn position_in(row: &[u8; layout::POSITION]) -> Position
    ensures { result ≡ position_at row.now 0 }
{
    Position {
        long: side_in(row, layout::LONG),
        short: side_in(row, layout::SHORT),
        cash: Fen(wire::read(row, layout::CASH)),
        traded: Lots(wire::read(row, layout::TRADED)),
        zero: wire::read(row, layout::POSITION_ZERO),
    }
}

pub fn position_at(s: &[u8], off: usize) -> Position
    requires { off + position_size ≤ length s.now }
    ensures { result ≡ position_at s.now off }
{
    position_in(wire::bytes_at(s, off))
}

fn put_lots(row: &mut [u8; layout::POSITION], long: Side, short: Side)
    ensures { row.new ≡ put_fields row.old 0 (lots_fields long short) }
{
    wire::write(row, layout::OPENING + layout::LONG, long.opening.0);
    wire::write(row, layout::OPENING + layout::SHORT, short.opening.0);
    wire::write(row, layout::CLOSED + layout::LONG, long.closed.0);
    wire::write(row, layout::CLOSED + layout::SHORT, short.closed.0);
    wire::write(row, layout::NEW + layout::LONG, long.new.0);
    wire::write(row, layout::NEW + layout::SHORT, short.new.0);
    wire::write(row, layout::PAIRED + layout::LONG, long.paired.0);
    wire::write(row, layout::PAIRED + layout::SHORT, short.paired.0);
}

fn put_dealt(row: &mut [u8; layout::POSITION], cash: Fen, traded: Lots, zero: u32)
    ensures { row.new ≡ put_fields row.old 0 (dealt_fields cash traded zero) }
{
    wire::write(row, layout::CASH, cash.0);
    wire::write(row, layout::TRADED, traded.0);
    wire::write(row, layout::POSITION_ZERO, zero);
}

pub fn put_position(s: &mut [u8], off: usize, p: Position)
    requires { off + position_size ≤ length s.old }
    ensures { s.new ≡ put_position s.old off p }
{
    let (_, rest) = s.split_at_mut(off);
    let row = rest.first_chunk_mut().unwrap();
    put_lots(row, p.long, p.short);
    put_dealt(row, p.cash, p.traded, p.zero);
}
