// The next book, row by row, in plain loops: of a closure that writes, the caller's proof would learn nothing.
ghost use Rattle.std.specs.Prelude.{◌≡◌, ◌+◌, ◌*◌, ◌^◌, ◌≤◌, ◌<◌, length};
ghost use Rattle.std.proofs.lemmas.List.Edits.{sets};
ghost use Rattle.folds.specs.Rows.{row_bytes};
ghost use Rattle.folds.specs.Laid.{bytes_to};
ghost use Rattle.book.specs.Layout.{head_size, entry_size, contracts_start, members_start, positions_start, position_size, book_length};
ghost use Rattle.book.specs.Heads.{head_fields, entry_fields};
ghost use Rattle.book.specs.Rows.{book_of};
ghost use Rattle.tonight.specs.GivenOf.{given_of};
ghost use Rattle.book.specs.Whole.{head_bytes};
ghost use Rattle.settlement.specs.Next.{next_contract, next_member, opened, position_of, next_position, contract_bytes, member_bytes, positions_bytes, next_bytes};

use book::contracts::{self, Contract, Terms};
use book::heads::Entry;
use book::layout;
use book::members::{self, Day, Member};
use book::positions::{self, Position, Side};
use rules::margin::remaining;
use rules::units::{Fen, Lots, Sides};
use tonight::evening::Evening;
use tonight::prices::prices_at;
use validity::sides::{held_sides, paired_sides};

fn put_counts(evening: &Evening<'_>, next: &mut [u8])
    requires { head_size ≤ length next.old }
    ensures { next.new ≡ sets next.old 0 (row_bytes (head_fields evening.now.rows.head)) }
{
    let h = evening.rows.head;
    wire::write(next, layout::MEMBERS, h.members as u16);
    wire::write(next, layout::CONTRACTS, h.contracts as u16);
    wire::write(next, layout::TOTAL, h.book_length() as u32);
}

fn put_entry(next: &mut [u8], off: usize, e: Entry)
    requires { (off + entry_size ≤ length next.old) × (e.section < 2 ^ 16) × (e.size < 2 ^ 16) × (e.start < 2 ^ 32) }
    ensures { next.new ≡ sets next.old off (row_bytes (entry_fields e)) }
{
    wire::write(next, off + layout::SECTION, e.section as u16);
    wire::write(next, off + layout::ROW_SIZE, e.size as u16);
    wire::write(next, off + layout::OFFSET, e.start as u32);
}

fn put_head(evening: &Evening<'_>, next: &mut [u8])
    requires { head_size ≤ length next.old }
    ensures { next.new ≡ sets next.old 0 (head_bytes evening.now.rows.head) }
{
    let h = evening.rows.head;
    put_counts(evening, next);
    put_entry(next, layout::CONTENTS, h.contracts_entry());
    put_entry(next, layout::CONTENTS + layout::ENTRY, h.members_entry());
    put_entry(
        next,
        layout::CONTENTS + 2 * layout::ENTRY,
        h.positions_entry(),
    );
}

// Contract j's row: tonight's price as last price. A place in range stays a clause, here and below, as in `Evening`.
fn next_contract(evening: &Evening<'_>, j: usize) -> Contract
    requires { j < evening.now.rows.head.contracts }
    ensures { result ≡ next_contract (book_of evening.now.rows) (given_of evening.now) j }
{
    let c = evening.rows.contract(j);
    let last = prices_at(evening.prices, c.terms.last, j).tonight;
    Contract {
        terms: Terms { last, ..c.terms },
        ..c
    }
}

// Member m's row: tonight's figures, and nothing of the day.
fn next_member(evening: &Evening<'_>, m: usize) -> Member
    requires { m < evening.now.rows.head.members }
    ensures { result ≡ next_member (book_of evening.now.rows) (given_of evening.now) m }
{
    let r = evening.rows.member(m);
    Member {
        accepted: 0,
        figures: evening.night(m).figures,
        day: Day {
            deposits: Fen(0),
            withdrawals: Fen(0),
        },
        ..r
    }
}

fn opened(n: Lots) -> Side
    ensures { result ≡ opened n }
{
    Side {
        opening: n,
        closed: Lots(0),
        new: Lots(0),
        paired: Lots(0),
    }
}

fn position_of(sides: Sides) -> Position
    ensures { result ≡ position_of sides }
{
    Position {
        long: opened(sides.long),
        short: opened(sides.short),
        cash: Fen(0),
        traded: Lots(0),
        zero: 0,
    }
}

// Member m's row in contract j: remaining lots as opening.
fn next_position(evening: &Evening<'_>, m: usize, j: usize) -> Position
    requires { (m < evening.now.rows.head.members) × (j < evening.now.rows.head.contracts) }
    ensures { result ≡ next_position (book_of evening.now.rows) m j }
{
    let p = evening.rows.position(m, j);
    position_of(remaining(held_sides(p), paired_sides(p)))
}

fn put_row(evening: &Evening<'_>, next: &mut [u8], m: usize)
    requires { (book_length evening.now.rows.head ≤ length next.old) × (m < evening.now.rows.head.members) }
    ensures { next.new ≡ sets next.old (positions_start evening.now.rows.head + m * (evening.now.rows.head.contracts * position_size)) (positions_bytes (book_of evening.now.rows) m) }
{
    let h = evening.rows.head;
    for j in 0..h.contracts {
        positions::put_position(
            next,
            positions::position_off(h, m, j),
            next_position(evening, m, j),
        );
    }
}

pub fn put_next(evening: &Evening<'_>, next: &mut [u8])
    requires { book_length evening.now.rows.head ≤ length next.old }
    ensures { next.new ≡ sets next.old 0 (next_bytes (book_of evening.now.rows) (given_of evening.now)) }
{
    let h = evening.rows.head;
    put_head(evening, next);
    for j in 0..h.contracts {
        contracts::put_contract(next, contracts::contract_off(j), next_contract(evening, j));
    }
    for m in 0..h.members {
        members::put_member(next, members::member_off(h, m), next_member(evening, m));
    }
    for m in 0..h.members {
        put_row(evening, next, m);
    }
}
