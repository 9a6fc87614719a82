// The results: the nine sheet fields of each member, eight bytes each, signed, in a plain loop: of a closure that writes, the caller's proof would learn nothing.
ghost use Rattle.std.specs.Prelude.{◌≡◌, ◌+◌, ◌*◌, ◌≤◌, length};
ghost use Rattle.std.proofs.lemmas.List.Edits.{sets};
ghost use Rattle.folds.specs.Rows.{row_bytes, put_fields};
ghost use Rattle.book.specs.Rows.{book_of};
ghost use Rattle.tonight.specs.GivenOf.{given_of};
ghost use Rattle.settlement.specs.Next.{result_size, result_sums, result_figures, result_standing, result_fields, result_bytes};

use rules::units::Figures;
use tonight::evening::Evening;
use tonight::nights::Night;

// The sheet has this number too: it knows nothing of settlement, and its edit row_of_another_member alters it.
pub const RESULT: usize = 72;

const MEMBER: usize = 0;

const PROFIT: usize = 8;

const FEE: usize = 16;

const MARGIN: usize = 24;

const USABLE: usize = 32;

const RESERVE: usize = 40;

const WITHDRAWABLE: usize = 48;

const CALL: usize = 56;

const STANDING: usize = 64;

// A member's fields in three parts, as the definition has them: the proof of nine writes at once did not close.
fn put_sums(row: &mut [u8; RESULT], t: Night)
    ensures { row.new ≡ put_fields row.old 0 (result_sums t) }
{
    wire::write(row, MEMBER, t.member as u64);
    wire::write(row, PROFIT, t.profit.0);
    wire::write(row, FEE, t.fee.0);
}

fn put_figures(row: &mut [u8; RESULT], f: Figures)
    ensures { row.new ≡ put_fields row.old 0 (result_figures f) }
{
    wire::write(row, MARGIN, f.margin.0);
    wire::write(row, USABLE, f.usable.0);
    wire::write(row, RESERVE, f.reserve.0);
}

fn put_standing(row: &mut [u8; RESULT], t: Night)
    ensures { row.new ≡ put_fields row.old 0 (result_standing t) }
{
    wire::write(row, WITHDRAWABLE, t.withdrawable.0);
    wire::write(row, CALL, t.call.0);
    wire::write(row, STANDING, u64::from(u32::from(t.standing)));
}

fn put_night(results: &mut [u8], off: usize, t: Night)
    requires { off + result_size ≤ length results.old }
    ensures { results.new ≡ sets results.old off (row_bytes (result_fields t)) }
{
    let (_, rest) = results.split_at_mut(off);
    let row = rest.first_chunk_mut().unwrap();
    put_sums(row, t);
    put_figures(row, t.figures);
    put_standing(row, t);
}

#[tactic(auto, unfolding(crate::specs::Next::result_bytes))]
pub fn put_results(evening: &Evening<'_>, results: &mut [u8])
    requires { evening.now.rows.head.members * result_size ≤ length results.old }
    ensures { results.new ≡ sets results.old 0 (result_bytes (book_of evening.now.rows) (given_of evening.now)) }
{
    for m in 0..evening.rows.head.members {
        put_night(results, m * RESULT, evening.night(m));
    }
}
