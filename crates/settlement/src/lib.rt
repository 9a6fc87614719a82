// Evening settlement: the refusals first, and nothing is written on one; then the next book and the results.
#![tactic(auto)]

pub mod next;
pub mod results;

ghost use Rattle.std.specs.Prelude.{◌≡◌, length};
ghost use Rattle.rules.specs.Refusals.{answered};
ghost use Rattle.settlement.specs.Settle.{settle_answer, next_after, results_after};

use rules::refusals::Refusal;
use tonight::evening::Evening;

/// Settles an evening: writes the next book and the results, or on a refusal nothing.
pub fn settle(
    book: &[u8],
    prices: &[u8],
    next: &mut [u8],
    results: &mut [u8],
) -> Result<(), Refusal>
    ensures value { answered result ≡ settle_answer book.now (record { prices = prices.now }) (length next.old) (length results.old) }
    ensures next_after { next.new ≡ next_after book.now (record { prices = prices.now }) next.old results.old }
    ensures results_after { results.new ≡ results_after book.now (record { prices = prices.now }) next.old results.old }
{
    let book = validity::checked(book).ok_or(Refusal::BadBook)?;
    let evening = Evening::priced(book, prices)?;
    let head = evening.rows.head;
    if next.len() < head.book_length() || results.len() < head.members * results::RESULT {
        return Err(Refusal::ShortRoom);
    }
    if !evening.reserves_ok() {
        return Err(Refusal::ReserveBeyond);
    }
    next::put_next(&evening, next);
    results::put_results(&evening, results);
    Ok(())
}
