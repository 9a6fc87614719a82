// The library's functions, and nothing else; `clearing_c` exports them. None asks anything of its caller. They answer by number, as the C interface does; inside, a refusal is an enum.
#![tactic(auto)]

ghost use Rattle.std.specs.Prelude.{◌≡◌, length};
ghost use Rattle.validity.specs.Valid.{check_answer};
ghost use Rattle.posting.specs.Answers.{answer, after};
ghost use Rattle.settlement.specs.Settle.{settle_answer, next_after, results_after};

use rules::refusals::{Refusal, answer};

// 0 exactly if the bytes are a valid book, else 10.
pub fn clearing_check(book: &[u8]) -> u8
    ensures { result ≡ check_answer book.now }
{
    let valid = validity::checked(book).ok_or(Refusal::BadBook);
    answer(valid.map(|_| ()))
}

// 0 if the record is accepted, else its refusal number; the book changes where it is 0, and nowhere else.
pub fn clearing_post(book: &mut [u8], record: &[u8]) -> u8
    ensures value { result ≡ answer book.old «record».now }
    ensures book_after { book.new ≡ after book.old «record».now }
{
    answer(ledger::post(book, record))
}

// 0 if the book is settled at these prices, else its refusal number; `next` and `results` change where it is 0, at their starts.
pub fn clearing_settle(book: &[u8], prices: &[u8], next: &mut [u8], results: &mut [u8]) -> u8
    ensures value { result ≡ settle_answer book.now (record { prices = prices.now }) (length next.old) (length results.old) }
    ensures next_after { next.new ≡ next_after book.now (record { prices = prices.now }) next.old results.old }
    ensures results_after { results.new ≡ results_after book.now (record { prices = prices.now }) next.old results.old }
{
    answer(settlement::settle(book, prices, next, results))
}
