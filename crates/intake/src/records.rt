// The records of a piece of the input, posted in their order.
ghost use Rattle.std.specs.Prelude.{◌≡◌, ◌+◌, ◌*◌, ◌≤◌, ◌<◌, length};
ghost use Rattle.rules.specs.Refusals.{answered};
ghost use Rattle.posting.specs.Answers.{answer, after};
ghost use Rattle.sheet.specs.Sheet.{longest_refused};
ghost use Rattle.folds.specs.Put.{Put};
ghost use Rattle.intake.specs.Intake.{record_size, records_in, record_bytes};
ghost use Rattle.intake.specs.Posted.{book_posted, answer_line, refused_lines, LinesRoom};

use crate::parts;
use rules::refusals::Refusal;

// Record i. This alone posts: the book is checked anew for each record.
// The record is cut out by its number and not by `chunks`: its end is the public `record_end`'s, which nothing else would use.
fn post_one(book: &mut [u8], records: &[u8], i: usize) -> Result<(), Refusal>
    requires { i * record_size ≤ length records.now }
    ensures value { answered result ≡ answer book.old (record_bytes records.now i) }
    ensures book_after { book.new ≡ after book.old (record_bytes records.now i) }
{
    let from = i * parts::RECORD;
    let end = parts::record_end(records.len(), from);
    ledger::post(book, &records[from..end])
}

// The line of a refused record; nothing for an accepted one.
// `lines` and `at` stay two arguments: `put_refused` takes both, and a struct would be taken apart again for it.
fn put_answer(lines: &mut [u8], at: usize, place: u64, posted: Result<(), Refusal>) -> usize
    requires { at + longest_refused ≤ length lines.old }
    ensures put { Put lines.old lines.new at (answer_line place (answered posted)) result }
    ensures upper_bound { result ≤ at + longest_refused }
{
    match posted {
        Ok(()) => at,
        Err(refusal) => sheet::lines::put_refused(lines, at, place, u8::from(refusal)),
    }
}

/// Posts all records that are there, a short one at the end too, and puts the lines of those refused. The first one's place in the day is lent.
pub fn post_records(book: &mut [u8], records: &[u8], place: u64, lines: &mut [u8]) -> usize
    requires { LinesRoom records.now place lines.old }
    ensures put { Put lines.old lines.new 0 (refused_lines book.old records.now place) result }
    ensures book_after { book.new ≡ book_posted book.old records.now }
    ensures upper_bound { result ≤ length lines.old }
{
    let mut at = 0;
    for i in 0..parts::records_in(records.len()) {
        let posted = post_one(book, records, i);
        at = put_answer(lines, at, place + i as u64, posted);
    }
    at
}
