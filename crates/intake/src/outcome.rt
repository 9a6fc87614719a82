// What is printed after the refused records: the sheet, or that the settlement is refused.
ghost use Rattle.std.specs.Prelude.{◌≡◌, ◌+◌, ◌*◌, ◌≤◌, ◌<◌, length};
ghost use Rattle.book.specs.Layout.{head_size, most_members};
ghost use Rattle.sheet.specs.Sheet.{sheet_text, header_length, longest_line};
ghost use Rattle.folds.specs.Put.{Put};
ghost use Rattle.intake.specs.Posted.{outcome, members_on, SheetRoom};

use book::layout;

/// The sheet's members: those of the book's head, and at most as many as a book may have.
pub fn members_on(book: &[u8]) -> usize
    requires { head_size ≤ length book.now }
    ensures value { result ≡ members_on book.now }
    ensures upper_bound { result ≤ most_members }
{
    book::heads::head_at(book).members.min(layout::MOST_MEMBERS)
}

fn put_sheet(lines: &mut [u8], results: &[u8], members: usize) -> usize
    requires { SheetRoom members results.now lines.old }
    ensures put { Put lines.old lines.new 0 (sheet_text results.now members) result }
    ensures upper_bound { result ≤ header_length + members * longest_line }
{
    let mut at = sheet::lines::put_header(lines, 0);
    for m in 0..members {
        at = sheet::lines::put_line(lines, at, results, m);
    }
    at
}

/// Puts the sheet where the settlement's answer, `number`, is 0, and else the line of its refusal.
// `number` stays a number: the clause holds of any. `results` and `members` stay two arguments: the clause names both.
pub fn put_outcome(lines: &mut [u8], number: u8, results: &[u8], members: usize) -> usize
    requires { SheetRoom members results.now lines.old }
    ensures put { Put lines.old lines.new 0 (outcome number results.now members) result }
    ensures upper_bound { result ≤ length lines.old }
{
    if number == 0 {
        return put_sheet(lines, results, members);
    }
    sheet::lines::put_settlement_refused(lines, 0, number)
}
