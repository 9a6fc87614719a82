// The evening program: reads a day file from standard input, posts its records in their order, settles, and prints the lines of what is refused and the sheet.
#![tactic(auto)]

mod standard;

ghost use Rattle.std.specs.Prelude.{◌≡◌, ◌+◌, ◌*◌, ◌≤◌, ◌<◌, ◌^◌, length, take, min, IfOk, IfSome};
ghost use Rattle.book.specs.Layout.{head_size, longest_book};
ghost use Rattle.folds.specs.Put.{Put};
ghost use Rattle.intake.specs.Intake.{book_total, book_there, count_of, record_size, records_in, most_prices};
ghost use Rattle.intake.specs.Posted.{book_posted, refused_lines};
ghost use Rattle.evening.specs.Settled.{settled_text};

use book::layout;
use intake::{outcome, parts, records};
use rules::refusals::{self, Refusal};
use std::io::{self, Print, Read};

// The bytes that the input is read into, a piece at a time.
const INPUT: usize = 65_536;

// The records of a piece: as many whole ones as those bytes hold, so that none lies in two pieces.
const PIECE: usize = INPUT / parts::RECORD;

// The bytes for lines: the longest lines of a piece of which every record is refused fill them.
const LINES: usize = PIECE * sheet::lines::LONGEST_REFUSED;

// The results of as many members as a book may have.
const RESULTS: usize = layout::MOST_MEMBERS * settlement::results::RESULT;

// What stands in the first n bytes of the program's arrays. A number beside the bytes, and no slice, so that the clauses say which bytes are meant.
fn total_in(bytes: &[u8], n: usize) -> usize
    requires { n ≤ length bytes.now }
    ensures value { result ≡ book_total (take n bytes.now) }
    ensures upper_bound { result ≤ longest_book }
{
    parts::book_total(&bytes[..n])
}

fn there_in(bytes: &[u8], n: usize) -> usize
    requires { n ≤ length bytes.now }
    ensures value { result ≡ book_there (take n bytes.now) }
    ensures upper_bound { result ≤ n }
{
    parts::book_there(&bytes[..n])
}

fn count_in(bytes: &[u8], n: usize) -> u64
    requires { n ≤ length bytes.now }
    ensures { result ≡ count_of (take n bytes.now) }
{
    parts::count_of(&bytes[..n])
}

// Reads the book; answers its length, where it is there.
fn read_book(day: &mut impl Read, book: &mut [u8; layout::LONGEST_BOOK]) -> Option<usize>
    ensures { IfSome result (λ n. (head_size ≤ n) × (n ≤ longest_book)) }
{
    let head = standard::read(day, &mut book[..layout::HEAD]);
    let total = total_in(book, head);
    if total < layout::HEAD {
        return None;
    }
    let rest = standard::read(day, &mut book[layout::HEAD..total]);
    let there = there_in(book, layout::HEAD + rest);
    if there < layout::HEAD {
        None
    } else {
        Some(there)
    }
}

fn piece_of(left: u64) -> usize
    ensures { result ≡ min left PIECE }
{
    left.min(PIECE as u64) as usize
}

// Posts the records of a piece and prints the lines of those refused.
fn post_piece(
    rt: &impl Print,
    book: &mut [u8],
    piece: &[u8],
    place: u64,
    lines: &mut [u8; LINES],
) -> io::Result<()>
    requires { (length piece.now ≤ PIECE * record_size) × (place + records_in (length piece.now) < 2 ^ 64) }
    ensures book_after { book.new ≡ book_posted book.old piece.now }
    ensures put { Put lines.old lines.new 0 (refused_lines book.old piece.now place) (length (refused_lines book.old piece.now place)) }
{
    let end = records::post_records(book, piece, place, lines);
    standard::write(rt, &lines[..end])
}

// Reads and posts the records, piece by piece; answers whether all of them came whole.
fn post_all(
    rt: &impl Print,
    day: &mut impl Read,
    book: &mut [u8],
    count: u64,
    input: &mut [u8; INPUT],
    lines: &mut [u8; LINES],
) -> io::Result<bool> {
    for place in (0..count).step_by(PIECE) {
        let want = piece_of(count - place);
        let got = standard::read(day, &mut input[..want * parts::RECORD]);
        post_piece(rt, book, &input[..got], place, lines)?;
        if got < want * parts::RECORD {
            return Ok(false);
        }
    }
    Ok(true)
}

// Posts the day's records, and leaves the bytes that follow them at the start of the input; answers how many of these there are. Where the input has ended before, there are none, and nothing more is read.
fn post_day(
    rt: &impl Print,
    day: &mut impl Read,
    book: &mut [u8],
    input: &mut [u8; INPUT],
    lines: &mut [u8; LINES],
) -> io::Result<usize>
    ensures { IfOk result (λ n. n ≤ most_prices) }
{
    let got = standard::read(day, &mut input[..parts::COUNT]);
    let count = count_in(input, got);
    if !post_all(rt, day, book, count, input, lines)? {
        return Ok(0);
    }
    if got < parts::COUNT {
        return Ok(0);
    }
    Ok(standard::read(day, &mut input[..parts::most_prices()]))
}

fn print_refusal(rt: &impl Print, lines: &mut [u8; LINES]) -> io::Result<()> {
    let number = u8::from(Refusal::BadBook);
    let end = sheet::lines::put_settlement_refused(lines, 0, number);
    standard::write(rt, &lines[..end])
}

// Settles the book at the prices, and puts the lines of what comes of it; answers where they end.
fn settle(book: &[u8], prices: &[u8], lines: &mut [u8; LINES]) -> usize
    requires { head_size ≤ length book.now }
    ensures put { Put lines.old lines.new 0 (settled_text book.now prices.now) result }
    ensures upper_bound { result ≤ length lines.old }
{
    let mut next = [0u8; layout::LONGEST_BOOK];
    let mut results = [0u8; RESULTS];
    let number = refusals::answer(settlement::settle(book, prices, &mut next, &mut results));
    let members = outcome::members_on(book);
    outcome::put_outcome(lines, number, &results, members)
}

fn main(rt: HostRuntime) -> io::Result<()> {
    let mut bytes = [0u8; layout::LONGEST_BOOK];
    let mut lines = [0u8; LINES];
    let mut day = rt.stdin();
    let Some(total) = read_book(&mut day, &mut bytes) else {
        return print_refusal(&rt, &mut lines);
    };
    let book = &mut bytes[..total];
    let mut input = [0u8; INPUT];
    let prices = post_day(&rt, &mut day, book, &mut input, &mut lines)?;
    let end = settle(book, &input[..prices], &mut lines);
    standard::write(&rt, &lines[..end])
}
