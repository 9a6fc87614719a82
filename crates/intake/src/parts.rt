// The input's parts: the book, the record count, the records and the prices.
ghost use Rattle.std.specs.Prelude.{◌≡◌, ◌+◌, ◌*◌, ◌≤◌, ◌<◌, min, length};
ghost use Rattle.book.specs.Layout.{longest_book};
ghost use Rattle.intake.specs.Intake.{book_total, book_there, count_of, record_size, records_in, most_prices};

use book::layout;

pub const COUNT: usize = 4;

pub const RECORD: usize = 24;

// A settlement price and a delivery price.
const PAIR: usize = 8;

/// The length of the book that a head gives, or 0: no book is so short. It is at most LONGEST_BOOK.
// A number and no `Option`: the clause names `book_total` of specs/Intake.antt, which is 0 where there is none.
pub fn book_total(bytes: &[u8]) -> usize
    ensures value { result ≡ book_total bytes.now }
    ensures upper_bound { result ≤ longest_book }
{
    if bytes.len() < layout::HEAD {
        return 0;
    }
    let total = wire::read::<u32>(bytes, layout::TOTAL) as usize;
    if total < layout::HEAD {
        return 0;
    }
    if layout::LONGEST_BOOK < total {
        return 0;
    }
    total
}

/// The length of the book with which the bytes begin, or 0 where they end inside it.
// A number and no `Option`: the clause names `book_there` of specs/Intake.antt, which is 0 where there is none.
pub fn book_there(bytes: &[u8]) -> usize
    ensures value { result ≡ book_there bytes.now }
    ensures upper_bound { result ≤ length bytes.now }
{
    let total = book_total(bytes);
    if bytes.len() < total {
        return 0;
    }
    total
}

/// How many records the input says that it has: 0 where the count is missing or short.
// A number and no `Option`: the clause names `count_of` of specs/Intake.antt, which is 0 there.
pub fn count_of(bytes: &[u8]) -> u64
    ensures { result ≡ count_of bytes.now }
{
    if bytes.len() < COUNT {
        return 0;
    }
    u64::from(wire::read::<u32>(bytes, 0))
}

/// How many records are there in so many bytes, a short one at the end too.
pub fn records_in(length: usize) -> usize
    ensures { result ≡ records_in length }
{
    length.div_ceil(RECORD)
}

/// Where the record that begins at `from` ends: the last one may be short.
pub fn record_end(length: usize, from: usize) -> usize
    requires { from ≤ length }
    ensures { result ≡ min (from + record_size) length }
{
    from + (length - from).min(RECORD)
}

/// How many of the bytes after the records settlement is handed at most. With the last of these the prices of no book are right, so what follows need not be read.
// A function and no constant: it is public, and a constant has no clause to name the definition.
pub fn most_prices() -> usize
    ensures { result ≡ most_prices }
{
    layout::MOST_CONTRACTS * PAIR + 1
}
