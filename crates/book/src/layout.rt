// Every size and offset of the book. No other source file says a number of the layout.
pub const HEAD: usize = 32;

pub const MEMBERS: usize = 0;

pub const CONTRACTS: usize = 2;

pub const TOTAL: usize = 4;

pub const CONTENTS: usize = 8;

pub const ENTRY: usize = 8;

pub const SECTION: usize = 0;

pub const ROW_SIZE: usize = 2;

pub const OFFSET: usize = 4;

// A book has at most so many members and contracts.
pub const MOST_MEMBERS: usize = 32;

pub const MOST_CONTRACTS: usize = 32;

// Section 1.
pub const CONTRACT: usize = 24;

pub const LAST: usize = 0;

pub const MULTIPLIER: usize = 4;

pub const RATE: usize = 8;

pub const FEE: usize = 12;

pub const DELIVERY: usize = 16;

pub const CONTRACT_ZERO: usize = 20;

// Section 2.
pub const MEMBER: usize = 64;

pub const KIND: usize = 0;

pub const ACCEPTED: usize = 4;

pub const RESERVE: usize = 8;

pub const MARGIN: usize = 16;

pub const USABLE: usize = 24;

pub const MARKET: usize = 32;

pub const DISCOUNT: usize = 40;

pub const DEPOSITS: usize = 48;

pub const WITHDRAWALS: usize = 56;

// Section 3.
pub const POSITION: usize = 48;

pub const LONG: usize = 0;

pub const SHORT: usize = 4;

pub const OPENING: usize = 0;

pub const CLOSED: usize = 8;

pub const NEW: usize = 16;

pub const PAIRED: usize = 24;

pub const CASH: usize = 32;

pub const TRADED: usize = 40;

pub const POSITION_ZERO: usize = 44;

// The length of a book with as many members and contracts as it may have: 52,000.
pub const LONGEST_BOOK: usize = HEAD
    + MOST_CONTRACTS * CONTRACT
    + MOST_MEMBERS * MEMBER
    + MOST_MEMBERS * (MOST_CONTRACTS * POSITION);
