// The rows of a book that is read where it is lent.
ghost use Rattle.std.specs.Prelude.{◌≡◌, ◌<◌};
ghost use Rattle.book.specs.Accounts.{Shaped};

use crate::contracts::Contract;
use crate::heads::Head;
use crate::members::Member;
use crate::positions::Position;
use crate::{contracts, layout, members, positions};

/// A head, and bytes in which a book of that head has room.
#[derive(Clone, Copy)]
pub struct Rows<'a> {
    pub bytes: &'a [u8],
    pub head: Head,
    ghost shaped: { Shaped bytes.now head },
}

// A place in range stays a clause: it speaks of the place and the book, and a type of places would have to hold the book.
impl Rows<'_> {
    ghost use Rattle.book.specs.Rows.{book_of};

    pub fn contract(&self, j: usize) -> Contract
        requires { j < self.now.head.contracts }
        ensures { result ≡ (book_of self.now).contract j }
    {
        contracts::contract_at(self.bytes, contracts::contract_off(j))
    }

    pub fn kind_number(&self, m: usize) -> u32
        requires { m < self.now.head.members }
        ensures { result ≡ (book_of self.now).kind_number m }
    {
        wire::read(self.bytes, members::member_off(self.head, m) + layout::KIND)
    }

    pub fn member(&self, m: usize) -> Member
        requires { m < self.now.head.members }
        ensures { result ≡ (book_of self.now).member m }
    {
        members::member_at(self.bytes, members::member_off(self.head, m))
    }

    pub fn position(&self, m: usize, j: usize) -> Position
        requires { (m < self.now.head.members) × (j < self.now.head.contracts) }
        ensures { result ≡ (book_of self.now).position m j }
    {
        positions::position_at(self.bytes, positions::position_off(self.head, m, j))
    }
}
