// The head and the table of contents.
ghost use Rattle.std.specs.Prelude.{◌≡◌, ◌+◌, ◌≤◌, length};
ghost use Rattle.book.specs.Layout.{head_size, most_members, most_contracts, entry_size, members_start, positions_start, book_length};
ghost use Rattle.book.specs.Heads.{head_at, entry_at, contracts_entry, members_entry, positions_entry};

use crate::layout;

// How many members and contracts a book has.
#[derive(Clone, Copy, PartialEq, Eq)]
pub struct Head {
    pub members: usize,
    pub contracts: usize,
}

// One line of the table of contents, whatever it says, as the definition `entry_at` has it.
#[derive(Clone, Copy, PartialEq, Eq)]
pub struct Entry {
    pub section: u32,
    pub size: usize,
    pub start: usize,
}

#[tactic(auto, unfolding(crate::specs::Heads::head_at))]
pub fn head_at(s: &[u8]) -> Head
    requires { head_size ≤ length s.now }
    ensures { result ≡ head_at s.now }
{
    let members = usize::from(wire::read::<u16>(s, layout::MEMBERS));
    let contracts = usize::from(wire::read::<u16>(s, layout::CONTRACTS));
    Head { members, contracts }
}

#[tactic(auto, unfolding(crate::specs::Heads::entry_at))]
pub fn entry_at(s: &[u8], off: usize) -> Entry
    requires { off + entry_size ≤ length s.now }
    ensures { result ≡ entry_at s.now off }
{
    let section = u32::from(wire::read::<u16>(s, off + layout::SECTION));
    let size = usize::from(wire::read::<u16>(s, off + layout::ROW_SIZE));
    let start = wire::read::<u32>(s, off + layout::OFFSET) as usize;
    Entry {
        section,
        size,
        start,
    }
}

// Where the sections begin, where the book ends, and what the table of contents says of each section. The counts' range stays a clause: a second type of head, which is read before it is checked, would be no plainer.
impl Head {
    pub fn members_start(self) -> usize
        requires { self.contracts ≤ most_contracts }
        ensures { result ≡ members_start self }
    {
        layout::HEAD + self.contracts * layout::CONTRACT
    }

    pub fn positions_start(self) -> usize
        requires { (self.members ≤ most_members) × (self.contracts ≤ most_contracts) }
        ensures { result ≡ positions_start self }
    {
        self.members_start() + self.members * layout::MEMBER
    }

    #[tactic(auto, unfolding(crate::specs::Layout::book_length))]
    pub fn book_length(self) -> usize
        requires { (self.members ≤ most_members) × (self.contracts ≤ most_contracts) }
        ensures { result ≡ book_length self }
    {
        self.positions_start() + self.members * (self.contracts * layout::POSITION)
    }

    pub fn contracts_entry(self) -> Entry
        ensures { result ≡ contracts_entry }
    {
        Entry {
            section: 1,
            size: layout::CONTRACT,
            start: layout::HEAD,
        }
    }

    pub fn members_entry(self) -> Entry
        requires { self.contracts ≤ most_contracts }
        ensures { result ≡ members_entry self }
    {
        Entry {
            section: 2,
            size: layout::MEMBER,
            start: self.members_start(),
        }
    }

    pub fn positions_entry(self) -> Entry
        requires { (self.members ≤ most_members) × (self.contracts ≤ most_contracts) }
        ensures { result ≡ positions_entry self }
    {
        Entry {
            section: 3,
            size: layout::POSITION,
            start: self.positions_start(),
        }
    }
}
