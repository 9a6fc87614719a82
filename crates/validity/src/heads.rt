// Whether the head, the contents and the length are right, and the rows where they are.
ghost use Rattle.std.specs.Prelude.{◌≡◌, ◌↔◌, ◌≤◌, true, length, IfSome, IsSome};
ghost use Rattle.book.specs.Heads.{head_at};
ghost use Rattle.book.specs.Layout.{head_size, most_members, most_contracts};
ghost use Rattle.validity.specs.Valid.{counts_ok, contents_ok, head_ok};

use book::heads::Head;
use book::layout;
use book::lent::Rows;

fn counts_ok(h: Head) -> bool
    ensures { result ≡ counts_ok h }
{
    (1..=layout::MOST_MEMBERS).contains(&h.members)
        & (1..=layout::MOST_CONTRACTS).contains(&h.contracts)
}

fn contents_ok(s: &[u8], h: Head) -> bool
    requires { (head_size ≤ length s.now) × (h.members ≤ most_members) × (h.contracts ≤ most_contracts) }
    ensures { result ≡ contents_ok h s.now }
{
    (book::heads::entry_at(s, layout::CONTENTS) == h.contracts_entry())
        & (book::heads::entry_at(s, layout::CONTENTS + layout::ENTRY) == h.members_entry())
        & (book::heads::entry_at(s, layout::CONTENTS + 2 * layout::ENTRY) == h.positions_entry())
}

pub fn head_ok(s: &[u8]) -> bool
    ensures { result ≡ head_ok s.now }
{
    if s.len() < layout::HEAD {
        return false;
    }
    let h = book::heads::head_at(s);
    if !counts_ok(h) {
        return false;
    }
    let total = wire::read::<u32>(s, layout::TOTAL) as usize;
    let length = s.len();
    (total == h.book_length())
        & (total <= layout::LONGEST_BOOK)
        & (length == total)
        & contents_ok(s, h)
}

/// The rows that the head tells of; none where the head, the contents or the length are not right.
pub fn rows_in(s: &[u8]) -> Option<Rows<'_>>
    ensures right { IsSome result ↔ (head_ok s.now ≡ true) }
    ensures rows { IfSome result (λ rows. (rows.bytes.now ≡ s.now) × (rows.head ≡ head_at s.now)) }
{
    if head_ok(s) {
        Some(Rows {
            bytes: s,
            head: book::heads::head_at(s),
        })
    } else {
        None
    }
}
