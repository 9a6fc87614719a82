// The account of one member in one contract: read from its place, and put back there.
ghost use Rattle.std.specs.Prelude.{◌≡◌};
ghost use Rattle.book.specs.Accounts.{Shaped, Within, account_at, put_account};

use crate::heads::Head;
use crate::members::Member;
use crate::positions::Position;
use crate::{members, positions};

// A member and a contract, by their numbers.
#[derive(Clone, Copy)]
pub struct Place {
    pub member: usize,
    pub contract: usize,
}

#[derive(Clone, Copy)]
pub struct Account {
    pub member: Member,
    pub position: Position,
}

pub fn account_at(s: &[u8], h: Head, p: Place) -> Account
    requires { Shaped s.now h × Within h p }
    ensures { result ≡ account_at h s.now p }
{
    let member = members::member_at(s, members::member_off(h, p.member));
    let position = positions::position_at(s, positions::position_off(h, p.member, p.contract));
    Account { member, position }
}

pub fn put_account(s: &mut [u8], h: Head, p: Place, a: Account)
    requires { Shaped s.old h × Within h p }
    ensures { s.new ≡ put_account h s.old p a }
{
    members::put_member(s, members::member_off(h, p.member), a.member);
    positions::put_position(
        s,
        positions::position_off(h, p.member, p.contract),
        a.position,
    );
}
