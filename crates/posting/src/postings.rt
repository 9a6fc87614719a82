// What a record asks of one account that it names, decided by value: refused, or the account after it.
ghost use Rattle.std.specs.Prelude.{◌≡◌, true, ◌^◌, ◌≤◌, cond, Ok, IfOk};
ghost use Rattle.numbers.specs.Range.{In};
ghost use Rattle.rules.specs.Refusals.{refusal_number, answered};
ghost use Rattle.posting.specs.Fills.{way_of, side_on, enough};
ghost use Rattle.posting.specs.Postings.{counted, moved, traded, paired_on, deposited, withdrawn, pledged, full, barred, above, withdrawal_answer};
ghost use Rattle.posting.specs.Entries.{side_answer, paired_answer, entry_answer, entered, lower};
ghost use Rattle.posting.specs.Ranges.{AccountIn, EntryIn, PostedIn};

use crate::accounts::Entry;
use crate::fills::{self, Fill, Party, Way};
use book::accounts::Account;
use book::members::{Day, Member, Securities};
use book::positions::Position;
use requests::records::{Mark, Pairing, Payment, Pledge, Trade};
use rules::refusals::Refusal;
use rules::units::{Fen, Lots};

// A rule: refused where the test holds.
fn refuse(test: bool, refusal: Refusal) -> Result<(), Refusal>
    ensures { answered result ≡ cond test (refusal_number refusal) 0 }
{
    if test { Err(refusal) } else { Ok(()) }
}

// One more accepted record.
fn counted(m: Member) -> Member
    requires { m.accepted ≤ 20_000 }
    ensures { result ≡ counted m }
{
    Member {
        accepted: m.accepted + 1,
        ..m
    }
}

// An account of a valid book.
#[derive(Clone, Copy)]
struct ValidAccount {
    account: Account,
    ghost range: { AccountIn account },
}

// The rules, each by its definition's name.
impl ValidAccount {
    fn full(self) -> bool
        ensures { result ≡ full self.account }
    {
        20_000 <= self.account.member.accepted
    }

    fn barred(self, mark: Mark) -> bool
        ensures { result ≡ barred mark self.account }
    {
        let member = self.account.member;
        let minimum = member.kind.minimum();
        let money = member.figures.reserve.0 + member.day.deposits.0 - member.day.withdrawals.0;
        let below = money < minimum.0;
        match mark {
            Mark::Opens => below,
            Mark::ClosesOld | Mark::ClosesNew => false,
        }
    }

    fn above(self, p: Payment) -> bool
        ensures { result ≡ above p self.account }
    {
        let member = self.account.member;
        let left = rules::money::room_left(
            member.kind,
            member.figures,
            member.day.deposits,
            member.day.withdrawals,
        );
        left.0 < p.amount.0
    }

    // The most lots of a record stay a clause, here and below: they are a field of several types.
    fn fill(self, way: Way, lots: Lots) -> Fill
        requires { lots.0 ≤ 10_000 }
        ensures { (result.lots ≡ lots) × (result.side ≡ side_on way self.account.position) }
    {
        Fill {
            lots,
            side: way.side(self.account.position),
        }
    }
}

// The rules of each entry, in their order.
impl ValidAccount {
    #[tactic(auto, unfolding(crate::specs::Entries::side_answer))]
    fn check_side(self, party: Party, mark: Mark, t: Trade) -> Result<(), Refusal>
        requires { t.lots.0 ≤ 10_000 }
        ensures { answered result ≡ side_answer party mark t self.account }
    {
        let fill = self.fill(party.way(mark), t.lots);
        refuse(self.full(), Refusal::ManyRecords)?;
        refuse(self.barred(mark), Refusal::BelowMinimum)?;
        refuse(!fill.enough(mark), Refusal::FewLots)?;
        refuse(!fill.roomy(mark), Refusal::ManyLots)
    }

    #[tactic(auto, unfolding(crate::specs::Entries::paired_answer))]
    fn check_pairing(self, way: Way, p: Pairing) -> Result<(), Refusal>
        requires { p.lots.0 ≤ 10_000 }
        ensures { answered result ≡ paired_answer way p self.account }
    {
        refuse(self.full(), Refusal::ManyRecords)?;
        refuse(!self.fill(way, p.lots).free(), Refusal::FewUnpaired)
    }

    #[tactic(auto, unfolding(crate::specs::Postings::withdrawal_answer))]
    fn check_withdrawal(self, p: Payment) -> Result<(), Refusal>
        ensures { answered result ≡ withdrawal_answer p self.account }
    {
        refuse(self.full(), Refusal::ManyRecords)?;
        refuse(self.above(p), Refusal::AboveRoom)
    }

    #[tactic(auto, unfolding(crate::specs::Postings::deposit_answer, crate::specs::Postings::pledge_answer))]
    fn check(self, e: Entry) -> Result<(), Refusal>
        requires { EntryIn e }
        ensures { answered result ≡ entry_answer e self.account }
    {
        match e {
            Entry::Buys(t) => self.check_side(Party::Buyer, t.buying, t),
            Entry::Sells(t) => self.check_side(Party::Seller, t.selling, t),
            Entry::Receives(p) => self.check_pairing(Way::Long, p),
            Entry::Delivers(p) => self.check_pairing(Way::Short, p),
            Entry::TakesOut(p) => self.check_withdrawal(p),
            Entry::PaysIn(_) | Entry::Pledges(_) => refuse(self.full(), Refusal::ManyRecords),
        }
    }
}

// The account after each entry.
impl ValidAccount {
    fn moved(self, p: Position) -> Account
        ensures { result ≡ moved p self.account }
    {
        Account {
            member: counted(self.account.member),
            position: p,
        }
    }

    // The position as it stands.
    fn with_member(self, m: Member) -> Account
        requires { m.accepted ≤ 20_000 }
        ensures { (result.member ≡ counted m) × (result.position ≡ self.account.position) }
    {
        Account {
            member: counted(m),
            position: self.account.position,
        }
    }

    fn traded(self, party: Party, mark: Mark, t: Trade) -> Account
        requires { (t.price.0 ≤ 10_000_000) × (t.lots.0 ≤ 10_000) × (enough mark t.lots.0 (side_on (way_of party mark) self.account.position) ≡ true) }
        ensures { result ≡ traded party mark t self.account }
    {
        self.moved(fills::dealt(party, mark, t.price, t.lots, self.account.position))
    }

    fn paired_on(self, way: Way, p: Pairing) -> Account
        requires { p.lots.0 ≤ 10_000 }
        ensures { result ≡ paired_on way p self.account }
    {
        let side = self.fill(way, p.lots).paired_up();
        self.moved(way.with(side, self.account.position))
    }

    // A deposit and a withdrawal differ in the field that grows: with a closure for it each would be as long.
    fn deposited(self, p: Payment) -> Account
        requires { In (10 ^ 12) p.amount.0 }
        ensures { result ≡ deposited p self.account }
    {
        let member = self.account.member;
        let deposits = Fen(member.day.deposits.0 + p.amount.0);
        let day = Day {
            deposits,
            ..member.day
        };
        self.with_member(Member { day, ..member })
    }

    fn withdrawn(self, p: Payment) -> Account
        requires { In (10 ^ 12) p.amount.0 }
        ensures { result ≡ withdrawn p self.account }
    {
        let member = self.account.member;
        let withdrawals = Fen(member.day.withdrawals.0 + p.amount.0);
        let day = Day {
            withdrawals,
            ..member.day
        };
        self.with_member(Member { day, ..member })
    }

    fn pledged(self, p: Pledge) -> Account
        ensures { result ≡ pledged p self.account }
    {
        let securities = Securities {
            market: p.market,
            discount: p.discount,
        };
        self.with_member(Member {
            securities,
            ..self.account.member
        })
    }

    fn entered(self, e: Entry) -> Account
        requires { EntryIn e × (entry_answer e self.account ≡ 0) }
        ensures { result ≡ entered e self.account }
    {
        match e {
            Entry::Buys(t) => self.traded(Party::Buyer, t.buying, t),
            Entry::Sells(t) => self.traded(Party::Seller, t.selling, t),
            Entry::Receives(p) => self.paired_on(Way::Long, p),
            Entry::Delivers(p) => self.paired_on(Way::Short, p),
            Entry::PaysIn(p) => self.deposited(p),
            Entry::TakesOut(p) => self.withdrawn(p),
            Entry::Pledges(p) => self.pledged(p),
        }
    }
}

/// The account after an entry that no rule refuses, or the first rule that does.
pub fn decided(a: Account, e: Entry) -> Result<Account, Refusal>
    requires { PostedIn a e }
    ensures value { answered result ≡ entry_answer e a }
    ensures account { IfOk result (λ b. b ≡ entered e a) }
{
    let account = ValidAccount { account: a };
    account.check(e)?;
    Ok(account.entered(e))
}

/// What two accounts of a record come to: both, or the lower of their refusals.
pub fn both<A: Copy, B: Copy>(
    one: Result<A, Refusal>,
    other: Result<B, Refusal>,
) -> Result<(A, B), Refusal>
    ensures value { answered result ≡ lower (answered one) (answered other) }
    ensures ok { IfOk result (λ r. (one ≡ Ok r.0) × (other ≡ Ok r.1)) }
{
    match (one, other) {
        (Ok(a), Ok(b)) => Ok((a, b)),
        (Err(m), Ok(_)) => Err(m),
        (Ok(_), Err(n)) => Err(n),
        // By `<=`: that `min` of the derived order is the lower number did not prove.
        (Err(m), Err(n)) => Err(if m <= n { m } else { n }),
    }
}

/// The lower of two refusals' numbers, of which 0 is none.
pub fn lower(m: u8, n: u8) -> u8
    ensures { result ≡ lower m n }
{
    match (m, n) {
        (0, _) => n,
        (_, 0) => m,
        (1..=255, 1..=255) => m.min(n),
    }
}
