// Day records posted to the bytes of a book: each named account is read, lent to its posting, and put back within one call on the one book.
#![tactic(auto)]

ghost use Rattle.std.specs.Prelude.{◌≡◌, true, ◌<◌, Some};
ghost use Rattle.rules.specs.Refusals.{answered};
ghost use Rattle.book.specs.Accounts.{place, Within};
ghost use Rattle.validity.specs.Valid.{valid_book};
ghost use Rattle.requests.specs.Ranges.{TradeIn, PairingIn};
ghost use Rattle.posting.specs.Ranges.{EntryIn};
ghost use Rattle.posting.specs.Answers.{says, step, answer, after};
ghost use Rattle.requests.specs.declared.records.Request.TheVariants.{Trading, PairingUp};
ghost use Rattle.ledger.specs.Props.{entry_is_fact};
ghost use Rattle.ledger.specs.Puts.{IsBookOf, one_answer, one_after, two_answer, two_after, says_to, step_to, RequestIn};

use book::accounts::{self, Place};
use book::heads::Head;
use posting::accounts::Entry;
use posting::postings;
use requests::reading;
use requests::records::{Pairing, Request, Trade};
use rules::refusals::Refusal;

// The functions below take the bytes and their head, and a clause says that they are a valid book: a type would have to hold it after the posting too, and that is `kept`, a theorem of `promises`, which stands above this crate.

// An account that a record names, by its place, and what the record asks of it.
#[derive(Clone, Copy)]
struct NamedAccount {
    place: Place,
    entry: Entry,
    ghost entry_in: { EntryIn entry } by { entry_is_fact entry },
}

// Reads the account from its place, lends it to the posting, and puts it back where no rule refuses.
fn post_one(s: &mut [u8], h: Head, n: NamedAccount) -> Result<(), Refusal>
    requires { IsBookOf h s.old × Within h n.place }
    ensures value { answered result ≡ one_answer h s.old n.place n.entry }
    ensures s_after { s.new ≡ one_after h s.old n.place n.entry }
{
    let a = accounts::account_at(s, h, n.place);
    let after = lending::lent(a, n.entry);
    after.outcome?;
    accounts::put_account(s, h, n.place, after.account);
    Ok(())
}

// Two accounts: each lent by itself, and both put back where neither refuses.
fn post_two(s: &mut [u8], h: Head, first: NamedAccount, second: NamedAccount) -> Result<(), Refusal>
    requires { IsBookOf h s.old × Within h first.place × Within h second.place }
    ensures value { answered result ≡ two_answer h s.old first.place first.entry second.place second.entry }
    ensures s_after { s.new ≡ two_after h s.old first.place first.entry second.place second.entry }
{
    let a = accounts::account_at(s, h, first.place);
    let b = accounts::account_at(s, h, second.place);
    let one = lending::lent(a, first.entry);
    let other = lending::lent(b, second.entry);
    postings::both(one.outcome, other.outcome)?;
    accounts::put_account(s, h, first.place, one.account);
    accounts::put_account(s, h, second.place, other.account);
    Ok(())
}

// A trade and a pairing differ in their entries and in their definitions: each names its two accounts, and `post_two` is theirs both.
fn post_trade(s: &mut [u8], h: Head, t: Trade) -> Result<(), Refusal>
    requires { IsBookOf h s.old × TradeIn h t }
    ensures value { answered result ≡ says_to h s.old (Some (Trading t)) }
    ensures s_after { s.new ≡ step_to h s.old (Some (Trading t)) }
{
    let contract = t.contract;
    let buyer = NamedAccount {
        place: Place {
            member: t.buyer,
            contract,
        },
        entry: Entry::Buys(t),
    };
    let seller = NamedAccount {
        place: Place {
            member: t.seller,
            contract,
        },
        entry: Entry::Sells(t),
    };
    post_two(s, h, buyer, seller)
}

fn post_pairing(s: &mut [u8], h: Head, p: Pairing) -> Result<(), Refusal>
    requires { IsBookOf h s.old × PairingIn h p }
    ensures value { answered result ≡ says_to h s.old (Some (PairingUp p)) }
    ensures s_after { s.new ≡ step_to h s.old (Some (PairingUp p)) }
{
    let contract = p.contract;
    let buyer = NamedAccount {
        place: Place {
            member: p.buyer,
            contract,
        },
        entry: Entry::Receives(p),
    };
    let seller = NamedAccount {
        place: Place {
            member: p.seller,
            contract,
        },
        entry: Entry::Delivers(p),
    };
    post_two(s, h, buyer, seller)
}

// A record without a contract carries the member's row in contract 0 through unchanged.
fn post_alone(s: &mut [u8], h: Head, member: usize, entry: Entry) -> Result<(), Refusal>
    requires { IsBookOf h s.old × (member < h.members) × EntryIn entry }
    ensures value { answered result ≡ one_answer h s.old (place member 0) entry }
    ensures s_after { s.new ≡ one_after h s.old (place member 0) entry }
{
    let place = Place {
        member,
        contract: 0,
    };
    post_one(s, h, NamedAccount { place, entry })
}

fn post_request(s: &mut [u8], h: Head, q: Request) -> Result<(), Refusal>
    requires { IsBookOf h s.old × RequestIn h q }
    ensures value { answered result ≡ says_to h s.old (Some q) }
    ensures s_after { s.new ≡ step_to h s.old (Some q) }
{
    match q {
        Request::Trading(t) => post_trade(s, h, t),
        Request::PairingUp(p) => post_pairing(s, h, p),
        Request::Depositing(p) => post_alone(s, h, p.member, Entry::PaysIn(p)),
        Request::Withdrawing(p) => post_alone(s, h, p.member, Entry::TakesOut(p)),
        Request::Pledging(p) => post_alone(s, h, p.member, Entry::Pledges(p)),
    }
}

// A record posted to a book that is known to be valid.
pub fn post_valid(s: &mut [u8], r: &[u8]) -> Result<(), Refusal>
    requires { valid_book s.old ≡ true }
    ensures value { answered result ≡ says s.old r.now }
    ensures s_after { s.new ≡ step s.old r.now }
{
    let h = book::heads::head_at(s);
    let q = reading::request_of(h, r).ok_or(Refusal::BadRecord)?;
    post_request(s, h, q)
}

pub fn post(s: &mut [u8], r: &[u8]) -> Result<(), Refusal>
    ensures value { answered result ≡ answer s.old r.now }
    ensures s_after { s.new ≡ after s.old r.now }
{
    if !validity::valid(s) {
        return Err(Refusal::BadBook);
    }
    post_valid(s, r)
}
