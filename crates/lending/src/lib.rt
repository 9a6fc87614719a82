// One member's account is lent to a posting and altered there.
#![tactic(auto)]

ghost use Rattle.std.specs.Prelude.{◌≡◌};
ghost use Rattle.rules.specs.Refusals.{answered};
ghost use Rattle.lending.specs.Lent.{posted_of};
ghost use Rattle.posting.specs.Ranges.{PostedIn};

use book::accounts::Account;
use posting::accounts::Entry;
use posting::postings;
use rules::refusals::Refusal;

// The number, and the account as it stands then. No function hands one out: the definition `posted_of` and the theorems `thin_meets`, `lent_meets` and `returned_meets` speak of it.
#[derive(Clone, Copy)]
pub struct Posted {
    pub answer: u8,
    pub account: Account,
}

// `PostedIn` stays a clause: it speaks of the account and the entry.
pub fn post(a: &mut Account, e: Entry) -> Result<(), Refusal>
    requires { PostedIn a.old e }
    ensures { (answered result ≡ (posted_of a.old e).answer) × (a.new ≡ (posted_of a.old e).account) }
{
    *a = postings::decided(*a, e)?;
    Ok(())
}

/// What a posting said, and the account as it stands then: on a refusal as it stood.
#[derive(Clone, Copy)]
pub struct Returned {
    pub outcome: Result<(), Refusal>,
    pub account: Account,
}

/// The account is lent here and nowhere else: whoever calls this one passes it by value.
pub fn lent(a: Account, e: Entry) -> Returned
    requires { PostedIn a e }
    ensures { (answered result.outcome ≡ (posted_of a e).answer) × (result.account ≡ (posted_of a e).account) }
{
    let mut b = a;
    let outcome = post(&mut b, e);
    Returned {
        outcome,
        account: b,
    }
}
