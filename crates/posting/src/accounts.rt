// What a record asks of one account that it names, and what a posting makes of that account.
use book::accounts::Account;
use requests::records::{Pairing, Payment, Pledge, Trade};

// A trade and a pairing ask each of their two accounts for its own side.
#[derive(Clone, Copy)]
pub enum Entry {
    Buys(Trade),
    Sells(Trade),
    Receives(Pairing),
    Delivers(Pairing),
    PaysIn(Payment),
    TakesOut(Payment),
    Pledges(Pledge),
}
