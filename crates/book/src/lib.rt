// The book: its rows read from and written to lent bytes, and the account of one member in one contract.
#![tactic(auto)]

pub mod accounts;
pub mod contracts;
pub mod heads;
pub mod layout;
pub mod lent;
pub mod members;
pub mod positions;
