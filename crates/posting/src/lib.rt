// Day records, decided by value over the accounts that they name.
#![tactic(auto)]

pub mod accounts;
pub mod fills;
pub mod postings;
