// Day records: the bytes, and what they ask for; or nothing, where a record is refused 1.
#![tactic(auto)]

pub mod reading;
pub mod records;
