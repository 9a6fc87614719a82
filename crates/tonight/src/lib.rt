// A member's night, from a valid book and the evening's prices: the read-only half of settlement.
#![tactic(auto)]

pub mod evening;
pub mod nights;
pub mod prices;
pub mod tallies;
