// The rule book: each rule by value, over lots, prices and fen; no bytes. A rule's definition stands in specs/ under the same subject.
#![tactic(auto)]

pub mod fee;
pub mod margin;
pub mod members;
pub mod money;
pub mod night;
pub mod profit;
pub mod refusals;
pub mod securities;
pub mod units;
