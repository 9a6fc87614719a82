// What the evening program does with the bytes that it has read, and the lines that it prints of them.
#![tactic(auto)]

pub mod outcome;
pub mod parts;
pub mod records;
