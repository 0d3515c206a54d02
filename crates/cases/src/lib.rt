// What the programs that run cases share: how the cases stand in an input, and how answers are
// printed.
#![tactic(auto)]

pub mod input;
pub mod print;
pub mod record;
