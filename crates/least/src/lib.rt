// The least number of moves that a call's arguments need.
#![tactic(auto)]

pub mod counts;
pub mod theorems;
