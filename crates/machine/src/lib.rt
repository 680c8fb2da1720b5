// The machine under a lowered call: its vocabulary, and what takes its steps.
#![tactic(auto)]

pub mod emitters;
pub mod limits;
pub mod places;
pub mod refusals;
pub mod steps;
pub mod turns;
pub mod words;
