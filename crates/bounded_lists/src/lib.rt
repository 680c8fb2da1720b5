// Lists of bounded length in fixed memory.
#![tactic(auto)]

pub mod lists;
