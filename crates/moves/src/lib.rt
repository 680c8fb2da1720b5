// The moves of a call, found in tables of at most 32 entries.
#![tactic(auto)]

mod choices;
pub mod limits;
pub mod lists;
mod parts;
mod pendings;
pub mod plans;
mod wants;
