// Where a call's arguments go and where they come from.
#![tactic(auto)]

pub mod arguments;
pub mod boards;
pub mod calls;
pub mod conventions;
pub mod handles;
pub mod limits;
pub mod lists;
