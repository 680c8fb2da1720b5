// The bench: an emitter that runs steps at once, on cells of any word kind.
#![tactic(auto)]

pub mod benches;
pub mod kinds;
pub mod limits;
pub mod origins;
