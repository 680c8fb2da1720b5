// The tape: steps as bytes in a lent buffer, and the reader of tapes from anywhere.
#![tactic(auto)]

mod commands;
pub mod errors;
pub mod limits;
mod opcodes;
pub mod readers;
pub mod tapes;
pub mod whole;
