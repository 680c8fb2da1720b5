// The limits of a call's moves, each named once. specs/Limits.antt has the first for the contracts.
use conventions::limits::ARGUMENTS;
use machine::limits::REGISTERS;

// a call has at most this many moves: each argument's own, and one more for each ring and each value that is spread
pub const MOVES: u8 = 2 * ARGUMENTS;
// that many, as the length of a list
pub(crate) const MOVES_LENGTH: usize = MOVES as usize;
// choices enough for every table of pending moves: each register takes once, and each ring is opened once
pub(crate) const CHOICES: u8 = 2 * REGISTERS;
