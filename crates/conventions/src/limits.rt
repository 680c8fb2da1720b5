// The limits of a call. specs/Conventions.antt has the first for the contracts.

// a call has at most this many arguments, hidden and given
pub const ARGUMENTS: u8 = 32;

// that many, as the length of a list
pub const ARGUMENTS_LENGTH: usize = ARGUMENTS as usize;
