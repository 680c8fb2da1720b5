// The tape's limits, each named once. specs/Limits.antt has them for the contracts.

// the longest command, in bytes: a tape with fewer free bytes has no room
pub const LONGEST_COMMAND: usize = 10;
// the longest tape that a reader takes, in bytes
pub const TAPE_LIMIT: usize = 65536;
