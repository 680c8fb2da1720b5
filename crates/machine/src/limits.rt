// The machine's limits, each named once. specs/Limits.antt has them for the contracts.

// registers are numbered from 0
pub const REGISTERS: u8 = 32;
// local slots are numbered from 0
pub const LOCAL_SLOTS: u16 = 1024;
// outgoing slots are numbered from 0
pub const OUTGOING_SLOTS: u16 = 32;
// a reservation is a multiple of this many bytes
pub const RESERVE_UNIT: u16 = 16;
// the largest reservation, in bytes
pub const RESERVE_LIMIT: u16 = 256;
// one slot's bytes
pub const SLOT_BYTES: u16 = 8;
