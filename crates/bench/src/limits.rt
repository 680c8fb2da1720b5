// The bench's limits and the places of its cells, each named once. specs/Cells.antt has them for the contracts.
use machine::limits::{LOCAL_SLOTS, OUTGOING_SLOTS, REGISTERS};

// a bench takes at most this many steps
pub const STEPS: u32 = 1_000_000;

// the first cell of each kind of place; registers come first
pub const LOCALS: usize = REGISTERS as usize;

pub const OUTGOING: usize = LOCALS + LOCAL_SLOTS as usize;

pub const SEEN_REGISTERS: usize = OUTGOING + OUTGOING_SLOTS as usize;

pub const SEEN_OUTGOING: usize = SEEN_REGISTERS + REGISTERS as usize;
// all cells
pub const CELLS: usize = SEEN_OUTGOING + OUTGOING_SLOTS as usize;
