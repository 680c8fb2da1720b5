// A board's convention: argument registers in their order, then outgoing slots from 0 up; no hidden arguments.
ghost use Rattle.std.specs.Prelude.{◌≡◌, ◌<◌, ◌≤◌, true, false, length};
ghost use Rattle.machine.specs.Places.{holds};
ghost use Rattle.machine.specs.Limits.{registers as register_limit};
ghost use Rattle.conventions.specs.Tables.{all_held, argument_registers, distinct, numbers};

use machine::places::{Register, RegisterSet};

mod answers;
mod makes;

// a board has at most this many argument registers
const ARGUMENT_REGISTERS: usize = 8;

// Its registers are an array and no slice: a board that held a borrow could stand in no enum of its user's without a proof by hand.
#[derive(Clone, Copy)]
pub struct Board {
    registers: [Register; ARGUMENT_REGISTERS],
    // how many of the registers take arguments
    count: u8,
    scratch: Register,
    usable: RegisterSet,
    lost: RegisterSet,
    ghost few: { count ≤ argument_registers },
    ghost whole: { length registers ≡ argument_registers },
    ghost different: { distinct (numbers count registers) ≡ true },
    ghost held: { all_held usable.0 (numbers count registers) ≡ true },
    ghost ranged: { scratch.0 < register_limit },
    ghost reserved: { holds usable.0 scratch.0 ≡ false },
}
