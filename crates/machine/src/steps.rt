// The nine steps.
ghost use Rattle.std.specs.Prelude.{◌≡◌, Some};
ghost use Rattle.machine.specs.Steps.{step_text};
ghost use Rattle.machine.specs.Turns.{in_range};

use crate::limits::*;
use crate::places::{LocalSlot, OutgoingSlot, Register, RegisterSet};
use crate::turns::Turn;
use std::fmt;

#[derive(Clone, Copy, PartialEq, Eq, Debug)]
pub enum Step {
    Copy { to: Register, from: Register },
    Set { to: Register, number: u64 },
    Fetch { to: Register, from: LocalSlot },
    Back { to: Register, from: OutgoingSlot },
    Store { to: OutgoingSlot, from: Register },
    Keep { to: LocalSlot, from: Register },
    Reserve { bytes: u16 },
    Call { routine: u32, lost: RegisterSet },
    Pop { bytes: u16 },
}

impl Step {
    // Whether every register, slot and size that the step names is there at this turn.
    pub fn in_range(self, turn: Turn) -> bool
        ensures { result ≡ in_range self turn }
    {
        match self {
            Step::Copy { to, from } => to.0 < REGISTERS && from.0 < REGISTERS,
            Step::Set { to, number: _ } => to.0 < REGISTERS,
            Step::Fetch { to, from } => to.0 < REGISTERS && from.0 < LOCAL_SLOTS,
            Step::Back { to, from } => to.0 < REGISTERS && from.0 < turn.slots(),
            Step::Store { to, from } => to.0 < turn.slots() && from.0 < REGISTERS,
            Step::Keep { to, from } => to.0 < LOCAL_SLOTS && from.0 < REGISTERS,
            Step::Reserve { bytes } | Step::Pop { bytes } => {
                bytes % RESERVE_UNIT == 0 && RESERVE_UNIT <= bytes && bytes <= RESERVE_LIMIT
            }
            Step::Call {
                routine: _,
                lost: _,
            } => true,
        }
    }
}

// The step's name, then its operands in the order in which a tape has them; a call's lost set is left out.
impl fmt::Display for Step {
    ghost output = { λ p. Some (step_text p) };

    fn fmt<W: fmt::Write>(&self, f: &mut fmt::Formatter<W>) -> fmt::Result {
        match *self {
            Step::Copy {
                to: Register(to),
                from: Register(from),
            } => write!(f, "copy {to} {from}"),
            Step::Set {
                to: Register(to),
                number,
            } => write!(f, "set {to} {number}"),
            Step::Fetch {
                to: Register(to),
                from: LocalSlot(from),
            } => write!(f, "fetch {to} {from}"),
            Step::Back {
                to: Register(to),
                from: OutgoingSlot(from),
            } => write!(f, "back {to} {from}"),
            Step::Store {
                to: OutgoingSlot(to),
                from: Register(from),
            } => write!(f, "store {to} {from}"),
            Step::Keep {
                to: LocalSlot(to),
                from: Register(from),
            } => write!(f, "keep {to} {from}"),
            Step::Reserve { bytes } => write!(f, "reserve {bytes}"),
            Step::Call { routine, lost: _ } => write!(f, "call {routine}"),
            Step::Pop { bytes } => write!(f, "pop {bytes}"),
        }
    }
}
