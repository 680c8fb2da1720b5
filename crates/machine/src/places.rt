// The places of the machine by their numbers. Each type holds any number of its width: whether a
// number is in range is asked where a step or an argument is judged.
ghost use Rattle.std.specs.Prelude.{◌≡◌};
ghost use Rattle.machine.specs.Places.{holds};

use crate::limits::REGISTERS;

// a register's number
#[derive(Clone, Copy, PartialEq, Eq, Debug)]
pub struct Register(pub u8);

// a local slot's number
#[derive(Clone, Copy, PartialEq, Eq, Debug)]
pub struct LocalSlot(pub u16);

// an outgoing slot's number: the slots of the reserved bytes, through which a call's later arguments go
#[derive(Clone, Copy, PartialEq, Eq, Debug)]
pub struct OutgoingSlot(pub u16);

// a set of registers: bit r stands for register r
#[derive(Clone, Copy, PartialEq, Eq, Debug)]
pub struct RegisterSet(pub u32);

impl RegisterSet {
    pub fn contains(self, register: Register) -> bool
        ensures { result ≡ holds self.0 register.0 }
    {
        register.0 < REGISTERS && (self.0 >> register.0) % 2 == 1
    }
}
