// An argument: the place where the routine expects it, and the source that it comes from.
use machine::places::{LocalSlot, OutgoingSlot, Register};

// where a routine expects an argument
#[derive(Clone, Copy, PartialEq, Eq, Debug)]
pub enum Place {
    Register(Register),
    Outgoing(OutgoingSlot),
}

// where an argument comes from
#[derive(Clone, Copy, PartialEq, Eq, Debug)]
pub enum Source {
    Number(u64),
    Register(Register),
    Local(LocalSlot),
}

#[derive(Clone, Copy, PartialEq, Eq, Debug)]
pub struct Argument {
    pub place: Place,
    pub source: Source,
}
