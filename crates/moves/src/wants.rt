// What each register and each outgoing slot is to hold, and the scratch register that serves to bring it about.
use conventions::arguments::Source;
use machine::limits::{OUTGOING_SLOTS, REGISTERS};
use machine::places::Register;

mod fills;
mod looks;

pub(crate) use looks::is_value;

// The source of the argument in each register, and in each outgoing slot; and the scratch register. Contracts speak of it by `wants_in`: a model's value
// cannot hold functions today.
#[derive(Clone, Copy)]
pub(crate) struct Wants {
    by_register: [Option<Source>; REGISTERS as usize],
    by_slot: [Option<Source>; OUTGOING_SLOTS as usize],
    pub(crate) scratch: Register,
}
