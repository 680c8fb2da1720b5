// What comes next while moves between registers are pending.
use machine::places::{OutgoingSlot, Register};

#[derive(Clone, Copy)]
pub(crate) enum Choice {
    // a register that no pending move reads takes its source
    Take(Register),
    // a ring is opened: the reader of the register is turned to the outgoing slot that holds it
    Reload(Register, OutgoingSlot),
    // a ring is opened through the scratch
    Spill(Register),
}
