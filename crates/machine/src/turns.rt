// The turn: what a step may follow.
ghost use Rattle.std.specs.Prelude.{◌≡◌, ◌/◌};
ghost use Rattle.machine.specs.Turns.{held, moved, walked};
ghost use Rattle.machine.specs.Limits.{slot_bytes};

use crate::limits::SLOT_BYTES;
use crate::refusals::Refusal;
use crate::steps::Step;

// Bare: nothing is reserved. Reserved: so many bytes are reserved for a call. Called: the call was
// made, and these bytes are to be popped.
#[derive(Clone, Copy, PartialEq, Eq, Debug)]
pub enum Turn {
    Bare,
    Reserved(u16),
    Called(u16),
}

impl Turn {
    // How many outgoing slots are there.
    pub fn slots(self) -> u16
        ensures { result ≡ held self / slot_bytes }
    {
        match self {
            Turn::Bare => 0,
            Turn::Reserved(bytes) | Turn::Called(bytes) => bytes / SLOT_BYTES,
        }
    }

    // The turn that the step leaves, or why it is refused here, where there is no emitter yet: each emitter and the reader match the two in place, as the project asks.
    pub fn after(self, step: Step) -> Result<Turn, Refusal>
        ensures { result ≡ moved step self }
    {
        if !step.in_range(self) {
            return Err(Refusal::OutOfRange);
        }
        match (self, step) {
            (Turn::Bare, Step::Reserve { bytes }) => Ok(Turn::Reserved(bytes)),
            (Turn::Called(held), Step::Pop { bytes }) if bytes == held => Ok(Turn::Bare),
            (_, Step::Reserve { .. } | Step::Pop { .. }) | (Turn::Called(_), _) => Err(
                Refusal::OutOfTurn,
            ),
            (Turn::Reserved(held), Step::Call { .. }) => Ok(Turn::Called(held)),
            _ => Ok(self),
        }
    }

    // The turn that the steps leave, or why the first refused one is refused.
    pub fn after_all(self, steps: &[Step]) -> Result<Turn, Refusal>
        ensures { result ≡ walked steps.now self }
    {
        let mut turn = self;
        for step in steps {
            turn = turn.after(*step)?;
        }
        Ok(turn)
    }
}
