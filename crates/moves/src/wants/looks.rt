// Looking for a source among the wants.
ghost use Rattle.std.specs.Prelude.{◌≡◌};
ghost use Rattle.least.specs.Counts.{is_value};
ghost use Rattle.order.specs.Order.{spreads};
ghost use Rattle.order.specs.Wants.{is_source, lowest_register, lowest_slot};
ghost use Rattle.moves.specs.Wants.{register_number, slot_number, wants_in};

use crate::wants::Wants;
use conventions::arguments::Source;
use machine::places::{OutgoingSlot, Register};

// Whether the source is a number or a local slot.
pub(crate) fn is_value(source: Source) -> bool
    ensures { result ≡ is_value source }
{
    match source {
        Source::Number(_) | Source::Local(_) => true,
        Source::Register(_) => false,
    }
}

// A register and an outgoing slot are never taken for one another: what is asked of either is a function of its own. A table generic in its keys would
// be no plainer: it would add two functions and keep these four.
impl Wants {
    // What a register is to hold.
    pub(crate) fn register(&self, register: Register) -> Option<Source>
        ensures { result ≡ (wants_in self.now).register register.0 }
    {
        self.by_register.get(register.0 as usize).copied().flatten()
    }

    // What an outgoing slot is to hold.
    pub(crate) fn outgoing(&self, slot: OutgoingSlot) -> Option<Source>
        ensures { result ≡ (wants_in self.now).outgoing slot.0 }
    {
        self.by_slot.get(slot.0 as usize).copied().flatten()
    }

    // The lowest register that wants the source.
    pub(crate) fn lowest_register(&self, source: Source) -> Option<Register>
        ensures { register_number result ≡ lowest_register (wants_in self.now) source }
    {
        self.by_register
            .iter()
            .position(|want| *want == Some(source))
            .map(|r| Register(r as u8))
    }

    // The lowest outgoing slot that wants the source.
    pub(crate) fn lowest_slot(&self, source: Source) -> Option<OutgoingSlot>
        ensures { slot_number result ≡ lowest_slot (wants_in self.now) source }
    {
        self.by_slot
            .iter()
            .position(|want| *want == Some(source))
            .map(|o| OutgoingSlot(o as u16))
    }

    // Whether an outgoing slot wants the source.
    pub(crate) fn slot_wants(&self, slot: OutgoingSlot, source: Source) -> bool
        ensures { result ≡ is_source ((wants_in self.now).outgoing slot.0) source }
    {
        self.outgoing(slot) == Some(source)
    }

    // Whether the slot is the lowest of a number or local slot that no register wants.
    pub(crate) fn spreads(&self, slot: OutgoingSlot, source: Source) -> bool
        ensures { result ≡ spreads (wants_in self.now) slot.0 source }
    {
        is_value(source)
            && self.lowest_register(source).is_none()
            && self.lowest_slot(source) == Some(slot)
    }
}
