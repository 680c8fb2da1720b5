// The parts of the order that go through the registers or the outgoing slots, upwards.
ghost use Rattle.std.specs.Prelude.{◌≡◌};
ghost use Rattle.machine.specs.Limits.{outgoing_slots};
ghost use Rattle.order.specs.Indices.{each};
ghost use Rattle.order.specs.Order.{bring, load, loaded_registers, spread_value, spread_values, store_held, store_loaded, store_scratch, stored_registers, stored_values};
ghost use Rattle.moves.specs.Lists.{Adds, HasRoom, moves_in, optional};
ghost use Rattle.moves.specs.Parts.{Spread, spread_steps};
ghost use Rattle.moves.specs.Wants.{wants_in};

use crate::lists::MoveList;
use crate::wants::{Wants, is_value};
use conventions::arguments::Source;
use machine::limits::{OUTGOING_SLOTS, REGISTERS};
use machine::places::{OutgoingSlot, Register};
use machine::steps::Step;

// The step that brings a source to a register.
fn bring(to: Register, source: Source) -> Step
    ensures { result ≡ bring to.0 source }
{
    match source {
        Source::Number(number) => Step::Set { to, number },
        Source::Register(from) => Step::Copy { to, from },
        Source::Local(from) => Step::Fetch { to, from },
    }
}

// A slot with a register source is stored.
fn store_held(to: OutgoingSlot, want: Option<Source>) -> Option<Step>
    ensures { optional result ≡ store_held to.0 want }
{
    match want {
        Some(Source::Register(from)) => Some(Step::Store { to, from }),
        Some(Source::Number(_) | Source::Local(_)) | None => None,
    }
}

// A register with a number or local slot as its source takes it.
fn load(to: Register, want: Option<Source>) -> Option<Step>
    ensures { optional result ≡ load to.0 want }
{
    want.filter(|source| is_value(*source))
        .map(|source| bring(to, source))
}

impl Wants {
    // The scratch is stored to a slot that wants the source.
    fn store_scratch(&self, source: Source, to: OutgoingSlot) -> Option<Step>
        ensures { optional result ≡ store_scratch (wants_in self.now) self.now.scratch.0 source to.0 }
    {
        self.slot_wants(to, source).then_some(Step::Store {
            to,
            from: self.scratch,
        })
    }

    // A slot with a number or local slot that a register wants too is stored from the lowest such register.
    fn store_loaded(&self, to: OutgoingSlot) -> Option<Step>
        ensures { optional result ≡ store_loaded (wants_in self.now) to.0 ((wants_in self.now).outgoing to.0) }
    {
        let source = self.outgoing(to).filter(|source| is_value(*source))?;
        let from = self.lowest_register(source)?;
        Some(Step::Store { to, from })
    }

    // The number or local slot that is spread from its lowest slot: no register wants it.
    fn spread_from(&self, slot: OutgoingSlot) -> Option<Source>
        ensures { optional result ≡ spread_value (wants_in self.now) slot.0 ((wants_in self.now).outgoing slot.0) }
    {
        self.outgoing(slot)
            .filter(|source| self.spreads(slot, *source))
    }
}

impl Wants {
    // Stores each outgoing slot with a register source.
    pub(crate) fn store_registers(&self, moves: &mut MoveList)
        requires { HasRoom moves.old (stored_registers (wants_in self.now)) }
        ensures { Adds (stored_registers (wants_in self.now)) moves.old moves.new }
    {
        moves.push_each(OUTGOING_SLOTS, |o| {
            let slot = OutgoingSlot(o);
            store_held(slot, self.outgoing(slot))
        });
    }

    // Loads each register with a number or local slot as its source.
    pub(crate) fn load_registers(&self, moves: &mut MoveList)
        requires { HasRoom moves.old (loaded_registers (wants_in self.now)) }
        ensures { Adds (loaded_registers (wants_in self.now)) moves.old moves.new }
    {
        moves.push_each(REGISTERS as u16, |r| {
            let register = Register(r as u8);
            load(register, self.register(register))
        });
    }

    // Stores each outgoing slot whose number or local slot a register holds by now.
    pub(crate) fn store_values(&self, moves: &mut MoveList)
        requires { HasRoom moves.old (stored_values (wants_in self.now)) }
        ensures { Adds (stored_values (wants_in self.now)) moves.old moves.new }
    {
        moves.push_each(OUTGOING_SLOTS, |o| self.store_loaded(OutgoingSlot(o)));
    }

    // Stores the scratch to each slot that wants the source.
    fn store_all(&self, source: Source, moves: &mut MoveList)
        requires { HasRoom moves.old (each (store_scratch (wants_in self.now) self.now.scratch.0 source) outgoing_slots) }
        ensures { Adds (each (store_scratch (wants_in self.now) self.now.scratch.0 source) outgoing_slots) moves.old moves.new }
    {
        moves.push_each(OUTGOING_SLOTS, |o| {
            self.store_scratch(source, OutgoingSlot(o))
        });
    }

    // Brings a source to the scratch, and stores it to each of its slots.
    fn spread(&self, source: Source, moves: &mut MoveList)
        requires { HasRoom moves.old (spread_steps (wants_in self.now) self.now.scratch.0 source) }
        ensures { Adds (spread_steps (wants_in self.now) self.now.scratch.0 source) moves.old moves.new }
    {
        moves.push(bring(self.scratch, source));
        self.store_all(source, moves);
    }

    // Spreads each number and local slot that slots want and no register, and tells how many there are.
    pub(crate) fn spread_values(&self, moves: &mut MoveList) -> u8
        requires { HasRoom moves.old (spread_values (wants_in self.now) self.now.scratch.0) }
        ensures { Spread (wants_in self.now) self.now.scratch.0 (moves_in moves.old) (moves_in moves.new) result }
    {
        let mut values = 0;
        // over the slots' numbers, as in `read_registers`: over `filter_map` the proof did not close
        for o in 0..OUTGOING_SLOTS {
            if let Some(source) = self.spread_from(OutgoingSlot(o)) {
                self.spread(source, moves);
                values += 1;
            }
        }
        values
    }
}
