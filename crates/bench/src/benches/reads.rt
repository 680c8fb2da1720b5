// What a bench tells of the latest call step.
ghost use Rattle.std.specs.Prelude.{◌≡◌, ◌+◌, ◌-◌};
ghost use Rattle.machine.specs.Limits.{outgoing_slots, registers};
ghost use Rattle.machine.specs.Words.{Start};
ghost use Rattle.bench.specs.Benches.{Told, bench_meaning};
ghost use Rattle.bench.specs.Cells.{words};

use crate::benches::Bench;
use crate::benches::cells::Area;
use crate::kinds::WordKind;
use crate::limits::*;
use machine::places::{OutgoingSlot, Register};

impl<'a, W: WordKind> Bench<'a, W> {
    // How many call steps were taken.
    pub fn calls(&self) -> u32
        ensures { (s : Start) → result ≡ ((bench_meaning W.stands).state self.now s).calls }
    {
        self.calls
    }

    // The routine of the latest call step, or 0; no `Option`, since the rules give a start's seen call routine 0, and a public answer keeps its meaning.
    pub fn seen_routine(&self) -> u32
        ensures { (s : Start) → result ≡ ((bench_meaning W.stands).state self.now s).seen.routine }
    {
        self.routine
    }

    // What the latest call step found in a register; none where there is no such register.
    pub fn seen_register(&self, register: Register) -> Option<W>
        ensures { Told W.stands registers (λ s. ((bench_meaning W.stands).state self.now s).seen.register) register.0 result }
    {
        self.seen(
            Area {
                start: SEEN_REGISTERS,
                end: SEEN_OUTGOING,
            },
            register.0 as usize,
        )
    }

    // What the latest call step found in an outgoing slot; none where there is no such slot.
    pub fn seen_outgoing(&self, slot: OutgoingSlot) -> Option<W>
        ensures { Told W.stands outgoing_slots (λ s. ((bench_meaning W.stands).state self.now s).seen.outgoing) slot.0 result }
    {
        self.seen(
            Area {
                start: SEEN_OUTGOING,
                end: CELLS,
            },
            slot.0 as usize,
        )
    }

    // What the cell at a place of the area holds; none where the area has no such place.
    fn seen(&self, area: Area, place: usize) -> Option<W>
        ensures { Told W.stands (area.end - area.start) (λ s i. words (λ c. W.stands c s) self.now.cells.now (area.start + i)) place result }
    {
        self.cells[area.start..area.end].get(place).copied()
    }
}
