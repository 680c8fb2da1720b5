// What a step does to many cells at once.
ghost use Rattle.std.specs.Prelude.{◌≡◌, ◌+◌, ◌-◌, ◌≤◌, take};
ghost use Rattle.machine.specs.Effects.{lose};
ghost use Rattle.bench.specs.Cells.{call_words, cell_count, copied, wiped};
ghost use Rattle.bench.specs.Benches.{Rewritten};

use crate::benches::Bench;
use crate::kinds::WordKind;
use crate::limits::*;
use machine::limits::REGISTERS;
use machine::places::{Register, RegisterSet};

// The cells from one place on up to another.
#[derive(Clone, Copy)]
pub(super) struct Area {
    pub(super) start: usize,
    pub(super) end: usize,
    ghost ordered: { start ≤ end },
    ghost inside: { end ≤ cell_count },
}

impl<'a, W: WordKind> Bench<'a, W> {
    // Makes the cells of the area unknown, and keeps those before them.
    pub(super) fn wipe(&mut self, area: Area)
        ensures words { Rewritten W.stands (wiped area.start (area.end - area.start)) self.old self.new }
        ensures before { take area.start self.new.cells.now ≡ take area.start self.old.cells.now }
    {
        let unknown = W::unknown();
        // `fill` asks that a clone cannot fail, which a word kind does not say
        self.cells[area.start..area.end].fill_with(|| unknown);
    }

    // Copies the cells of the area over those from `to` on.
    pub(super) fn copy_area(&mut self, area: Area, to: usize)
        requires { to + (area.end - area.start) ≤ cell_count }
        ensures { Rewritten W.stands (copied area.start to (area.end - area.start)) self.old self.new }
    {
        self.cells.copy_within(area.start..area.end, to);
    }

    // Makes the registers of the set unknown.
    pub(super) fn lose_registers(&mut self, lost: RegisterSet)
        ensures { Rewritten W.stands (lose lost.0) self.old self.new }
    {
        // tried over the first cells by `iter_mut` and `enumerate`: goals without a name stay open
        for r in 0..REGISTERS {
            if lost.contains(Register(r)) {
                self.cells[r as usize] = W::unknown();
            }
        }
    }

    // Records the registers and outgoing slots as seen, and then loses what a call loses.
    pub(super) fn record_call(&mut self, lost: RegisterSet)
        ensures { Rewritten W.stands (call_words lost.0) self.old self.new }
    {
        self.copy_area(
            Area {
                start: 0,
                end: LOCALS,
            },
            SEEN_REGISTERS,
        );
        let outgoing = Area {
            start: OUTGOING,
            end: SEEN_REGISTERS,
        };
        self.copy_area(outgoing, SEEN_OUTGOING);
        self.wipe(outgoing);
        self.lose_registers(lost);
    }
}
