// The bench's type, with what every bench keeps.
ghost use Rattle.std.specs.Prelude.{◌≡◌, ◌≤◌, length};
ghost use Rattle.machine.specs.Limits.{reserve_limit};
ghost use Rattle.machine.specs.Turns.{held};
ghost use Rattle.bench.specs.Cells.{bench_steps, cell_count};

use machine::turns::Turn;

mod cells;
pub mod emits;
pub mod opens;
mod reads;

// A bench over lent cells: registers, local slots, outgoing slots, and the registers and outgoing slots
// that the latest call step found.
#[derive(Drop)]
pub struct Bench<'a, W> {
    cells: &'a mut [W],
    turn: Turn,
    // call steps taken
    calls: u32,
    // the routine of the latest call step
    routine: u32,
    // steps taken
    taken: u32,
    ghost whole: { length cells.now ≡ cell_count },
    ghost sized: { held turn ≤ reserve_limit },
    ghost few: { taken ≤ bench_steps },
    ghost counted: { calls ≤ taken },
}
