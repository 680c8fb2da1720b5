// Opening a bench, and cells that are their own origins.
ghost use Rattle.std.specs.Prelude.{◌≡◌, length};
ghost use Rattle.bench.specs.Cells.{cell_count, judged_cells};
ghost use Rattle.bench.specs.Benches.{Opened};
ghost use Rattle.bench.specs.Origins.{OwnOrigins};

use crate::benches::Bench;
use crate::benches::cells::Area;
use crate::kinds::WordKind;
use crate::limits::*;
use crate::origins::Origin;
use machine::places::{LocalSlot, Register};
use machine::refusals::Refusal;
use machine::turns::Turn;

impl<'a, W: WordKind> Bench<'a, W> {
    // Whether the cells are as many as a bench takes.
    pub fn check(cells: &[W]) -> Result<(), Refusal>
        ensures { result ≡ judged_cells (length cells.now) }
    {
        if cells.len() == CELLS {
            Ok(())
        } else {
            Err(Refusal::WrongCells)
        }
    }

    // A new bench over cells that passed the check: it keeps the registers and local slots, and makes
    // the other cells unknown.
    pub fn make(cells: &'a mut [W]) -> Bench<'a, W>
        requires { length cells.old ≡ cell_count }
        ensures opened { Opened W.stands cells.old result }
        ensures lent { result.cells.ghost_name ≡ cells.entry.ghost_name }
    {
        let mut bench = Bench {
            cells,
            turn: Turn::Bare,
            calls: 0,
            routine: 0,
            taken: 0,
        };
        bench.wipe(Area {
            start: OUTGOING,
            end: CELLS,
        });
        bench
    }
}

// Makes the registers and local slots their own origins, and the other cells unknown.
pub fn own_origins(cells: &mut [Origin]) -> Result<(), Refusal>
    ensures answer { result ≡ judged_cells (length cells.old) }
    ensures cells { OwnOrigins result cells.old cells.new }
{
    Bench::check(cells)?;
    let (registers, others) = cells.split_at_mut(LOCALS);
    let (locals, others) = others.split_at_mut(OUTGOING - LOCALS);
    for (r, register) in registers.iter_mut().enumerate() {
        *register = Origin::Register(Register(r as u8));
    }
    for (n, local) in locals.iter_mut().enumerate() {
        *local = Origin::Local(LocalSlot(n as u16));
    }
    others.fill(Origin::Unknown);
    Ok(())
}
