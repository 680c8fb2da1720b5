// Reading the table of pending moves, and turning readers.
ghost use Rattle.std.specs.Prelude.{◌≡◌};
ghost use Rattle.order.specs.Tables.{opening_table, pending, pending_source, turned};
ghost use Rattle.moves.specs.Tables.{table_in};
ghost use Rattle.moves.specs.Wants.{wants_in};

use crate::pendings::{PendingMove, PendingMoves};
use crate::wants::Wants;
use conventions::arguments::{Place, Source};
use machine::limits::REGISTERS;
use machine::places::Register;
use std::array;

// A register with another register as its source is pending; any other names itself.
fn pending_source(register: Register, want: Option<Source>) -> Place
    ensures { result ≡ pending_source register.0 want }
{
    match want {
        Some(Source::Register(source)) => Place::Register(source),
        Some(Source::Number(_) | Source::Local(_)) | None => Place::Register(register),
    }
}

impl PendingMoves {
    // The table that the moves begin with.
    pub(crate) fn of(wants: &Wants) -> PendingMoves
        ensures { table_in result ≡ opening_table (wants_in wants.now) }
    {
        PendingMoves {
            moves: array::from_fn(|r| {
                let register = Register(r as u8);
                PendingMove {
                    from: pending_source(register, wants.register(register)),
                }
            }),
        }
    }

    // The present source of a register.
    pub(crate) fn source(&self, register: Register) -> Place
        ensures { result ≡ table_in self.now register.0 }
    {
        self.moves
            .get(register.0 as usize)
            .map_or(Place::Register(register), |pending| pending.from)
    }

    pub(crate) fn is_pending(&self, register: Register) -> bool
        ensures { result ≡ pending (table_in self.now) register.0 }
    {
        self.source(register) != Place::Register(register)
    }

    // Turns the pending moves that read `from` to read `to`: a register's element is changed in place through `&mut self`, the form that the project asks for here.
    pub(crate) fn turn(&mut self, from: Place, to: Place)
        ensures { table_in self.new ≡ turned from to (table_in self.old) }
    {
        for r in 0..REGISTERS {
            if self.is_pending(Register(r)) && self.source(Register(r)) == from {
                self.moves[r as usize].from = to;
            }
        }
    }
}
