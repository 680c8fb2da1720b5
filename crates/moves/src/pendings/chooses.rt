// Choosing what comes next.
ghost use Rattle.std.specs.Prelude.{◌≡◌, ◌<◌, length};
ghost use Rattle.machine.specs.Limits.{registers};
ghost use Rattle.order.specs.Indices.{first};
ghost use Rattle.order.specs.Tables.{choose, is_free, opening, pending};
ghost use Rattle.moves.specs.Tables.{Marked, choice_in, held, read_by, table_in};
ghost use Rattle.moves.specs.Wants.{register_number, wants_in};

use crate::choices::Choice;
use crate::pendings::PendingMoves;
use crate::wants::Wants;
use conventions::arguments::{Place, Source};
use machine::limits::REGISTERS;
use machine::places::Register;

impl PendingMoves {
    // The register that a pending move reads.
    fn read_by(&self, register: Register) -> Option<Register>
        ensures { register_number result ≡ read_by (table_in self.now) register.0 }
    {
        match self.source(register) {
            Place::Register(read) if read != register && read.0 < REGISTERS => Some(read),
            _ => None,
        }
    }

    // Whether each register is read by a pending move.
    fn read_registers(&self) -> [bool; REGISTERS as usize]
        ensures { Marked (table_in self.now) registers result }
    {
        let mut read = [false; REGISTERS as usize];
        // tried over `filter_map`: the goals then speak of the iterator's inner steps, and the proof did not close
        for e in 0..REGISTERS {
            if let Some(register) = self.read_by(Register(e)) {
                read[register.0 as usize] = true;
            }
        }
        read
    }

    // The lowest pending register that no pending move reads.
    fn lowest_free(&self) -> Option<Register>
        ensures { register_number result ≡ first (is_free (table_in self.now)) registers }
    {
        let read = self.read_registers();
        (0..REGISTERS)
            .find(
                |&d|
                    requires { d < length read }
                { self.is_pending(Register(d)) && !read[d as usize] },
            )
            .map(Register)
    }

    fn lowest_pending(&self) -> Option<Register>
        ensures { register_number result ≡ first (pending (table_in self.now)) registers }
    {
        (0..REGISTERS)
            .find(|d| self.is_pending(Register(*d)))
            .map(Register)
    }

    // The lowest pending register that an outgoing slot holds.
    fn lowest_held(&self, wants: &Wants) -> Option<Register>
        ensures { register_number result ≡ first (held (wants_in wants.now) (table_in self.now)) registers }
    {
        (0..REGISTERS)
            .find(|d| {
                let register = Register(*d);
                self.is_pending(register) && wants.lowest_slot(Source::Register(register)).is_some()
            })
            .map(Register)
    }

    // Where every pending register is read: the lowest that an outgoing slot holds, or else the lowest.
    fn opening(&self, wants: &Wants) -> Option<Choice>
        ensures { choice_in result ≡ opening (wants_in wants.now) (table_in self.now) }
    {
        match self.lowest_held(wants) {
            Some(register) => {
                let slot = wants.lowest_slot(Source::Register(register)).unwrap();
                Some(Choice::Reload(register, slot))
            }
            None => self.lowest_pending().map(Choice::Spill),
        }
    }

    // The lowest pending register that is not read, or else how a ring is opened; none where nothing is pending.
    pub(crate) fn choose(&self, wants: &Wants) -> Option<Choice>
        ensures { choice_in result ≡ choose (wants_in wants.now) (table_in self.now) }
    {
        self.lowest_free()
            .map(Choice::Take)
            .or_else(|| self.opening(wants))
    }
}
