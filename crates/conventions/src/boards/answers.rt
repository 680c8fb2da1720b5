// What a board answers of a call.
ghost use Rattle.conventions.specs.Boards.{board_answers};
ghost use Rattle.conventions.specs.Tables.{numbers};
ghost use Rattle.conventions.specs.TablesLemmas.{registers_first_lawful};

use crate::arguments::{Place, Source};
use crate::boards::Board;
use crate::conventions::Convention;
use machine::places::{OutgoingSlot, Register, RegisterSet};

impl Convention for Board {
    ghost answers = { board_answers };

    ghost lawful = { λ b. registers_first_lawful (numbers b.count b.registers) _ _ _ b.different b.held b.ranged b.reserved };

    fn hidden(&self) -> u8 {
        0
    }

    fn hidden_place(&self, _i: u8) -> Place {
        Place::Register(Register(0))
    }

    fn hidden_source(&self, _i: u8) -> Source {
        Source::Number(0)
    }

    fn place(&self, i: u8) -> Place {
        if i < self.count {
            Place::Register(self.registers[i as usize])
        } else {
            Place::Outgoing(OutgoingSlot((i - self.count) as u16))
        }
    }

    fn slots(&self, n: u8) -> u16 {
        n.saturating_sub(self.count) as u16
    }

    fn scratch(&self) -> Register {
        self.scratch
    }

    fn usable(&self) -> RegisterSet {
        self.usable
    }

    fn lost(&self) -> RegisterSet {
        self.lost
    }
}
