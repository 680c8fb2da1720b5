// Handle first: a convention over another one, which passes a handle in a hidden argument before those given.
ghost use Rattle.std.specs.Prelude.{◌≡◌};
ghost use Rattle.conventions.specs.Handles.{handle_first};
ghost use Rattle.conventions.specs.Hiding.{handle_first_lawful};

use crate::arguments::{Place, Source};
use crate::conventions::Convention;
use crate::limits::ARGUMENTS;
use machine::places::{LocalSlot, Register, RegisterSet};

#[derive(Clone, Copy)]
pub struct HandleFirst<C> {
    below: C,
}

impl<C> HandleFirst<C> {
    pub fn over(below: C) -> HandleFirst<C>
        ensures { result.below ≡ below }
    {
        HandleFirst { below }
    }
}

impl<C: Convention> Convention for HandleFirst<C> {
    ghost answers = { λ h. handle_first (C.Convention.answers h.below) };

    ghost lawful = { λ h. handle_first_lawful (C.Convention.answers h.below) (C.Convention.lawful h.below) };

    fn hidden(&self) -> u8 {
        self.below.hidden().saturating_add(1).min(ARGUMENTS + 1)
    }

    fn hidden_place(&self, i: u8) -> Place {
        if i == self.below.hidden() {
            self.below.place(0)
        } else {
            self.below.hidden_place(i)
        }
    }

    fn hidden_source(&self, i: u8) -> Source {
        if i == self.below.hidden() {
            Source::Local(LocalSlot(0))
        } else {
            self.below.hidden_source(i)
        }
    }

    fn place(&self, i: u8) -> Place {
        self.below.place(i.saturating_add(1))
    }

    fn slots(&self, n: u8) -> u16 {
        self.below.slots(n.saturating_add(1))
    }

    fn scratch(&self) -> Register {
        self.below.scratch()
    }

    fn usable(&self) -> RegisterSet {
        self.below.usable()
    }

    fn lost(&self) -> RegisterSet {
        self.below.lost()
    }
}
