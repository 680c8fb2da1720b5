// A small convention with hidden arguments, and calls under it, worked by hand.
ghost use Rattle.plan_trials.specs.Conventions.{hiding};
ghost use Rattle.std.proofs.Common.{rules};

use crate::plans::{each_planned, plan};
use conventions::arguments::{Place, Source};
use conventions::conventions::Convention;
use conventions::handles::HandleFirst;
use machine::places::{LocalSlot, OutgoingSlot, Register, RegisterSet};
use shorts::{sources, steps};
use std::test::Fail;

// Hidden: register 0 from register 2, register 1 from a number, outgoing slot 0 from local slot 4.
// Given: register 2, then outgoing slots from 1 up. The scratch is register 3.
#[derive(Clone, Copy)]
pub struct Hiding;

impl Convention for Hiding {
    ghost answers = { λ _. hiding };

    ghost lawful = { Prim.search rules };

    fn hidden(&self) -> u8 {
        3
    }

    fn hidden_place(&self, i: u8) -> Place {
        if i < 2 {
            Place::Register(Register(i))
        } else {
            Place::Outgoing(OutgoingSlot(0))
        }
    }

    fn hidden_source(&self, i: u8) -> Source {
        match i {
            0 => Source::Register(Register(2)),
            1 => Source::Number(9),
            _ => Source::Local(LocalSlot(4)),
        }
    }

    fn place(&self, i: u8) -> Place {
        if i == 0 {
            Place::Register(Register(2))
        } else {
            Place::Outgoing(OutgoingSlot(i as u16))
        }
    }

    fn slots(&self, n: u8) -> u16 {
        n.max(1) as u16
    }

    fn scratch(&self) -> Register {
        Register(3)
    }

    fn usable(&self) -> RegisterSet {
        RegisterSet(0b0111)
    }

    fn lost(&self) -> RegisterSet {
        RegisterSet(0b1111)
    }
}

#[test]
fn hidden_arguments(rt: HostRuntime) -> Result<(), Fail> {
    each_planned(
        &rt,
        &Hiding,
        &[
            (
                sources!(),
                plan(16, 3, 0, 1),
                steps!(fetch 3 4, store 0 3, copy 0 2, set 1 9),
            ),
            // a ring through the hidden argument in register 0
            (
                sources!(r 0),
                plan(16, 4, 1, 1),
                steps!(fetch 3 4, store 0 3, copy 3 0, copy 0 2, copy 2 3, set 1 9),
            ),
            // the ring is opened by what is stored
            (
                sources!(r 0, r 2),
                plan(16, 5, 0, 1),
                steps!(store 1 2, fetch 3 4, store 0 3, copy 2 0, back 0 1, set 1 9),
            ),
            // given what hidden arguments come from
            (
                sources!(r 2, k 9, l 4),
                plan(32, 5, 0, 1),
                steps!(fetch 3 4, store 0 3, store 2 3, copy 0 2, set 1 9, store 1 1),
            ),
        ],
    )
}

#[test]
fn handle_after_hidden_arguments(rt: HostRuntime) -> Result<(), Fail> {
    each_planned(
        &rt,
        &HandleFirst::over(Hiding),
        &[
            (
                sources!(),
                plan(16, 4, 0, 1),
                steps!(fetch 3 4, store 0 3, copy 0 2, set 1 9, fetch 2 0),
            ),
            (
                sources!(r 0),
                plan(16, 5, 0, 1),
                steps!(store 1 0, fetch 3 4, store 0 3, copy 0 2, set 1 9, fetch 2 0),
            ),
        ],
    )
}

// The second handle goes to outgoing slot 1.
#[test]
fn two_handles_after_hidden_arguments(rt: HostRuntime) -> Result<(), Fail> {
    each_planned(
        &rt,
        &HandleFirst::over(HandleFirst::over(Hiding)),
        &[
            (
                sources!(),
                plan(16, 5, 0, 1),
                steps!(fetch 3 4, store 0 3, copy 0 2, set 1 9, fetch 2 0, store 1 2),
            ),
            (
                sources!(l 0, r 1),
                plan(32, 7, 0, 1),
                steps!(store 3 1, fetch 3 4, store 0 3, copy 0 2, set 1 9, fetch 2 0, store 1 2, store 2 2),
            ),
        ],
    )
}
