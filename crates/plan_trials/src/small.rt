// A small convention without hidden arguments, and the least counts under it.
ghost use Rattle.plan_trials.specs.Conventions.{small};
ghost use Rattle.std.proofs.Common.{rules};

use crate::least_counts::LEAST_COUNTS;
use crate::lists::listing;
use crate::plans::planned;
use conventions::arguments::{Place, Source};
use conventions::conventions::Convention;
use machine::places::{OutgoingSlot, Register, RegisterSet};
use std::process::Abort;
use std::test::Fail;

// Registers 0 to 2, then outgoing slots; the scratch is register 3.
#[derive(Clone, Copy)]
pub struct Small;

// The small convention and the one with hidden arguments answer alike in part; each is written whole, to be read by itself.
impl Convention for Small {
    ghost answers = { λ _. small };

    ghost lawful = { Prim.search rules };

    fn hidden(&self) -> u8 {
        0
    }

    fn hidden_place(&self, _i: u8) -> Place {
        Place::Register(Register(0))
    }

    fn hidden_source(&self, _i: u8) -> Source {
        Source::Number(0)
    }

    fn place(&self, i: u8) -> Place {
        if i < 3 {
            Place::Register(Register(i))
        } else {
            Place::Outgoing(OutgoingSlot((i - 3) as u16))
        }
    }

    fn slots(&self, n: u8) -> u16 {
        n.saturating_sub(3) as u16
    }

    fn scratch(&self) -> Register {
        Register(3)
    }

    fn usable(&self) -> RegisterSet {
        RegisterSet(0b0111)
    }

    fn lost(&self) -> RegisterSet {
        RegisterSet(0b1111)
    }
}

// The call has so many moves, which are N + C + M.
fn least(rt: &impl Abort, sources: &[Source], count: usize) -> Result<(), Fail> {
    let (plan, moves) = planned(rt, &Small, &listing(sources)?)?;
    assert_eq!(rt; moves.steps().len(), count, "{sources:?}");
    assert_eq!(rt;
        plan.needed as usize + plan.rings as usize + plan.values as usize,
        count,
        "{sources:?}"
    );
    Ok(())
}

fn each_least(rt: &impl Abort, table: &[(&[Source], usize)]) -> Result<(), Fail> {
    for (sources, count) in table {
        least(rt, sources, *count)?;
    }
    Ok(())
}

#[test]
fn least_counts(rt: HostRuntime) -> Result<(), Fail> {
    each_least(&rt, LEAST_COUNTS)
}
