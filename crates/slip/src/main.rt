// A routine is to be called with two wheel speeds exchanged. The right list of steps and the old wrong
// one go to a tape, are read back, and run on the trial wheel, on a slipping wheel and on origins.
#![tactic(auto)]

use machine::places::{Register, RegisterSet};
use machine::steps::Step;

mod lists;
mod wheels;

use lists::{read_back, tape_of};
use wheels::show_runs;

// the routine, and the registers that a call of it loses
const ROUTINE: u32 = 7;

const LOST: RegisterSet = RegisterSet(0x0000_0FC7);
// the registers of the two speeds, and one that holds a speed on the way
const FIRST: Register = Register(6);

const SECOND: Register = Register(7);

const SCRATCH: Register = Register(11);

// each speed goes to the other's register
const RIGHT: [Step; 4] = [
    Step::Copy {
        to: SCRATCH,
        from: FIRST,
    },
    Step::Copy {
        to: FIRST,
        from: SECOND,
    },
    Step::Copy {
        to: SECOND,
        from: SCRATCH,
    },
    Step::Call {
        routine: ROUTINE,
        lost: LOST,
    },
];

// the old list: one speed is copied over the other
const WRONG: [Step; 3] = [
    Step::Copy {
        to: FIRST,
        from: SECOND,
    },
    Step::Copy {
        to: SECOND,
        from: FIRST,
    },
    Step::Call {
        routine: ROUTINE,
        lost: LOST,
    },
];

fn main(rt: HostRuntime) -> anyhow::Result<()> {
    show(&rt)
}

fn show(rt: &(impl Print + AllocGlobal)) -> anyhow::Result<()> {
    println!(rt; "Routine {ROUTINE} is to see the speeds in registers 6 and 7 exchanged.")?;
    println!(rt; "\nThe right list:")?;
    show_list(rt, &RIGHT)?;
    println!(rt; "\nThe old list:")?;
    show_list(rt, &WRONG)
}

// The list goes to a tape, and what is read back from it is run.
fn show_list(rt: &(impl Print + AllocGlobal), steps: &[Step]) -> anyhow::Result<()> {
    let tape = tape_of(rt, steps)?;
    let read = read_back(rt, &tape)?;
    show_runs(rt, &read)
}
