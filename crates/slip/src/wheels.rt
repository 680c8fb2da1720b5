// A list of steps run on wheels and on origins, and what the routine saw.
ghost use Rattle.std.specs.Prelude.{◌≡◌, length, slice_set};
ghost use Rattle.machine.specs.declared.words.Word.TheVariants.{Number};
ghost use Rattle.bench.specs.Cells.{cell_count};
ghost use Rattle.slip.specs.Seeing.{Saw, first_speed, second_speed};

use crate::{FIRST, SECOND};
use bench::benches::Bench;
use bench::benches::opens::own_origins;
use bench::kinds::WordKind;
use bench::limits::CELLS;
use bench::origins::Origin;
use machine::emitters::give;
use machine::refusals::Refusal;
use machine::steps::Step;
use machine::words::Word;
use std::fmt;

// a wheel's two speeds, in millimetres a second
#[derive(Clone, Copy)]
struct Wheel {
    first: u64,
    second: u64,
}

const TRIAL: Wheel = Wheel {
    first: 1200,
    second: 1200,
};

const SLIPPING: Wheel = Wheel {
    first: 1200,
    second: 900,
};

// What the routine saw of the two speeds.
#[derive(Clone, Copy)]
pub struct Seen<W> {
    pub routine: u32,
    pub first: W,
    pub second: W,
}

// Runs the steps on a bench over the cells, and tells what the latest call found.
fn see<W: WordKind>(cells: &mut [W], steps: &[Step]) -> Result<Seen<W>, Refusal>
    ensures { Saw W.stands steps.now cells.old result }
{
    Bench::check(cells)?;
    let mut bench = Bench::make(cells);
    give(&mut bench, steps)?;
    Ok(Seen {
        routine: bench.seen_routine(),
        first: bench.seen_register(FIRST).unwrap(),
        second: bench.seen_register(SECOND).unwrap(),
    })
}

// The steps on both wheels and on origins; on origins the speeds are named by their registers.
pub(crate) fn show_runs(rt: &(impl Print + AllocGlobal), steps: &[Step]) -> anyhow::Result<()> {
    show_wheel(rt, "trial wheel", TRIAL, steps)?;
    show_wheel(rt, "slipping wheel", SLIPPING, steps)?;
    show_origins(rt, steps)
}

fn show_wheel(
    rt: &(impl Print + AllocGlobal),
    name: &str,
    wheel: Wheel,
    steps: &[Step],
) -> anyhow::Result<()> {
    let mut cells = vec![in rt.alloc(); Word::Unknown; CELLS]?;
    load(&mut cells, wheel);
    let seen = see(&mut cells, steps)?;
    let Wheel { first, second } = wheel;
    let (here, there) = (FIRST.0, SECOND.0);
    println!(rt; "  on the {name}, {here} = {first} and {there} = {second} mm/s:")?;
    show_seen(rt, seen, Word::Number(second), Word::Number(first))
}

// Puts a wheel's speeds into the registers, where the cells are enough.
fn load(cells: &mut [Word], wheel: Wheel)
    ensures { length cells.old ≡ cell_count → cells.new ≡ slice_set (slice_set cells.old first_speed (Number wheel.first)) second_speed (Number wheel.second) }
{
    if cells.len() == CELLS {
        cells[FIRST.0 as usize] = Word::Number(wheel.first);
        cells[SECOND.0 as usize] = Word::Number(wheel.second);
    }
}

fn show_origins(rt: &(impl Print + AllocGlobal), steps: &[Step]) -> anyhow::Result<()> {
    let mut cells = vec![in rt.alloc(); Origin::Unknown; CELLS]?;
    own_origins(&mut cells)?;
    let seen = see(&mut cells, steps)?;
    println!(rt; "  on origins, which stand for every start:")?;
    show_seen(rt, seen, Origin::Register(SECOND), Origin::Register(FIRST))
}

// Prints what the routine saw, and whether that is what it is to see.
fn show_seen<W: fmt::Display + PartialEq + Copy>(
    rt: &impl Print,
    seen: Seen<W>,
    first_asked: W,
    second_asked: W,
) -> anyhow::Result<()> {
    let Seen {
        routine,
        first,
        second,
    } = seen;
    let (here, there) = (FIRST.0, SECOND.0);
    let judgement = if first == first_asked && second == second_asked {
        "as asked"
    } else {
        "wrong"
    };
    println!(rt; "    routine {routine} saw {here} = {first} and {there} = {second}: {judgement}")?;
    Ok(())
}
