// Moves run on a bench of origins.
use bench::benches::Bench;
use bench::benches::opens::own_origins;
use bench::origins::Origin;
use conventions::arguments::{Argument, Place, Source};
use machine::emitters::{Emitter, give};
use machine::places::RegisterSet;
use machine::steps::Step;
use std::process::Abort;
use std::test::Fail;

// The origin of a source; a function, since neither type is of this crate, which `From` asks for.
fn origin(source: Source) -> Origin {
    match source {
        Source::Number(number) => Origin::Number(number),
        Source::Register(register) => Origin::Register(register),
        Source::Local(slot) => Origin::Local(slot),
    }
}

// What the latest call found at a place.
fn seen(bench: &Bench<Origin>, place: Place) -> Option<Origin> {
    match place {
        Place::Register(register) => bench.seen_register(register),
        Place::Outgoing(slot) => bench.seen_outgoing(slot),
    }
}

// A call with so many bytes reserved finds each argument's source at its place, once the moves are done.
pub(crate) fn lands(
    rt: &impl Abort,
    bytes: u16,
    moves: &[Step],
    arguments: &[Argument],
) -> Result<(), Fail> {
    let mut cells = [Origin::Unknown; 1152];
    own_origins(&mut cells)?;
    let mut bench = Bench::make(&mut cells);
    if bytes > 0 {
        bench.take(Step::Reserve { bytes })?;
    }
    give(&mut bench, moves)?;
    bench.take(Step::Call {
        routine: 0,
        lost: RegisterSet(0),
    })?;
    for argument in arguments {
        assert_eq!(rt; seen(&bench, argument.place), Some(origin(argument.source)));
    }
    Ok(())
}
