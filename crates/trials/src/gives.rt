// Tests of giving a list of steps: all of them or none, to a tape and to a bench.
use crate::cells::*;
use crate::tapes::{TAPE, all_nine, filled};
use bench::benches::Bench;
use machine::emitters::{Emitter, give};
use machine::refusals::Refusal;
use machine::steps::Step;
use shorts::step;
use std::process::Abort;
use std::test::Fail;
use tape::tapes::Tape;

// Each list is refused for its reason, and leaves the turn and the room as they were.
fn each_refused<E: Emitter>(rt: &impl Abort, emitter: &mut E, lists: &[(&[Step], Refusal)]) {
    let before = (emitter.turn(), emitter.room());
    for (steps, refusal) in lists {
        assert_eq!(rt; give(emitter, steps), Err(*refusal));
        assert_eq!(rt; (emitter.turn(), emitter.room()), before);
    }
}

// The third step is the first to be refused, and says why.
fn bad_lists() -> &'static [(&'static [Step], Refusal)] {
    &[
        (
            &[
                step!(set 1 2),
                step!(copy 3 4),
                step!(copy 32 0),
                step!(pop 16),
            ],
            Refusal::OutOfRange,
        ),
        (
            &[step!(reserve 16), step!(store 1 0), step!(store 2 0)],
            Refusal::OutOfRange,
        ),
        (
            &[
                step!(set 1 2),
                step!(keep 3 4),
                step!(pop 16),
                step!(copy 32 0),
            ],
            Refusal::OutOfTurn,
        ),
        (
            &[step!(reserve 16), step!(call 0 0), step!(copy 0 0)],
            Refusal::OutOfTurn,
        ),
    ]
}

#[test]
fn bad_lists_on_a_tape(rt: HostRuntime) {
    let mut buffer = [0xEE; 64];
    each_refused(&rt, &mut Tape::open(&mut buffer), bad_lists());
    filled(&rt, &buffer, &[]);
}

#[test]
fn bad_lists_on_a_bench(rt: HostRuntime) {
    let mut cells = numbered();
    each_refused(&rt, &mut Bench::make(&mut cells), bad_lists());
    same(&rt, &cells, &opened(numbered()));
}

#[test]
fn room_for_two(rt: HostRuntime) {
    let mut buffer = [0xEE; 29];
    each_refused(
        &rt,
        &mut Tape::open(&mut buffer),
        &[
            (
                &[step!(copy 1 2), step!(copy 3 4), step!(copy 5 6)],
                Refusal::NoRoom,
            ),
            // range and turn come before room
            (
                &[step!(copy 1 2), step!(copy 3 4), step!(copy 5 32)],
                Refusal::OutOfRange,
            ),
            (
                &[step!(copy 1 2), step!(copy 3 4), step!(pop 16)],
                Refusal::OutOfTurn,
            ),
        ],
    );
    filled(&rt, &buffer, &[]);
}

// One step more than a bench has room for: none is run.
#[test]
fn more_than_a_bench_takes(rt: HostRuntime) -> Result<(), Fail> {
    let steps = vec![in rt.alloc(); step!(copy 0 1); 1_000_001]?;
    let mut cells = numbered();
    each_refused(
        &rt,
        &mut Bench::make(&mut cells),
        &[(&steps, Refusal::NoRoom)],
    );
    same(&rt, &cells, &opened(numbered()));
    Ok(())
}

// A tape in this buffer takes the list, and then has these bytes. The tests of single steps have the like, which also see the room.
fn tape_takes(
    rt: &impl Abort,
    buffer: &mut [u8],
    steps: &[Step],
    bytes: &[u8],
) -> Result<(), Fail> {
    let mut tape = Tape::open(buffer);
    give(&mut tape, steps)?;
    assert_eq!(rt; tape.bytes(), bytes);
    filled(rt, buffer, bytes);
    Ok(())
}

#[test]
fn no_steps(rt: HostRuntime) -> Result<(), Fail> {
    tape_takes(&rt, &mut [], &[], &[])
}

#[test]
fn room_for_three(rt: HostRuntime) -> Result<(), Fail> {
    tape_takes(
        &rt,
        &mut [0xEE; 30],
        &[step!(copy 1 2), step!(copy 3 4), step!(copy 5 6)],
        &[1, 1, 2, 1, 3, 4, 1, 5, 6],
    )
}

#[test]
fn all_steps(rt: HostRuntime) -> Result<(), Fail> {
    tape_takes(&rt, &mut [0xEE; 90], all_nine(), TAPE)
}
