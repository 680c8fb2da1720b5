// Tests of the bench: its cells, and what each step does on plain words and on origins.
use crate::cells::*;
use bench::benches::Bench;
use bench::benches::opens::own_origins;
use bench::kinds::WordKind;
use bench::origins::Origin;
use machine::emitters::{Emitter, give};
use machine::places::{LocalSlot, OutgoingSlot, Register};
use machine::refusals::Refusal;
use machine::steps::Step;
use machine::turns::Turn;
use machine::words::Word;
use shorts::step;
use std::fmt::Debug;
use std::process::Abort;
use std::test::Fail;

#[test]
fn cell_counts(rt: HostRuntime) {
    let cells = [Word::Unknown; 1153];
    assert_eq!(rt; Bench::check(&cells[0..1151]), Err(Refusal::WrongCells));
    assert_eq!(rt; Bench::check(&cells[0..1152]), Ok(()));
    assert_eq!(rt; Bench::check(&cells), Err(Refusal::WrongCells));
}

#[test]
fn own_origins_of_other_counts(rt: HostRuntime) {
    let mut cells = [Origin::Number(5); 1153];
    assert_eq!(rt; own_origins(&mut cells[0..1151]), Err(Refusal::WrongCells));
    assert_eq!(rt; own_origins(&mut cells), Err(Refusal::WrongCells));
    for origin in cells {
        assert_eq!(rt; origin, Origin::Number(5));
    }
}

#[test]
fn own_origins_of_all_cells(rt: HostRuntime) -> Result<(), Fail> {
    let mut expected = [Origin::Unknown; 1152];
    for (r, cell) in expected[..LOCALS].iter_mut().enumerate() {
        *cell = Origin::Register(Register(r as u8));
    }
    for (n, cell) in expected[LOCALS..OUTGOING].iter_mut().enumerate() {
        *cell = Origin::Local(LocalSlot(n as u16));
    }
    same(&rt, &own()?, &expected);
    Ok(())
}

// What cells hold in the end: what the start held from a cell on, a number, or unknown.
#[derive(Clone, Copy)]
enum Held {
    Start(usize),
    Number(u64),
    Unknown,
}

// so many cells from a cell on, and what they hold; a tuple, so that a row of a table fits on a line
type Change = (usize, usize, Held);

fn word<W: WordKind>(start: &Cells<W>, held: Held, k: usize) -> W {
    match held {
        Held::Start(i) => start
            .get(i.saturating_add(k))
            .copied()
            .unwrap_or(W::unknown()),
        Held::Number(number) => W::number(number),
        Held::Unknown => W::unknown(),
    }
}

// The cells as a bench opens on them, with these changes.
fn changed<W: WordKind>(start: &Cells<W>, changes: &[Change]) -> Cells<W> {
    let mut cells = opened(*start);
    for (first, count, held) in changes {
        for (k, cell) in cells.iter_mut().skip(*first).take(*count).enumerate() {
            *cell = word(start, *held, k);
        }
    }
    cells
}

// The bench tells of the latest call step what the last cells hold.
fn sees<W: WordKind + PartialEq + Debug>(rt: &impl Abort, bench: &Bench<W>, cells: &Cells<W>) {
    for (r, cell) in cells.iter().skip(SEEN_REGISTERS).take(32).enumerate() {
        assert_eq!(rt; bench.seen_register(Register(r as u8)), Some(*cell));
    }
    for (o, cell) in cells.iter().skip(SEEN_OUTGOING).enumerate() {
        assert_eq!(rt; bench.seen_outgoing(OutgoingSlot(o as u16)), Some(*cell));
    }
    let seen = (
        bench.seen_register(Register(32)),
        bench.seen_outgoing(OutgoingSlot(32)),
    );
    assert_eq!(rt; seen, (None, None));
}

// what a bench tells: its turn, its calls and the latest routine; a tuple for the same reason
type Told = (Turn, u32, u32);

// A bench over these cells takes the steps, and then tells this and has these changes, and no other.
fn runs<W: WordKind + PartialEq + Debug>(
    rt: &impl Abort,
    start: &Cells<W>,
    steps: &[Step],
    told: Told,
    changes: &[Change],
) -> Result<(), Fail> {
    let expected = changed(start, changes);
    let mut cells = *start;
    let mut bench = Bench::make(&mut cells);
    give(&mut bench, steps)?;
    assert_eq!(rt; (bench.turn(), bench.calls(), bench.seen_routine()), told);
    assert_eq!(rt; bench.room(), 1_000_000usize.saturating_sub(steps.len()));
    sees(rt, &bench, &expected);
    same(rt, &cells, &expected);
    Ok(())
}

fn each_runs<W: WordKind + PartialEq + Debug>(
    rt: &impl Abort,
    start: &Cells<W>,
    table: &[(&[Step], Told, &[Change])],
) -> Result<(), Fail> {
    for (steps, told, changes) in table {
        runs(rt, start, steps, *told, changes)?;
    }
    Ok(())
}

// Every step but call and pop.
fn moves<W: WordKind + PartialEq + Debug>(rt: &impl Abort, start: &Cells<W>) -> Result<(), Fail> {
    each_runs(
        rt,
        start,
        &[
            (&[], (Turn::Bare, 0, 0), &[]),
            (
                &[step!(copy 1 2)],
                (Turn::Bare, 0, 0),
                &[(1, 1, Held::Start(2))],
            ),
            (
                &[step!(set 3 99)],
                (Turn::Bare, 0, 0),
                &[(3, 1, Held::Number(99))],
            ),
            (
                &[step!(fetch 4 5)],
                (Turn::Bare, 0, 0),
                &[(4, 1, Held::Start(LOCALS + 5))],
            ),
            (
                &[step!(keep 6 7)],
                (Turn::Bare, 0, 0),
                &[(LOCALS + 6, 1, Held::Start(7))],
            ),
            (&[step!(reserve 256)], (Turn::Reserved(256), 0, 0), &[]),
            (
                &[
                    step!(reserve 16),
                    step!(store 1 8),
                    step!(back 9 1),
                    step!(back 10 0),
                ],
                (Turn::Reserved(16), 0, 0),
                &[
                    (OUTGOING + 1, 1, Held::Start(8)),
                    (9, 1, Held::Start(8)),
                    (10, 1, Held::Unknown),
                ],
            ),
        ],
    )
}

#[test]
fn moves_of_words(rt: HostRuntime) -> Result<(), Fail> {
    moves(&rt, &numbered())
}

#[test]
fn moves_of_origins(rt: HostRuntime) -> Result<(), Fail> {
    moves(&rt, &own()?)
}

// The registers of 0x0FC7, which a call loses, are 0 to 2 and 6 to 11.
fn calls<W: WordKind + PartialEq + Debug>(rt: &impl Abort, start: &Cells<W>) -> Result<(), Fail> {
    each_runs(
        rt,
        start,
        &[
            (
                &[
                    step!(reserve 16),
                    step!(store 0 5),
                    step!(store 1 6),
                    step!(call 7 0x0FC7),
                ],
                (Turn::Called(16), 1, 7),
                &[
                    (0, 3, Held::Unknown),
                    (6, 6, Held::Unknown),
                    (SEEN_REGISTERS, 32, Held::Start(0)),
                    (SEEN_OUTGOING, 2, Held::Start(5)),
                ],
            ),
            // popped, and reserved again
            (
                &[
                    step!(reserve 16),
                    step!(store 0 5),
                    step!(call 7 0x0FC7),
                    step!(pop 16),
                    step!(reserve 32),
                    step!(back 12 0),
                ],
                (Turn::Reserved(32), 1, 7),
                &[
                    (0, 3, Held::Unknown),
                    (6, 7, Held::Unknown),
                    (SEEN_REGISTERS, 32, Held::Start(0)),
                    (SEEN_OUTGOING, 1, Held::Start(5)),
                ],
            ),
            // two registers exchanged
            (
                &[
                    step!(copy 11 6),
                    step!(copy 6 7),
                    step!(copy 7 11),
                    step!(call 7 0x0FC7),
                ],
                (Turn::Bare, 1, 7),
                &[
                    (0, 3, Held::Unknown),
                    (6, 6, Held::Unknown),
                    (SEEN_REGISTERS, 32, Held::Start(0)),
                    (SEEN_REGISTERS + 6, 1, Held::Start(7)),
                    (SEEN_REGISTERS + 7, 1, Held::Start(6)),
                    (SEEN_REGISTERS + 11, 1, Held::Start(6)),
                ],
            ),
            // the latest of two
            (
                &[
                    step!(set 1 50),
                    step!(call 7 2),
                    step!(copy 2 1),
                    step!(call 8 0),
                ],
                (Turn::Bare, 2, 8),
                &[
                    (1, 2, Held::Unknown),
                    (SEEN_REGISTERS, 32, Held::Start(0)),
                    (SEEN_REGISTERS + 1, 2, Held::Unknown),
                ],
            ),
        ],
    )
}

#[test]
fn calls_on_words(rt: HostRuntime) -> Result<(), Fail> {
    calls(&rt, &numbered())
}

#[test]
fn calls_on_origins(rt: HostRuntime) -> Result<(), Fail> {
    calls(&rt, &own()?)
}
