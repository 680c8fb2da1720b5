// Tests of what every emitter takes and refuses, on a tape and on a bench.
use crate::cells::*;
use crate::tapes::filled;
use bench::benches::Bench;
use machine::emitters::Emitter;
use machine::refusals::Refusal;
use machine::steps::Step;
use shorts::step;
use std::process::Abort;
use tape::tapes::Tape;
use tape::whole::check_tape;

type Answer = Result<(), Refusal>;

const TAKEN: Answer = Ok(());

const RANGE: Answer = Err(Refusal::OutOfRange);

const TURN: Answer = Err(Refusal::OutOfTurn);

const ROOM: Answer = Err(Refusal::NoRoom);

// Each step is answered so, and one that is refused leaves the turn and the room as they were. The tests of plans have the like over lists: each compares
// another thing after a refusal, and one for both would be no plainer.
fn answers<E: Emitter>(rt: &impl Abort, emitter: &mut E, script: &[(Step, Answer)]) {
    for (step, answer) in script {
        let before = (emitter.turn(), emitter.room());
        assert_eq!(rt; emitter.take(*step), *answer, "{step:?}");
        if answer.is_err() {
            assert_eq!(rt; (emitter.turn(), emitter.room()), before);
        }
    }
}

// Refusals at every turn, around a call that loses nothing. Out of range comes before out of turn.
fn around_a_call() -> &'static [(Step, Answer)] {
    &[
        (step!(copy 32 0), RANGE),
        (step!(copy 0 32), RANGE),
        (step!(set 32 0), RANGE),
        (step!(fetch 32 0), RANGE),
        (step!(fetch 0 1024), RANGE),
        (step!(back 0 0), RANGE),
        (step!(store 0 0), RANGE),
        (step!(keep 1024 0), RANGE),
        (step!(keep 0 32), RANGE),
        (step!(reserve 0), RANGE),
        (step!(reserve 8), RANGE),
        (step!(reserve 24), RANGE),
        (step!(reserve 272), RANGE),
        (step!(pop 0), RANGE),
        (step!(pop 8), RANGE),
        (step!(pop 24), RANGE),
        (step!(pop 272), RANGE),
        (step!(pop 16), TURN),
        (step!(pop 256), TURN),
        (step!(reserve 16), TAKEN),
        (step!(copy 32 0), RANGE),
        (step!(store 2 0), RANGE),
        (step!(store 0 32), RANGE),
        (step!(back 0 2), RANGE),
        (step!(back 32 0), RANGE),
        (step!(reserve 0), RANGE),
        (step!(pop 272), RANGE),
        (step!(reserve 16), TURN),
        (step!(reserve 256), TURN),
        (step!(pop 16), TURN),
        (step!(pop 32), TURN),
        (step!(call 0 0), TAKEN),
        (step!(copy 32 0), RANGE),
        (step!(set 32 0), RANGE),
        (step!(fetch 0 1024), RANGE),
        (step!(back 0 2), RANGE),
        (step!(store 2 0), RANGE),
        (step!(keep 1024 0), RANGE),
        (step!(reserve 0), RANGE),
        (step!(pop 8), RANGE),
        (step!(copy 0 0), TURN),
        (step!(set 0 0), TURN),
        (step!(fetch 0 0), TURN),
        (step!(back 0 0), TURN),
        (step!(store 0 0), TURN),
        (step!(keep 0 0), TURN),
        (step!(reserve 16), TURN),
        (step!(call 0 0), TURN),
        (step!(pop 32), TURN),
        (step!(pop 16), TAKEN),
        (step!(pop 16), TURN),
    ]
}

// The last of each range that is taken, and the first that is not.
fn ends() -> &'static [(Step, Answer)] {
    &[
        (step!(copy 31 31), TAKEN),
        (step!(set 31 0xFFFF_FFFF_FFFF_FFFF), TAKEN),
        (step!(fetch 31 1023), TAKEN),
        (step!(keep 1023 31), TAKEN),
        (step!(reserve 256), TAKEN),
        (step!(store 31 31), TAKEN),
        (step!(store 32 31), RANGE),
        (step!(back 31 31), TAKEN),
        (step!(back 31 32), RANGE),
        (step!(call 0xFFFF_FFFF 0xFFFF_FFFF), TAKEN),
        (step!(pop 256), TAKEN),
        (step!(reserve 16), TAKEN),
        (step!(store 1 0), TAKEN),
        (step!(store 2 0), RANGE),
        (step!(back 0 1), TAKEN),
        (step!(back 0 2), RANGE),
        (step!(call 0 0), TAKEN),
        (step!(pop 16), TAKEN),
    ]
}

// A tape in this buffer answers the steps so, and then has these bytes.
fn tape_answers(rt: &impl Abort, buffer: &mut [u8], script: &[(Step, Answer)], bytes: &[u8]) {
    let free = buffer.len().saturating_sub(bytes.len());
    let mut tape = Tape::open(buffer);
    answers(rt, &mut tape, script);
    assert_eq!(rt; tape.bytes(), bytes);
    assert_eq!(rt; tape.room(), free / 10);
    filled(rt, buffer, bytes);
}

#[test]
fn tape_around_a_call(rt: HostRuntime) {
    tape_answers(
        &rt,
        &mut [0xEE; 32],
        around_a_call(),
        &[7, 16, 0, 8, 0, 0, 0, 0, 0, 0, 0, 0, 9, 16, 0],
    );
}

#[test]
fn bench_around_a_call(rt: HostRuntime) {
    let start = numbered();
    let mut cells = start;
    answers(&rt, &mut Bench::make(&mut cells), around_a_call());
    // the call step has seen the registers, and all else is as it was
    let mut expected = opened(start);
    expected.copy_within(0..LOCALS, SEEN_REGISTERS);
    same(&rt, &cells, &expected);
}

#[test]
fn tape_ends(rt: HostRuntime) {
    let mut buffer = [0xEE; 128];
    let mut tape = Tape::open(&mut buffer);
    answers(&rt, &mut tape, ends());
    assert_eq!(rt; check_tape(tape.bytes()), Ok(()));
}

#[test]
fn bench_ends(rt: HostRuntime) {
    let mut cells = numbered();
    answers(&rt, &mut Bench::make(&mut cells), ends());
}

// With nine free bytes there is no room, which comes after range and turn.
#[test]
fn nine_bytes(rt: HostRuntime) {
    tape_answers(
        &rt,
        &mut [0xEE; 9],
        &[
            (step!(copy 32 0), RANGE),
            (step!(pop 0), RANGE),
            (step!(pop 16), TURN),
            (step!(copy 0 0), ROOM),
            (step!(set 0 0), ROOM),
            (step!(fetch 0 0), ROOM),
            (step!(keep 0 0), ROOM),
            (step!(reserve 16), ROOM),
            (step!(call 0 0), ROOM),
        ],
        &[],
    );
}

#[test]
fn nine_bytes_when_reserved(rt: HostRuntime) {
    tape_answers(
        &rt,
        &mut [0xEE; 12],
        &[
            (step!(reserve 16), TAKEN),
            (step!(store 2 0), RANGE),
            (step!(pop 16), TURN),
            (step!(copy 0 0), ROOM),
            (step!(store 1 0), ROOM),
            (step!(back 0 1), ROOM),
            (step!(call 0 0), ROOM),
        ],
        &[7, 16, 0],
    );
}

#[test]
fn nine_bytes_when_called(rt: HostRuntime) {
    tape_answers(
        &rt,
        &mut [0xEE; 21],
        &[
            (step!(reserve 16), TAKEN),
            (step!(call 0 0), TAKEN),
            (step!(copy 32 0), RANGE),
            (step!(copy 0 0), TURN),
            (step!(pop 32), TURN),
            (step!(pop 16), ROOM),
        ],
        &[7, 16, 0, 8, 0, 0, 0, 0, 0, 0, 0, 0],
    );
}

#[test]
fn ten_bytes(rt: HostRuntime) {
    tape_answers(
        &rt,
        &mut [0xEE; 13],
        &[
            (step!(copy 1 2), TAKEN),
            (step!(set 3 0x0102_0304_0506_0708), TAKEN),
            (step!(copy 0 0), ROOM),
        ],
        &[1, 1, 2, 2, 3, 8, 7, 6, 5, 4, 3, 2, 1],
    );
}
