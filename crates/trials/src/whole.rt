// Tests of whole tapes: written, written again and read back.
use crate::tapes::{TAPE, all_nine, filled};
use machine::emitters::{Emitter, give};
use machine::refusals::Refusal;
use machine::steps::Step;
use shorts::step;
use std::process::Abort;
use std::test::Fail;
use tape::errors::{ReadError, RewriteError};
use tape::readers::Fault;
use tape::tapes::Tape;
use tape::whole::{read_back, rewrite_tape, write_tape};

// Writing the steps into this buffer is answered so, and leaves these bytes.
fn writes(
    rt: &impl Abort,
    steps: &[Step],
    buffer: &mut [u8],
    answer: Result<usize, Refusal>,
    bytes: &[u8],
) {
    assert_eq!(rt; write_tape(steps, buffer), answer);
    filled(rt, buffer, bytes);
}

// The same for writing a tape again. Tried as one function over a closure: it needs a contract, and each row takes seven lines.
fn rewrites(
    rt: &impl Abort,
    tape: &[u8],
    buffer: &mut [u8],
    answer: Result<usize, RewriteError>,
    bytes: &[u8],
) {
    assert_eq!(rt; rewrite_tape(tape, buffer), answer);
    filled(rt, buffer, bytes);
}

#[test]
fn exchange(rt: HostRuntime) {
    writes(
        &rt,
        &[
            step!(copy 11 6),
            step!(copy 6 7),
            step!(copy 7 11),
            step!(call 7 0x0000_0FC7),
        ],
        &mut [0xEE; 28],
        Ok(18),
        b"\x01\x0B\x06\x01\x06\x07\x01\x07\x0B\x08\x07\x00\x00\x00\xC7\x0F\x00\x00",
    );
}

#[test]
fn bytes_to_spare(rt: HostRuntime) {
    writes(&rt, all_nine(), &mut [0xEE; 54], Ok(44), TAPE);
    writes(&rt, all_nine(), &mut [0xEE; 53], Err(Refusal::NoRoom), &[]);
    writes(&rt, &[], &mut [0xEE; 10], Ok(0), &[]);
    writes(&rt, &[], &mut [0xEE; 9], Err(Refusal::NoRoom), &[]);
}

// Range and turn come before room.
#[test]
fn bad_steps(rt: HostRuntime) {
    let range: &[Step] = &[
        step!(copy 1 2),
        step!(copy 3 4),
        step!(copy 32 0),
        step!(pop 16),
    ];
    writes(&rt, range, &mut [0xEE; 64], Err(Refusal::OutOfRange), &[]);
    writes(&rt, range, &mut [0xEE; 9], Err(Refusal::OutOfRange), &[]);
    let turn: &[Step] = &[
        step!(copy 1 2),
        step!(copy 3 4),
        step!(pop 16),
        step!(copy 32 0),
    ];
    writes(&rt, turn, &mut [0xEE; 64], Err(Refusal::OutOfTurn), &[]);
    writes(&rt, turn, &mut [0xEE; 9], Err(Refusal::OutOfTurn), &[]);
}

#[test]
fn again(rt: HostRuntime) {
    rewrites(&rt, TAPE, &mut [0xEE; 54], Ok(44), TAPE);
    rewrites(
        &rt,
        TAPE,
        &mut [0xEE; 53],
        Err(RewriteError::Buffer(Refusal::NoRoom)),
        &[],
    );
}

// The second command is cut short, which comes before room.
#[test]
fn again_but_damaged(rt: HostRuntime) {
    let error = RewriteError::Tape(Fault {
        refusal: Refusal::CutShort,
        place: 3,
    });
    rewrites(&rt, &[1, 0, 0, 1, 0], &mut [0xEE; 64], Err(error), &[]);
    rewrites(&rt, &[1, 0, 0, 1, 0], &mut [0xEE; 9], Err(error), &[]);
}

#[test]
fn read_as_written(rt: HostRuntime) -> Result<(), Fail> {
    let mut buffer = [0xEE; 90];
    let mut tape = Tape::open(&mut buffer);
    give(&mut tape, all_nine())?;
    assert_eq!(rt; read_back(rt.alloc(), &tape)?.as_slice(), all_nine());
    Ok(())
}

#[test]
fn not_read_while_reserved(rt: HostRuntime) -> Result<(), Fail> {
    let mut buffer = [0xEE; 20];
    let mut tape = Tape::open(&mut buffer);
    tape.take(step!(reserve 16))?;
    let fault = Fault {
        refusal: Refusal::OutOfTurn,
        place: 3,
    };
    assert_eq!(rt;
        read_back(rt.alloc(), &tape).err(),
        Some(ReadError::Refused(fault))
    );
    Ok(())
}
