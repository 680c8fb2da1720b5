// Tests of the reader: each refusal with its place, and the parts that it hands out.
use crate::tapes::TAPE;
use machine::steps::Step;
use shorts::step;
use std::alloc::{AllocError, Global};
use std::process::Abort;
use std::test::Fail;
use tape::errors::ReadError;
use tape::readers::{Part, Reader};
use tape::whole::{check_tape, read_tape};

// how a tape begins that is then bare, with 16 bytes reserved, or called
const BARE: &[u8] = &[];

const RESERVED: &[u8] = &[7, 16, 0];

const CALLED: &[u8] = &[7, 16, 0, 8, 0, 0, 0, 0, 0, 0, 0, 0];

// The tape is refused with this number at this byte: when it is checked, when it is read, and whenever a reader is asked there.
// The number is what is published, and a test keeps its value.
fn refused(rt: &(impl Abort + AllocGlobal), tape: &[u8], number: u8, place: usize) {
    let Err(fault) = check_tape(tape) else {
        panic!(rt; "tape {tape:?} is accepted")
    };
    assert_eq!(rt; fault.refusal.number(), number, "tape {tape:?}");
    assert_eq!(rt; fault.place, place, "tape {tape:?}");
    assert_eq!(rt;
        read_tape(rt.alloc(), tape).err(),
        Some(ReadError::Refused(fault)),
        "tape {tape:?}"
    );
    let mut reader = Reader::open(tape);
    for _ in 0..tape.len() {
        let _ = reader.next_command();
    }
    assert_eq!(rt; reader.next_command().err(), Some(fault), "tape {tape:?}");
    assert_eq!(rt; reader.next_command().err(), Some(fault), "tape {tape:?}");
}

fn joined(heap: Global, begun: &[u8], rest: &[u8]) -> Result<Vec<u8>, AllocError> {
    let mut tape = begun.to_vec(heap)?;
    tape.extend_from_slice(rest)?;
    Ok(tape)
}

// Each tape begins as said, and what comes next is refused with this number.
fn each_refused(
    rt: &(impl Abort + AllocGlobal),
    number: u8,
    tapes: &[(&[u8], &[u8])],
) -> Result<(), Fail> {
    for (begun, rest) in tapes {
        let tape = joined(rt.alloc(), begun, rest)?;
        refused(rt, &tape, number, begun.len());
    }
    Ok(())
}

#[test]
fn unknown(rt: HostRuntime) -> Result<(), Fail> {
    each_refused(
        &rt,
        41,
        &[
            (BARE, &[0x00]),
            (BARE, &[0x0A]),
            (BARE, &[0xFF]),
            (&[1, 0, 0, 3, 0, 0, 0], &[0x0A, 1, 0, 0]),
            // at the other turns, too
            (RESERVED, &[0x00]),
            (CALLED, &[0xFF]),
        ],
    )
}

#[test]
fn cut_short(rt: HostRuntime) -> Result<(), Fail> {
    each_refused(
        &rt,
        42,
        &[
            (BARE, &[1, 0]),
            (BARE, &[2, 0, 0, 0, 0, 0, 0, 0, 0]),
            (BARE, &[3, 0, 0]),
            (RESERVED, &[4, 0, 0]),
            (RESERVED, &[5, 0, 0]),
            (BARE, &[6, 0, 0]),
            (BARE, &[7, 16]),
            (BARE, &[8, 0, 0, 0, 0, 0, 0, 0]),
            (CALLED, &[9, 16]),
            // with nothing behind the first byte
            (BARE, &[1]),
            (BARE, &[8]),
            (&[1, 0, 0, 3, 0, 0, 0], &[2, 0]),
            // also where the command would be out of range or out of turn
            (BARE, &[1, 32]),
            (CALLED, &[1, 0]),
        ],
    )
}

#[test]
fn out_of_range_when_bare(rt: HostRuntime) -> Result<(), Fail> {
    each_refused(
        &rt,
        43,
        &[
            (BARE, &[1, 32, 0]),
            (BARE, &[1, 0, 32]),
            (&[1, 31, 31], &[1, 0, 255]),
            (BARE, &[2, 32, 0, 0, 0, 0, 0, 0, 0, 0]),
            (BARE, &[3, 32, 0, 0]),
            (BARE, &[3, 0, 0, 4]),
            (BARE, &[4, 0, 0, 0]),
            (BARE, &[5, 0, 0, 0]),
            (BARE, &[6, 0, 4, 0]),
            (BARE, &[6, 0, 0, 32]),
            (BARE, &[7, 0, 0]),
            (BARE, &[7, 8, 0]),
            (BARE, &[7, 24, 0]),
            (BARE, &[7, 16, 1]),
        ],
    )
}

#[test]
fn out_of_range_later(rt: HostRuntime) -> Result<(), Fail> {
    each_refused(
        &rt,
        43,
        &[
            (RESERVED, &[4, 32, 0, 0]),
            (RESERVED, &[4, 0, 2, 0]),
            (RESERVED, &[5, 2, 0, 0]),
            (RESERVED, &[5, 0, 0, 32]),
            (&[7, 0, 1], &[4, 0, 32, 0]),
            (&[7, 0, 1], &[5, 32, 0, 0]),
            // also where the command would be out of turn
            (BARE, &[9, 0, 0]),
            (BARE, &[9, 8, 0]),
            (RESERVED, &[7, 24, 0]),
            (RESERVED, &[9, 16, 1]),
            (CALLED, &[1, 32, 0]),
            (CALLED, &[5, 2, 0, 0]),
            (CALLED, &[7, 0, 0]),
            (CALLED, &[9, 24, 0]),
        ],
    )
}

#[test]
fn out_of_turn(rt: HostRuntime) -> Result<(), Fail> {
    each_refused(
        &rt,
        44,
        &[
            (BARE, &[9, 16, 0]),
            (RESERVED, &[7, 16, 0]),
            (RESERVED, &[9, 16, 0]),
            (CALLED, &[1, 0, 0]),
            (CALLED, &[2, 0, 0, 0, 0, 0, 0, 0, 0, 0]),
            (CALLED, &[3, 0, 0, 0]),
            (CALLED, &[4, 0, 0, 0]),
            (CALLED, &[5, 0, 0, 0]),
            (CALLED, &[6, 0, 0, 0]),
            (CALLED, &[7, 16, 0]),
            (CALLED, &[8, 0, 0, 0, 0, 0, 0, 0, 0]),
            (CALLED, &[9, 32, 0]),
            // at the end of the tape
            (RESERVED, &[]),
            (CALLED, &[]),
        ],
    )
}

// 65,536 bytes of commands.
fn longest_tape(heap: Global) -> Result<Vec<u8>, AllocError> {
    let mut tape = Vec::new(heap);
    for _ in 0..21_844 {
        tape.extend_from_slice(&[1, 0, 0])?;
    }
    tape.extend_from_slice(&[3, 0, 0, 0])?;
    Ok(tape)
}

// A tape of no commands is accepted, and reads as no steps.
#[test]
fn empty(rt: HostRuntime) -> Result<(), Fail> {
    assert_eq!(rt; check_tape(&[]), Ok(()));
    assert_eq!(rt; read_tape(rt.alloc(), &[])?.len(), 0);
    Ok(())
}

#[test]
fn longest(rt: HostRuntime) -> Result<(), Fail> {
    let tape = longest_tape(rt.alloc())?;
    assert_eq!(rt; tape.len(), 65_536);
    assert_eq!(rt; check_tape(&tape), Ok(()));
    assert_eq!(rt; read_tape(rt.alloc(), &tape)?.len(), 21_845);
    Ok(())
}

#[test]
fn too_long(rt: HostRuntime) -> Result<(), Fail> {
    let mut tape = longest_tape(rt.alloc())?;
    tape.push(1)?;
    refused(&rt, &tape, 45, 0);
    Ok(())
}

#[test]
fn too_long_and_unknown(rt: HostRuntime) -> Result<(), Fail> {
    let tape = vec![in rt.alloc(); 0; 65_537]?;
    refused(&rt, &tape, 45, 0);
    Ok(())
}

fn part(step: Step, place: usize, bytes: &'static [u8]) -> Part<'static> {
    Part { place, bytes, step }
}

// The parts of the tape.
fn parts() -> [Part<'static>; 9] {
    [
        part(step!(copy 1 2), 0, &[0x01, 0x01, 0x02]),
        part(
            step!(set 3 0x1122_3344_5566_7788),
            3,
            &[0x02, 0x03, 0x88, 0x77, 0x66, 0x55, 0x44, 0x33, 0x22, 0x11],
        ),
        part(step!(fetch 4 0x0102), 13, &[0x03, 0x04, 0x02, 0x01]),
        part(step!(reserve 256), 17, &[0x07, 0x00, 0x01]),
        part(step!(store 31 5), 20, &[0x05, 0x1F, 0x00, 0x05]),
        part(step!(back 6 7), 24, &[0x04, 0x06, 0x07, 0x00]),
        part(
            step!(call 0x0A0B_0C0D 0xF0E0_D0C0),
            28,
            &[0x08, 0x0D, 0x0C, 0x0B, 0x0A, 0xC0, 0xD0, 0xE0, 0xF0],
        ),
        part(step!(pop 256), 37, &[0x09, 0x00, 0x01]),
        part(step!(keep 1023 8), 40, &[0x06, 0xFF, 0x03, 0x08]),
    ]
}

#[test]
fn each_part(rt: HostRuntime) -> Result<(), Fail> {
    let mut reader = Reader::open(TAPE);
    for part in parts() {
        assert_eq!(rt; reader.next_command()?, Some(part));
    }
    assert!(rt; reader.next_command()?.is_none());
    Ok(())
}
