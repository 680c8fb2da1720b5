// Tests that steps, words, origins, refusals and errors print, and how: a contract states the text, but not that it is written.
use bench::origins::Origin;
use bounded_lists::lists::Full;
use machine::places::{LocalSlot, Register};
use machine::refusals::Refusal;
use machine::words::Word;
use shorts::step;
use std::fmt::Display;
use std::process::Abort;
use std::test::Fail;
use tape::errors::{ReadError, RewriteError};
use tape::readers::Fault;

fn prints<T: Display + Drop>(
    rt: &(impl Abort + AllocGlobal),
    value: T,
    text: &str,
) -> Result<(), Fail> {
    assert_eq!(rt; format!(in rt.alloc(); "{value}")?.as_str(), text);
    Ok(())
}

#[test]
fn steps(rt: HostRuntime) -> Result<(), Fail> {
    prints(&rt, step!(copy 1 2), "copy 1 2")?;
    prints(
        &rt,
        step!(set 3 18446744073709551615),
        "set 3 18446744073709551615",
    )?;
    prints(&rt, step!(fetch 4 5), "fetch 4 5")?;
    prints(&rt, step!(back 6 7), "back 6 7")?;
    prints(&rt, step!(store 8 9), "store 8 9")?;
    prints(&rt, step!(keep 10 11), "keep 10 11")?;
    prints(&rt, step!(reserve 16), "reserve 16")?;
    prints(&rt, step!(call 7 0x0000_0FC7), "call 7")?;
    prints(&rt, step!(pop 32), "pop 32")
}

#[test]
fn words(rt: HostRuntime) -> Result<(), Fail> {
    let heap = rt.alloc();
    let (number, unknown) = (Word::Number(1200), Word::Unknown);
    assert_eq!(rt; format!(in heap; "{number} {unknown}")?.as_str(), "1200 ?");
    Ok(())
}

#[test]
fn origins(rt: HostRuntime) -> Result<(), Fail> {
    let heap = rt.alloc();
    let (register, slot) = (Origin::Register(Register(6)), Origin::Local(LocalSlot(3)));
    let (number, unknown) = (Origin::Number(5), Origin::Unknown);
    assert_eq!(rt;
        format!(in heap; "{register} {slot} {number} {unknown}")?.as_str(),
        "r6 l3 k5 ?"
    );
    Ok(())
}

#[test]
fn refusals(rt: HostRuntime) -> Result<(), Fail> {
    prints(&rt, Refusal::ListFull, "refused: 11")?;
    prints(&rt, Refusal::TooLong, "refused: 45")
}

// A fault leaves its place out.
#[test]
fn errors(rt: HostRuntime) -> Result<(), Fail> {
    let fault = Fault {
        refusal: Refusal::CutShort,
        place: 3,
    };
    prints(&rt, fault, "refused: 42")?;
    prints(&rt, ReadError::Refused(fault), "refused: 42")?;
    prints(&rt, ReadError::Memory, "no memory")?;
    prints(&rt, RewriteError::Tape(fault), "refused: 42")?;
    prints(&rt, RewriteError::Buffer(Refusal::NoRoom), "refused: 33")?;
    prints(&rt, Full, "the list is full")
}
