// Calls that are refused, and the last that are not.
use crate::hiding::Hiding;
use crate::lists::{listing, numbers};
use crate::plans::{planned, refused};
use conventions::arguments::Source;
use conventions::boards::Board;
use conventions::conventions::Convention;
use conventions::handles::HandleFirst;
use machine::refusals::Refusal;
use shorts::{source, sources};
use std::process::Abort;
use std::test::Fail;

// Besides the hidden arguments a call has room for so many.
fn takes<C: Convention>(
    rt: &impl Abort,
    convention: &C,
    hidden: u8,
    given: u64,
) -> Result<(), Fail> {
    assert_eq!(rt; convention.hidden(), hidden);
    planned(rt, convention, &numbers(given)?)?;
    refused(
        rt,
        convention,
        &numbers(given.saturating_add(1))?,
        Refusal::TooManyArguments,
    )
}

#[test]
fn too_many_arguments(rt: HostRuntime) -> Result<(), Fail> {
    takes(&rt, &HandleFirst::over(Board::sysv()), 1, 31)?;
    takes(
        &rt,
        &HandleFirst::over(HandleFirst::over(Board::sysv())),
        2,
        30,
    )?;
    takes(&rt, &Hiding, 3, 29)?;
    takes(&rt, &HandleFirst::over(Hiding), 4, 28)?;
    takes(&rt, &HandleFirst::over(HandleFirst::over(Hiding)), 5, 27)
}

#[test]
fn registers_not_usable(rt: HostRuntime) -> Result<(), Fail> {
    let table: &[&[Source]] = &[sources!(r 11), sources!(r 7, r 4), sources!(r 31, r 7)];
    for sources in table {
        refused(&rt, &Board::sysv(), &listing(sources)?, Refusal::NotUsable)?;
    }
    Ok(())
}

// Too many arguments are told before a register that is not usable.
#[test]
fn too_many_and_not_usable(rt: HostRuntime) -> Result<(), Fail> {
    let mut list = numbers(31)?;
    list.add(source!(r 11))?;
    refused(&rt, &Board::sysv(), &list, Refusal::NotUsable)?;
    refused(
        &rt,
        &HandleFirst::over(Board::sysv()),
        &list,
        Refusal::TooManyArguments,
    )
}
