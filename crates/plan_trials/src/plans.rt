// Calls that are planned or refused, with what is expected of them.
use crate::benches::lands;
use crate::lists::listing;
use conventions::arguments::Source;
use conventions::boards::Board;
use conventions::calls::fills::arguments;
use conventions::conventions::Convention;
use conventions::lists::ArgumentList;
use machine::refusals::Refusal;
use machine::steps::Step;
use moves::lists::MoveList;
use moves::plans::{Plan, plan_call};
use shorts::{sources, steps};
use std::process::Abort;
use std::test::Fail;

// Plans a call, and sees that its moves bring each argument to its place.
pub(crate) fn planned<C: Convention>(
    rt: &impl Abort,
    convention: &C,
    list: &ArgumentList,
) -> Result<(Plan, MoveList), Fail> {
    let mut moves = MoveList::new();
    let plan = plan_call(convention, list, &mut moves)?;
    let arguments = arguments(convention, list)?;
    lands(rt, plan.bytes, moves.steps(), arguments.entries())?;
    Ok((plan, moves))
}

// The plan with so many bytes reserved, N, C and M.
pub(crate) fn plan(bytes: u16, needed: u8, rings: u8, values: u8) -> Plan {
    Plan {
        bytes,
        needed,
        rings,
        values,
    }
}

// The call has this plan and these moves.
fn has<C: Convention>(
    rt: &impl Abort,
    convention: &C,
    sources: &[Source],
    expected: Plan,
    steps: &[Step],
) -> Result<(), Fail> {
    let (plan, moves) = planned(rt, convention, &listing(sources)?)?;
    assert_eq!(rt; moves.steps(), steps);
    assert_eq!(rt; plan, expected);
    Ok(())
}

pub(crate) fn each_planned<C: Convention>(
    rt: &impl Abort,
    convention: &C,
    table: &[(&[Source], Plan, &[Step])],
) -> Result<(), Fail> {
    for (sources, expected, steps) in table {
        has(rt, convention, sources, *expected, steps)?;
    }
    Ok(())
}

// The call is refused so, and the moves stay as they were.
pub(crate) fn refused<C: Convention>(
    rt: &impl Abort,
    convention: &C,
    list: &ArgumentList,
    refusal: Refusal,
) -> Result<(), Fail> {
    let (_, mut moves) = planned(rt, &Board::sysv(), &listing(sources!(r 6, r 7))?)?;
    assert_eq!(rt; plan_call(convention, list, &mut moves), Err(refusal));
    let before: &[Step] = steps!(copy 11 6, copy 6 7, copy 7 11);
    assert_eq!(rt; moves.steps(), before);
    Ok(())
}
