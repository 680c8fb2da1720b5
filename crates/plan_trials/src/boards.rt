// Calls on the boards, worked by hand.
use crate::lists::numbers;
use crate::plans::{each_planned, plan, planned};
use conventions::boards::Board;
use conventions::handles::HandleFirst;
use shorts::{sources, steps};
use std::test::Fail;

#[test]
fn system_v(rt: HostRuntime) -> Result<(), Fail> {
    each_planned(
        &rt,
        &Board::sysv(),
        &[
            (sources!(), plan(0, 0, 0, 0), steps!()),
            (sources!(r 7), plan(0, 0, 0, 0), steps!()),
            (sources!(r 10), plan(0, 1, 0, 0), steps!(copy 7 10)),
            (
                sources!(r 6, r 7),
                plan(0, 2, 1, 0),
                steps!(copy 11 6, copy 6 7, copy 7 11),
            ),
            (
                sources!(r 6, r 7, r 6),
                plan(0, 3, 0, 0),
                steps!(copy 2 6, copy 6 7, copy 7 2),
            ),
            (
                sources!(r 6, r 7, r 2, r 1, r 8, r 9, r 7),
                plan(16, 3, 0, 0),
                steps!(store 0 7, copy 7 6, back 6 0),
            ),
            (
                sources!(r 7, r 6, r 2, r 1, r 8, r 9, l 3, l 3),
                plan(16, 2, 0, 1),
                steps!(fetch 11 3, store 0 11, store 1 11),
            ),
            (
                sources!(k 5, r 6, r 2, r 1, r 8, r 9, k 5),
                plan(16, 2, 0, 0),
                steps!(set 7 5, store 0 7),
            ),
        ],
    )
}

#[test]
fn aapcs64(rt: HostRuntime) -> Result<(), Fail> {
    each_planned(
        &rt,
        &Board::aapcs64(),
        &[
            (
                sources!(r 1, r 0),
                plan(0, 2, 1, 0),
                steps!(copy 16 0, copy 0 1, copy 1 16),
            ),
            (
                sources!(r 0, r 1, r 2, r 3, r 4, r 5, r 6, r 7, k 5),
                plan(16, 1, 0, 1),
                steps!(set 16 5, store 0 16),
            ),
        ],
    )
}

#[test]
fn riscv_with_handle(rt: HostRuntime) -> Result<(), Fail> {
    each_planned(
        &rt,
        &HandleFirst::over(Board::riscv()),
        &[(
            sources!(r 10),
            plan(0, 2, 0, 0),
            steps!(copy 11 10, fetch 10 0),
        )],
    )
}

// Both handles come from local slot 0.
#[test]
fn system_v_with_two_handles(rt: HostRuntime) -> Result<(), Fail> {
    each_planned(
        &rt,
        &HandleFirst::over(HandleFirst::over(Board::sysv())),
        &[
            (sources!(), plan(0, 2, 0, 0), steps!(fetch 6 0, fetch 7 0)),
            (
                sources!(r 6),
                plan(0, 3, 0, 0),
                steps!(copy 2 6, fetch 6 0, fetch 7 0),
            ),
        ],
    )
}

// Of 32 numbers six go to registers, and each of the others goes through the scratch.
#[test]
fn as_many_numbers_as_can_be(rt: HostRuntime) -> Result<(), Fail> {
    let (made, moves) = planned(&rt, &Board::sysv(), &numbers(32)?)?;
    assert_eq!(rt; moves.steps().len(), 58);
    assert_eq!(rt; made, plan(208, 32, 0, 26));
    Ok(())
}
