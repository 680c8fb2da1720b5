// The moves of calls on the three boards, with their counts.
use crate::calls::{exchange, nine_mixed, plan};
use conventions::arguments::Source;
use conventions::boards::Board;
use moves::lists::MoveList;
use moves::plans::Plan;

pub(crate) fn show_boards(rt: &impl Print) -> anyhow::Result<()> {
    show_board(rt, "System V AMD64", &Board::sysv())?;
    show_board(rt, "AAPCS64", &Board::aapcs64())?;
    show_board(rt, "RISC-V LP64", &Board::riscv())
}

fn show_board(rt: &impl Print, name: &str, board: &Board) -> anyhow::Result<()> {
    println!(rt; "\n{name}:")?;
    let two = exchange(board)?;
    show_moves(rt, "exchange", board, &two)?;
    let nine = nine_mixed(board)?;
    show_moves(rt, "nine mixed", board, &nine)
}

// The moves of a call with the sources given, and its counts.
fn show_moves(
    rt: &impl Print,
    name: &str,
    board: &Board,
    sources: &[Source],
) -> anyhow::Result<()> {
    let mut moves = MoveList::new();
    let Plan {
        bytes,
        needed,
        rings,
        values,
    } = plan(board, sources, &mut moves)?;
    print!(rt; "  {name}")?;
    if bytes != 0 {
        print!(rt; ", {bytes} bytes")?;
    }
    print!(rt; ":")?;
    for step in moves.steps() {
        print!(rt; " {step};")?;
    }
    println!(rt; " N={needed} C={rings} M={values}")?;
    Ok(())
}
