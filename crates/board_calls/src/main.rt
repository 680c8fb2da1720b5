// A routine is to be called with its first two arguments exchanged, as two wheel speeds are. The steps of that call on the
// console are shown, and then the moves of two calls for each board.
#![tactic(auto)]

mod boards;
mod calls;

use boards::show_boards;
use calls::exchange_steps;
use conventions::boards::Board;

const ROUTINE: u32 = 7;

fn main(rt: HostRuntime) -> anyhow::Result<()> {
    show(&rt)
}

fn show(rt: &(impl Print + AllocGlobal)) -> anyhow::Result<()> {
    print!(rt; "The call of routine {ROUTINE} with two exchanged on System V AMD64:")?;
    for step in &exchange_steps(rt.alloc(), &Board::sysv(), ROUTINE)? {
        print!(rt; " {step};")?;
    }
    println!(rt;
        "\n\nOn each board, with N arguments to move, C closed rings and M values for outgoing slots alone:"
    )?;
    show_boards(rt)
}
