// A convention chosen as the program runs: a board alone or with a handle, in an enum of the caller's own. Such an enum needs no
// proof only while a board holds no borrow.
use conventions::arguments::Place;
use conventions::boards::Board;
use conventions::conventions::Convention;
use conventions::handles::HandleFirst;
use machine::places::Register;

#[derive(Clone, Copy)]
enum Chosen {
    Alone(Board),
    WithHandle(HandleFirst<Board>),
}

impl Chosen {
    fn first_place(&self) -> Place {
        match self {
            Chosen::Alone(board) => board.place(0),
            Chosen::WithHandle(handled) => handled.place(0),
        }
    }
}

#[test]
fn boards_in_an_enum(rt: HostRuntime) {
    for (chosen, first) in [
        (Chosen::Alone(Board::sysv()), 7),
        (Chosen::WithHandle(HandleFirst::over(Board::sysv())), 6),
        (Chosen::Alone(Board::riscv()), 10),
    ] {
        assert_eq!(rt; chosen.first_place(), Place::Register(Register(first)));
    }
}
