// The table of pending moves between registers.
use conventions::arguments::Place;
use machine::limits::REGISTERS;

mod chooses;
mod settles;
mod turns;

// the move into the register of its index
#[derive(Clone, Copy)]
pub(crate) struct PendingMove {
    from: Place,
}

// The present source of each register. A register that is not pending names itself. Contracts speak of it by `table_in`: it has no `Model`, since a
// function, as a table of places is, cannot be a model's value today. The wants are a parameter of its methods and no field: the table turns while they stay.
#[derive(Clone, Copy)]
pub(crate) struct PendingMoves {
    moves: [PendingMove; REGISTERS as usize],
}
