// A list of moves, as long as any call's.
ghost use Rattle.std.specs.Prelude.{◌≡◌, ℕ, ◌<◌, List, [], ◌∷◌, length};
ghost use Rattle.order.specs.Indices.{each};
ghost use Rattle.moves.specs.Limits.{move_limit};

use crate::limits::MOVES_LENGTH;
use bounded_lists::lists::BoundedList;
use machine::places::Register;
use machine::steps::Step;

#[derive(Clone, Copy)]
pub struct MoveList {
    steps: BoundedList<Step, MOVES_LENGTH>,
}

impl MoveList {
    ghost use Rattle.moves.specs.Lists.{Adds, Gives, HasRoom, moves_in, optional};

    // An empty list.
    pub fn new() -> MoveList
        ensures { moves_in result ≡ [] }
    {
        let filler = Step::Set {
            to: Register(0),
            number: 0,
        };
        MoveList {
            steps: BoundedList::new(filler),
        }
    }

    // The moves in their order.
    pub fn steps(&self) -> &[Step]
        ensures { result.now ≡ moves_in self.now }
    {
        self.steps.items()
    }

    // Makes the list empty.
    pub(crate) fn clear(&mut self)
        ensures { moves_in self.new ≡ [] }
    {
        self.steps.clear();
    }

    // Adds a move at the end of a list that is not full.
    pub(crate) fn push(&mut self, step: Step)
        requires { length (moves_in self.old) < move_limit }
        ensures { Adds (step ∷ []) self.old self.new }
    {
        self.steps.push(step).unwrap();
    }

    // Adds the move that there is, if any.
    fn push_some(&mut self, step: Option<Step>)
        requires { HasRoom self.old (optional step) }
        ensures { Adds (optional step) self.old self.new }
    {
        if let Some(step) = step {
            self.push(step);
        }
    }

    // Adds the moves that `give` answers at each number below `end`, upwards. A loop, so that `give` need only serve these numbers.
    pub(crate) fn push_each<F: Fn(u16) -> Option<Step>>(&mut self, end: u16, give: F)
        requires calls { (i : ℕ) → i < end → F.pre give i }
        requires room { (f : ℕ → List Step) × Gives (F.post give) end f × HasRoom self.old (each f end) }
        ensures { (f : ℕ → List Step) → Gives (F.post give) end f → Adds (each f end) self.old self.new }
    {
        for i in 0..end {
            self.push_some(give(i));
        }
    }
}
