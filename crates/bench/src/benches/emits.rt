// The bench as an emitter.
ghost use Rattle.std.specs.Prelude.{◌≡◌, ◌<◌, true, [], ◌∷◌};
ghost use Rattle.machine.specs.Turns.{in_range, turn_after};
ghost use Rattle.machine.specs.Emitters.{Ran};
ghost use Rattle.bench.specs.Benches.{Acted, bench_meaning};
ghost use Rattle.bench.specs.Cells.{bench_steps};

use crate::benches::Bench;
use crate::benches::cells::Area;
use crate::kinds::WordKind;
use crate::limits::*;
use machine::emitters::Emitter;
use machine::refusals::Refusal;
use machine::steps::Step;
use machine::turns::Turn;

impl<'a, W: WordKind> Bench<'a, W> {
    // Does what the step does to the cells, the calls and the routine.
    fn act(&mut self, step: Step)
        requires in_range { in_range step self.old.turn ≡ true }
        requires counted { self.old.calls < self.old.taken }
        ensures { Acted W.stands step self.old self.new }
    {
        match step {
            Step::Copy { to, from } => self.cells[to.0 as usize] = self.cells[from.0 as usize],
            Step::Set { to, number } => self.cells[to.0 as usize] = W::number(number),
            Step::Fetch { to, from } => self.cells[to.0 as usize] = self.cells[LOCALS
                + from.0 as usize],
            Step::Back { to, from } => self.cells[to.0 as usize] = self.cells[OUTGOING
                + from.0 as usize],
            Step::Store { to, from } => self.cells[OUTGOING + to.0 as usize] =
                self.cells[from.0 as usize],
            Step::Keep { to, from } => self.cells[LOCALS + to.0 as usize] =
                self.cells[from.0 as usize],
            Step::Reserve { bytes: _ } => self.wipe(Area {
                start: OUTGOING,
                end: SEEN_REGISTERS,
            }),
            Step::Call { routine, lost } => {
                self.record_call(lost);
                self.routine = routine;
                self.calls += 1;
            }
            Step::Pop { bytes: _ } => {}
        }
    }

    // Runs a step that is in range, counts it, and goes on to the turn that it leaves.
    fn run(&mut self, step: Step, next: Turn)
        requires in_range { in_range step self.old.turn ≡ true }
        requires next { next ≡ turn_after step self.old.turn }
        requires room { self.old.taken < bench_steps }
        ensures { Ran (bench_meaning W.stands) (step ∷ []) self.old self.new }
    {
        self.taken += 1;
        self.act(step);
        self.turn = next;
    }
}

impl<'a, W: WordKind> Emitter for Bench<'a, W> {
    ghost meaning = { bench_meaning W.WordKind.stands };

    fn take(&mut self, step: Step) -> Result<(), Refusal> {
        if !step.in_range(self.turn) {
            return Err(Refusal::OutOfRange);
        }
        // the turn is matched here with the step in place, as the project asks
        let next = match (self.turn, step) {
            (Turn::Bare, Step::Reserve { bytes }) => Turn::Reserved(bytes),
            (Turn::Called(held), Step::Pop { bytes }) if bytes == held => Turn::Bare,
            (_, Step::Reserve { .. } | Step::Pop { .. }) | (Turn::Called(_), _) => return Err(
                Refusal::OutOfTurn,
            ),
            (Turn::Reserved(held), Step::Call { .. }) => Turn::Called(held),
            (turn, _) => turn,
        };
        if self.taken >= STEPS {
            return Err(Refusal::NoRoom);
        }
        self.run(step, next);
        Ok(())
    }

    fn turn(&self) -> Turn {
        self.turn
    }

    fn room(&self) -> usize {
        (STEPS - self.taken) as usize
    }
}
