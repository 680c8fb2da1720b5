// The tape as an emitter.
ghost use Rattle.std.specs.Prelude.{◌≡◌, ◌+◌, ◌≤◌, [], ◌∷◌, length, take, Ok};
ghost use Rattle.machine.specs.Turns.{moved};
ghost use Rattle.machine.specs.Emitters.{Ran};
ghost use Rattle.tape.specs.Limits.{longest_command};
ghost use Rattle.tape.specs.Tapes.{Opened};
ghost use Rattle.tape.specs.Meanings.{tape_meaning};

use crate::commands::Command;
use crate::limits::LONGEST_COMMAND;
use crate::tapes::Tape;
use machine::emitters::Emitter;
use machine::refusals::Refusal;
use machine::steps::Step;
use machine::turns::Turn;

impl<'a> Tape<'a> {
    // A new tape, with nothing on it.
    pub fn open(buffer: &'a mut [u8]) -> Tape<'a>
        ensures opened { Opened buffer.old result }
        ensures lent { result.buffer.ghost_name ≡ buffer.entry.ghost_name }
    {
        Tape {
            buffer,
            used: 0,
            turn: Turn::Bare,
        }
    }

    // The bytes used so far: the tape itself.
    pub fn bytes(&self) -> &[u8]
        ensures { result.now ≡ take self.now.used self.now.buffer.now }
    {
        &self.buffer[..self.used]
    }

    // Writes the command of a step that is in range and in turn, and goes on to the turn that it leaves.
    fn write(&mut self, step: Step, next: Turn)
        requires goes { moved step self.old.turn ≡ Ok next }
        requires room { self.old.used + longest_command ≤ length self.old.buffer.now }
        ensures { Ran tape_meaning (step ∷ []) self.old self.new }
    {
        let command = Command::from(step);
        let end = self.used + command.size();
        command.write(&mut self.buffer[self.used..end]);
        self.used = end;
        self.turn = next;
    }
}

impl<'a> Emitter for Tape<'a> {
    ghost meaning = { tape_meaning };

    fn take(&mut self, step: Step) -> Result<(), Refusal> {
        if !step.in_range(self.turn) {
            return Err(Refusal::OutOfRange);
        }
        // the turn is matched here with the step in place, as the project asks
        let next = match (self.turn, step) {
            (Turn::Bare, Step::Reserve { bytes }) => Turn::Reserved(bytes),
            (Turn::Called(held), Step::Pop { bytes }) if bytes == held => Turn::Bare,
            (_, Step::Reserve { .. } | Step::Pop { .. }) | (Turn::Called(_), _) => return Err(
                Refusal::OutOfTurn,
            ),
            (Turn::Reserved(held), Step::Call { .. }) => Turn::Called(held),
            (turn, _) => turn,
        };
        if self.buffer.len() - self.used < LONGEST_COMMAND {
            return Err(Refusal::NoRoom);
        }
        self.write(step, next);
        Ok(())
    }

    fn turn(&self) -> Turn {
        self.turn
    }

    fn room(&self) -> usize {
        (self.buffer.len() - self.used) / LONGEST_COMMAND
    }
}
