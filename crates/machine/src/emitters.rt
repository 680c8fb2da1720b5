// What takes steps.
ghost use Rattle.std.specs.Prelude.{◌≡◌};
ghost use Rattle.machine.specs.Emitters.{Gave, Meaning, Took};

use crate::refusals::Refusal;
use crate::steps::Step;
use crate::turns::Turn;

pub trait Emitter {
    ghost meaning: { Meaning Self };

    // Takes the step, or refuses it and stays as it is.
    fn take(&mut self, step: Step) -> Result<(), Refusal>
        ensures { Took meaning step result self.old self.new };

    fn turn(&self) -> Turn
        ensures { result ≡ meaning.turn self.now };

    fn room(&self) -> usize
        ensures { result ≡ meaning.room self.now };
}

// Gives all of the steps, or refuses and gives none: as the first step out of range or out of turn
// is refused, or for want of room for every one.
pub fn give<E: Emitter>(emitter: &mut E, steps: &[Step]) -> Result<(), Refusal>
    ensures { Gave E.meaning steps.now result emitter.old emitter.new }
{
    emitter.turn().after_all(steps)?;
    if emitter.room() < steps.len() {
        return Err(Refusal::NoRoom);
    }
    for step in steps {
        emitter.take(*step).unwrap();
    }
    Ok(())
}
