// Whole tapes: read to the end, written from a list of steps, and written again.
ghost use Rattle.std.specs.Prelude.{◌≡◌, ◌+◌, ◌≤◌, List, length, take, nat_le};
ghost use Rattle.std.specs.List.{flat_map};
ghost use Rattle.tape.specs.Limits.{longest_command, tape_limit};
ghost use Rattle.machine.specs.declared.turns.Turn.TheVariants.{Bare};
ghost use Rattle.tape.specs.Commands.{encode};
ghost use Rattle.tape.specs.Tapes.{tape_steps};
ghost use Rattle.tape.specs.Whole.{TapeOf, Filled, Read, ReadAs, ReadsBack, checked, rewrite_verdict, tape_reads, write_verdict};

use crate::commands::Command;
use crate::errors::{ReadError, RewriteError};
use crate::limits::LONGEST_COMMAND;
use crate::readers::{Fault, Reader};
use crate::tapes::Tape;
use machine::emitters::Emitter;
use machine::refusals::Refusal;
use machine::steps::Step;
use machine::turns::Turn;
use std::alloc::Global;

// Whether a tape is accepted.
pub fn check_tape(tape: &[u8]) -> Result<(), Fault>
    ensures { result ≡ checked (tape_reads tape.now) }
{
    let mut reader = Reader::open(tape);
    while let Some(_) = reader.next_command()? {}
    Ok(())
}

// The steps of an accepted tape.
pub fn read_tape(heap: Global, tape: &[u8]) -> Result<Vec<Step>, ReadError>
    ensures answer { Read tape.now result }
    ensures round { (ps : List Step) → TapeOf ps tape.now → ReadAs ps result }
{
    check_tape(tape)?;
    let mut steps = Vec::new(heap);
    let mut reader = Reader::open(tape);
    while let Some(part) = reader.next_command()? {
        steps.push(part.step)?;
    }
    Ok(steps)
}

// The steps on a tape that was written here.
pub fn read_back(heap: Global, tape: &Tape) -> Result<Vec<Step>, ReadError>
    ensures answer { Read (take tape.now.used tape.now.buffer.now) result }
    ensures round { tape.now.used ≤ tape_limit → tape.now.turn ≡ Bare → ReadAs (tape_steps tape.now) result }
{
    read_tape(heap, tape.bytes())
}

// Whether the commands of the steps leave ten bytes to spare.
fn leaves_spare(steps: &[Step], space: usize) -> bool
    ensures { result ≡ nat_le (length (flat_map encode steps.now) + longest_command) space }
{
    steps
        .iter()
        .try_fold(space, |free, step| {
            free.checked_sub(Command::from(*step).size())
        })
        .is_some_and(|free| free >= LONGEST_COMMAND)
}

// Writes the steps as a tape, and answers its length; or refuses, and writes nothing.
pub fn write_tape(steps: &[Step], buffer: &mut [u8]) -> Result<usize, Refusal>
    ensures answer { result ≡ write_verdict steps.now (length buffer.old) }
    ensures bytes { Filled (flat_map encode steps.now) result buffer.old buffer.new }
    ensures reads { ReadsBack steps.now result }
{
    let _ = Turn::Bare.after_all(steps)?;
    if !leaves_spare(steps, buffer.len()) {
        return Err(Refusal::NoRoom);
    }
    let mut tape = Tape::open(buffer);
    for step in steps {
        tape.take(*step).unwrap();
    }
    Ok(tape.bytes().len())
}

// Writes an accepted tape again, step by step, and answers its length; or refuses, and writes nothing.
pub fn rewrite_tape(tape: &[u8], buffer: &mut [u8]) -> Result<usize, RewriteError>
    ensures answer { result ≡ rewrite_verdict tape.now (length buffer.old) }
    ensures bytes { Filled tape.now result buffer.old buffer.new }
{
    check_tape(tape)?;
    if buffer.len() < tape.len() + LONGEST_COMMAND {
        return Err(RewriteError::Buffer(Refusal::NoRoom));
    }
    let mut copy = Tape::open(buffer);
    let mut reader = Reader::open(tape);
    // neither refuses now: the tape was read through, and there is space for all of it
    while let Some(part) = reader.next_command()? {
        copy.take(part.step).unwrap();
    }
    Ok(tape.len())
}
