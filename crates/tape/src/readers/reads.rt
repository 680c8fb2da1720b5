// Reading one command after another.
ghost use Rattle.tape.specs.Readers.{Asked, Began, Commanded};

use crate::commands::{Command, number};
use crate::limits::TAPE_LIMIT;
use crate::opcodes::Opcode;
use crate::readers::{Fault, Part, Reader};
use machine::refusals::Refusal;
use machine::steps::Step;
use machine::turns::Turn;

// The step whose command the bytes begin with.
fn first_step(bytes: &[u8]) -> Result<Step, Refusal>
    ensures { Commanded bytes.now result }
{
    let (byte, operands) = bytes.split_first().ok_or(Refusal::CutShort)?;
    let opcode = Opcode::try_from(*byte)?;
    let (first, others) = operands
        .split_at_checked(opcode.first_width())
        .ok_or(Refusal::CutShort)?;
    let (second, _) = others
        .split_at_checked(opcode.second_width())
        .ok_or(Refusal::CutShort)?;
    let command = Command {
        opcode,
        first: number(first),
        second: number(second),
    };
    Ok(command.step())
}

impl<'a> Reader<'a> {
    // A reader at the first byte of a tape.
    pub fn open(tape: &'a [u8]) -> Reader<'a>
        ensures { Began tape.entry result }
    {
        Reader {
            tape,
            place: 0,
            turn: Turn::Bare,
        }
    }

    // The next command, or none at the tape's end. After a refusal the reader is still where it was.
    pub fn next_command(&mut self) -> Result<Option<Part<'a>>, Fault>
        ensures { Asked self.old result self.new }
    {
        let tape = self.tape;
        let place = self.place;
        if tape.len() > TAPE_LIMIT {
            return Err(Fault {
                refusal: Refusal::TooLong,
                place: 0,
            });
        }
        let fault = |refusal| Fault { refusal, place };
        if place == tape.len() {
            return match self.turn {
                Turn::Bare => Ok(None),
                Turn::Reserved(_) | Turn::Called(_) => Err(fault(Refusal::OutOfTurn)),
            };
        }
        let step = first_step(&tape[place..]).map_err(fault)?;
        if !step.in_range(self.turn) {
            return Err(fault(Refusal::OutOfRange));
        }
        // the turn is matched here with the step in place, as the project asks
        let next = match (self.turn, step) {
            (Turn::Bare, Step::Reserve { bytes }) => Turn::Reserved(bytes),
            (Turn::Called(held), Step::Pop { bytes }) if bytes == held => Turn::Bare,
            (_, Step::Reserve { .. } | Step::Pop { .. }) | (Turn::Called(_), _) => return Err(fault(
                Refusal::OutOfTurn,
            )),
            (Turn::Reserved(held), Step::Call { .. }) => Turn::Called(held),
            (turn, _) => turn,
        };
        let end = place + Command::from(step).size();
        self.place = end;
        self.turn = next;
        Ok(Some(Part {
            place,
            bytes: &tape[place..end],
            step,
        }))
    }
}
