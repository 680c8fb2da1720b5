// The reader's types, with what every reader keeps.
ghost use Rattle.std.specs.Prelude.{◌≤◌, length, Some};
ghost use Rattle.tape.specs.Errors.{fault_text};

use machine::refusals::Refusal;
use machine::steps::Step;
use machine::turns::Turn;
use std::error::Error;
use std::fmt;

pub mod reads;

// A tape from anywhere, read command by command.
#[derive(Drop)]
pub struct Reader<'a> {
    tape: &'a [u8],
    // the next command's place, and no rest of the tape, since a fault and a part answer it
    place: usize,
    turn: Turn,
    ghost within: { place ≤ length tape.now },
}

// A command as a part of the tape, with its place.
#[derive(Clone, Copy, PartialEq, Eq, Debug)]
pub struct Part<'a> {
    pub place: usize,
    pub bytes: &'a [u8],
    pub step: Step,
}

// Why a tape is refused, and at which byte.
#[derive(Clone, Copy, PartialEq, Eq, Debug)]
pub struct Fault {
    pub refusal: Refusal,
    pub place: usize,
}

// The refusal alone; the place is for the caller to tell.
impl fmt::Display for Fault {
    ghost output = { λ e. Some (fault_text e) };

    fn fmt<W: fmt::Write>(&self, f: &mut fmt::Formatter<W>) -> fmt::Result {
        write!(f, "{}", self.refusal)
    }
}

impl Error for Fault {}
