// Every refusal, with its number.
ghost use Rattle.std.specs.Prelude.{◌≡◌, Some};
ghost use Rattle.machine.specs.Refusals.{number, refusal_text};

use std::error::Error;
use std::fmt;

#[derive(Clone, Copy, PartialEq, Eq, Debug)]
pub enum Refusal {
    // the argument list is full
    ListFull = 11,
    // a register above the last
    NoSuchRegister = 12,
    // a local slot above the last
    NoSuchLocalSlot = 13,
    // a register that the convention does not let the author use
    NotUsable = 14,
    // a bench's cells are not as many as it takes
    WrongCells = 21,
    // a unit is opened on an emitter that is not bare
    NotBare = 22,
    // hidden and given arguments are more than a list holds
    TooManyArguments = 23,
    // the unit's calls are at their limit
    CallsAtLimit = 31,
    // the unit's own steps are at their limit
    OwnStepsAtLimit = 32,
    // the emitter has not the room
    NoRoom = 33,
    // a tape's byte that begins no command
    UnknownCommand = 41,
    // a tape that ends within a command
    CutShort = 42,
    // a step that names a register, a slot or a size out of range
    OutOfRange = 43,
    // a step that the turn does not allow, or a tape that does not end bare
    OutOfTurn = 44,
    // a tape longer than a reader takes
    TooLong = 45,
}

impl Refusal {
    // A method and no `From`: its name says what it answers.
    pub fn number(self) -> u8
        ensures { result ≡ number self }
    {
        self as u8
    }
}

impl fmt::Display for Refusal {
    ghost output = { λ f. Some (refusal_text f) };

    fn fmt<W: fmt::Write>(&self, f: &mut fmt::Formatter<W>) -> fmt::Result {
        write!(f, "refused: {}", self.number())
    }
}

impl Error for Refusal {}
