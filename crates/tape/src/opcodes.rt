// The first byte of each command, and how many bytes its operands take.
ghost use Rattle.std.specs.Prelude.{◌≡◌};
ghost use Rattle.std.specs.Option.{ok_or};
ghost use Rattle.machine.specs.declared.refusals.Refusal.TheVariants.{UnknownCommand};
ghost use Rattle.tape.specs.Opcodes.{first_byte, first_width, opcode_at, second_width};

use machine::refusals::Refusal;

// The commands by their first bytes.
#[derive(Clone, Copy, PartialEq, Eq, Debug)]
pub enum Opcode {
    Copy = 1,
    Set = 2,
    Fetch = 3,
    Back = 4,
    Store = 5,
    Keep = 6,
    Reserve = 7,
    Call = 8,
    Pop = 9,
}

// the same bytes as patterns
const COPY: u8 = Opcode::Copy as u8;

const SET: u8 = Opcode::Set as u8;

const FETCH: u8 = Opcode::Fetch as u8;

const BACK: u8 = Opcode::Back as u8;

const STORE: u8 = Opcode::Store as u8;

const KEEP: u8 = Opcode::Keep as u8;

const RESERVE: u8 = Opcode::Reserve as u8;

const CALL: u8 = Opcode::Call as u8;

const POP: u8 = Opcode::Pop as u8;

// The command that begins with a byte.
impl TryFrom<u8> for Opcode {
    type Error = Refusal;

    ghost try_from_gives = { λ byte answer. answer ≡ ok_or (opcode_at byte) UnknownCommand };

    fn try_from(byte: u8) -> Result<Opcode, Refusal> {
        match byte {
            COPY => Ok(Opcode::Copy),
            SET => Ok(Opcode::Set),
            FETCH => Ok(Opcode::Fetch),
            BACK => Ok(Opcode::Back),
            STORE => Ok(Opcode::Store),
            KEEP => Ok(Opcode::Keep),
            RESERVE => Ok(Opcode::Reserve),
            CALL => Ok(Opcode::Call),
            POP => Ok(Opcode::Pop),
            _ => Err(Refusal::UnknownCommand),
        }
    }
}

// The command's first byte.
impl From<Opcode> for u8 {
    ghost from_gives = { λ opcode byte. byte ≡ first_byte opcode };

    fn from(opcode: Opcode) -> u8 {
        opcode as u8
    }
}

impl Opcode {
    // The bytes of the first operand.
    pub(crate) fn first_width(self) -> usize
        ensures { result ≡ first_width self }
    {
        match self {
            Opcode::Copy | Opcode::Set | Opcode::Fetch | Opcode::Back => 1,
            Opcode::Store | Opcode::Keep | Opcode::Reserve | Opcode::Pop => 2,
            Opcode::Call => 4,
        }
    }

    // The bytes of the second operand; of a command with one operand it has none, 0.
    pub(crate) fn second_width(self) -> usize
        ensures { result ≡ second_width self }
    {
        match self {
            Opcode::Reserve | Opcode::Pop => 0,
            Opcode::Copy | Opcode::Store | Opcode::Keep => 1,
            Opcode::Fetch | Opcode::Back => 2,
            Opcode::Call => 4,
            Opcode::Set => 8,
        }
    }
}
