// Steps as commands.
ghost use Rattle.std.specs.Prelude.{◌≡◌, ◌*◌, ◌^◌, ◌<◌, ◌≤◌, true, length};
ghost use Rattle.tape.specs.Commands.{CommandOf, bytes_of, fits, little, size, step_of, value};

use crate::opcodes::Opcode;
use machine::places::{LocalSlot, OutgoingSlot, Register, RegisterSet};
use machine::steps::Step;

// A step taken apart, as it stands on a tape; `second` is 0 where the command has one operand: no `Option`, since an operand of no
// bytes is the number 0.
#[derive(Clone, Copy)]
pub struct Command {
    pub opcode: Opcode,
    pub first: u64,
    pub second: u64,
}

impl From<Step> for Command {
    ghost from_gives = { CommandOf };

    fn from(step: Step) -> Command {
        let (opcode, first, second) = match step {
            Step::Copy { to, from } => (Opcode::Copy, to.0 as u64, from.0 as u64),
            Step::Set { to, number } => (Opcode::Set, to.0 as u64, number),
            Step::Fetch { to, from } => (Opcode::Fetch, to.0 as u64, from.0 as u64),
            Step::Back { to, from } => (Opcode::Back, to.0 as u64, from.0 as u64),
            Step::Store { to, from } => (Opcode::Store, to.0 as u64, from.0 as u64),
            Step::Keep { to, from } => (Opcode::Keep, to.0 as u64, from.0 as u64),
            Step::Reserve { bytes } => (Opcode::Reserve, bytes as u64, 0),
            Step::Call { routine, lost } => (Opcode::Call, routine as u64, lost.0 as u64),
            Step::Pop { bytes } => (Opcode::Pop, bytes as u64, 0),
        };
        Command {
            opcode,
            first,
            second,
        }
    }
}

impl Command {
    // The step of a command. A method and no `From`, since it asks that the operands fit.
    pub(crate) fn step(self) -> Step
        requires { fits self ≡ true }
        ensures { result ≡ step_of self }
    {
        let first = self.first;
        let second = self.second;
        match self.opcode {
            Opcode::Copy => Step::Copy {
                to: Register(first as u8),
                from: Register(second as u8),
            },
            Opcode::Set => Step::Set {
                to: Register(first as u8),
                number: second,
            },
            Opcode::Fetch => Step::Fetch {
                to: Register(first as u8),
                from: LocalSlot(second as u16),
            },
            Opcode::Back => Step::Back {
                to: Register(first as u8),
                from: OutgoingSlot(second as u16),
            },
            Opcode::Store => Step::Store {
                to: OutgoingSlot(first as u16),
                from: Register(second as u8),
            },
            Opcode::Keep => Step::Keep {
                to: LocalSlot(first as u16),
                from: Register(second as u8),
            },
            Opcode::Reserve => Step::Reserve {
                bytes: first as u16,
            },
            Opcode::Call => Step::Call {
                routine: first as u32,
                lost: RegisterSet(second as u32),
            },
            Opcode::Pop => Step::Pop {
                bytes: first as u16,
            },
        }
    }

    // How many bytes it takes.
    pub(crate) fn size(self) -> usize
        ensures { result ≡ size self }
    {
        self.opcode.first_width() + self.opcode.second_width() + 1
    }

    // Writes its bytes, which fill the space.
    pub(crate) fn write(self, space: &mut [u8])
        requires { length space.old ≡ size self }
        ensures { space.new ≡ bytes_of self }
    {
        let first = self.opcode.first_width();
        let second = self.opcode.second_width();
        space[0] = self.opcode.into();
        space[1..1 + first].copy_from_slice(&self.first.to_le_bytes()[..first]);
        space[1 + first..].copy_from_slice(&self.second.to_le_bytes()[..second]);
    }
}

// The number that at most eight bytes write, low byte first.
pub(crate) fn number(bytes: &[u8]) -> u64
    requires { length bytes.now ≤ 8 }
    ensures is { result ≡ value bytes.now }
    ensures again { little (length bytes.now) result ≡ bytes.now }
    ensures fit { result < 2 ^ (8 * length bytes.now) }
{
    let mut number = 0;
    // byte by byte: most operands are a byte or two, which a copy into a word of eight takes longer to read
    for byte in bytes.iter().rev() {
        number = number * 256 + u64::from(*byte);
    }
    number
}
