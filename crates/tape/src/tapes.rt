// The tape's type, with what every tape keeps.
ghost use Rattle.std.specs.Prelude.{◌≡◌, ◌≤◌, true, length, take, Ok};
ghost use Rattle.std.specs.List.{flat_map};
ghost use Rattle.tape.specs.Commands.{encode};
ghost use Rattle.machine.specs.Turns.{walked};
ghost use Rattle.machine.specs.declared.turns.Turn.TheVariants.{Bare};
ghost use Rattle.tape.specs.Readings.{all_fit, steps_on};

use machine::turns::Turn;

pub mod emits;

// Steps as bytes, in a lent buffer that is filled from its first byte.
#[derive(Drop)]
pub struct Tape<'a> {
    buffer: &'a mut [u8],
    // bytes written; the buffer is lent, so it does not grow with them
    used: usize,
    turn: Turn,
    ghost within: { used ≤ length buffer.now },
    // the bytes used are the commands of the steps that they read as, and nothing more
    ghost whole: { flat_map encode (steps_on used buffer.now) ≡ take used buffer.now },
    ghost fit: { all_fit (steps_on used buffer.now) ≡ true },
    ghost walks: { walked (steps_on used buffer.now) Bare ≡ Ok turn },
}
