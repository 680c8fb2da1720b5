// The wants of a call's arguments.
ghost use Rattle.std.specs.Prelude.{◌≡◌, true};
ghost use Rattle.std.specs.List.{AllByRecursion};
ghost use Rattle.machine.specs.Limits.{outgoing_slots};
ghost use Rattle.conventions.specs.Arguments.{place_in_range};
ghost use Rattle.order.specs.Wants.{wants};
ghost use Rattle.moves.specs.Wants.{wants_in};

use crate::wants::Wants;
use conventions::arguments::{Argument, Place};
use machine::limits::{OUTGOING_SLOTS, REGISTERS};
use machine::places::Register;

impl Wants {
    // From the last argument to the first, each in its own place.
    pub(crate) fn of(arguments: &[Argument], scratch: Register) -> Wants
        requires { AllByRecursion (λ a. place_in_range outgoing_slots a.place ≡ true) arguments.now }
        ensures wants { wants_in result ≡ wants arguments.now }
        ensures scratch { result.scratch ≡ scratch }
    {
        let mut by_register = [None; REGISTERS as usize];
        let mut by_slot = [None; OUTGOING_SLOTS as usize];
        for argument in arguments.iter().rev() {
            match argument.place {
                Place::Register(register) => by_register[register.0 as usize] = Some(
                    argument.source,
                ),
                Place::Outgoing(slot) => by_slot[slot.0 as usize] = Some(argument.source),
            }
        }
        Wants {
            by_register,
            by_slot,
            scratch,
        }
    }
}
