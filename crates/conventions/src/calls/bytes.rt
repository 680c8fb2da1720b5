// The size of a call's reservation.
ghost use Rattle.std.specs.Prelude.{◌≡◌};
ghost use Rattle.conventions.specs.Calls.{bytes_for};

use machine::limits::{RESERVE_UNIT, SLOT_BYTES};

// The bytes to reserve for so many outgoing slots.
pub fn bytes_for(slots: u8) -> u16
    ensures { result ≡ bytes_for slots }
{
    RESERVE_UNIT * (SLOT_BYTES * u16::from(slots)).div_ceil(RESERVE_UNIT)
}
