// The three boards.
ghost use Rattle.std.specs.Prelude.{◌≡◌};
ghost use Rattle.conventions.specs.Boards.{aapcs64, board_answers, riscv, sysv};

use crate::boards::Board;
use machine::places::{Register, RegisterSet};

impl Board {
    // System V AMD64, registers numbered as x86-64 encodes them.
    pub fn sysv() -> Board
        ensures { board_answers result ≡ sysv }
    {
        Board {
            registers: [
                Register(7),
                Register(6),
                Register(2),
                Register(1),
                Register(8),
                Register(9),
                Register(0),
                Register(0),
            ],
            count: 6,
            scratch: Register(11),
            usable: RegisterSet(0x0000_F7EF),
            lost: RegisterSet(0x0000_0FC7),
        }
    }

    // AAPCS64.
    pub fn aapcs64() -> Board
        ensures { board_answers result ≡ aapcs64 }
    {
        Board {
            registers: [
                Register(0),
                Register(1),
                Register(2),
                Register(3),
                Register(4),
                Register(5),
                Register(6),
                Register(7),
            ],
            count: 8,
            scratch: Register(16),
            usable: RegisterSet(0x1FFA_FFFF),
            lost: RegisterSet(0x4007_FFFF),
        }
    }

    // RISC-V LP64.
    pub fn riscv() -> Board
        ensures { board_answers result ≡ riscv }
    {
        Board {
            registers: [
                Register(10),
                Register(11),
                Register(12),
                Register(13),
                Register(14),
                Register(15),
                Register(16),
                Register(17),
            ],
            count: 8,
            scratch: Register(31),
            usable: RegisterSet(0x7FFF_FFE0),
            lost: RegisterSet(0xF003_FCE2),
        }
    }
}
