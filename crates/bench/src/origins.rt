// Origins: where a word came from.
ghost use Rattle.std.specs.Prelude.{Some};
ghost use Rattle.bench.specs.Origins.{origin_stands, origin_text};

use crate::kinds::WordKind;
use machine::places::{LocalSlot, Register};
use std::fmt;

// the word of the start's register or local slot, a number, or unknown
#[derive(Clone, Copy, PartialEq, Eq, Debug)]
pub enum Origin {
    Unknown,
    Register(Register),
    Local(LocalSlot),
    Number(u64),
}

impl WordKind for Origin {
    ghost stands = { origin_stands };

    fn number(number: u64) -> Origin {
        Origin::Number(number)
    }

    fn unknown() -> Origin {
        Origin::Unknown
    }
}

impl fmt::Display for Origin {
    ghost output = { λ o. Some (origin_text o) };

    fn fmt<W: fmt::Write>(&self, f: &mut fmt::Formatter<W>) -> fmt::Result {
        match *self {
            Self::Unknown => write!(f, "?"),
            Self::Register(Register(r)) => write!(f, "r{r}"),
            Self::Local(LocalSlot(n)) => write!(f, "l{n}"),
            Self::Number(k) => write!(f, "k{k}"),
        }
    }
}
