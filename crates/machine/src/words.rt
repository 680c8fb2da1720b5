// A word: a 64-bit number, or unknown. An enum of its own and no `Option`: an unknown word is there, and it prints as itself.
ghost use Rattle.std.specs.Prelude.{Some};
ghost use Rattle.machine.specs.Words.{word_text};

use std::fmt;

#[derive(Clone, Copy, PartialEq, Eq, Debug)]
pub enum Word {
    Unknown,
    Number(u64),
}

impl fmt::Display for Word {
    ghost output = { λ w. Some (word_text w) };

    fn fmt<W: fmt::Write>(&self, f: &mut fmt::Formatter<W>) -> fmt::Result {
        match *self {
            Word::Unknown => write!(f, "?"),
            Word::Number(number) => write!(f, "{number}"),
        }
    }
}
