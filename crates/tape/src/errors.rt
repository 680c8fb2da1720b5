// Why a whole tape was not read, or not written again.
ghost use Rattle.std.specs.Prelude.{◌≡◌, Some};
ghost use Rattle.tape.specs.Errors.{read_error_text, rewrite_error_text};
ghost use Rattle.tape.specs.declared.errors.ReadError.TheVariants.{Memory, Refused};
ghost use Rattle.tape.specs.declared.errors.RewriteError.TheVariants.{Tape};

use crate::readers::Fault;
use machine::refusals::Refusal;
use std::alloc::AllocFailed;
use std::error::Error;
use std::fmt;

#[derive(Clone, Copy, PartialEq, Eq, Debug)]
pub enum ReadError {
    // the tape is refused
    Refused(Fault),
    // the list of its steps found no memory
    Memory,
}

impl From<Fault> for ReadError {
    ghost from_gives = { λ f r. r ≡ Refused f };

    fn from(fault: Fault) -> ReadError {
        ReadError::Refused(fault)
    }
}

impl<T: Drop> From<AllocFailed<T>> for ReadError {
    ghost from_gives = { λ _ r. r ≡ Memory };

    fn from(_failed: AllocFailed<T>) -> ReadError {
        ReadError::Memory
    }
}

// By hand, as each conversion and text here: a derive would state none of them.
impl fmt::Display for ReadError {
    ghost output = { λ e. Some (read_error_text e) };

    fn fmt<W: fmt::Write>(&self, f: &mut fmt::Formatter<W>) -> fmt::Result {
        match *self {
            Self::Refused(fault) => write!(f, "{fault}"),
            Self::Memory => write!(f, "no memory"),
        }
    }
}

impl Error for ReadError {}

#[derive(Clone, Copy, PartialEq, Eq, Debug)]
pub enum RewriteError {
    // the tape is refused
    Tape(Fault),
    // the buffer is refused
    Buffer(Refusal),
}

impl From<Fault> for RewriteError {
    ghost from_gives = { λ f r. r ≡ Tape f };

    fn from(fault: Fault) -> RewriteError {
        RewriteError::Tape(fault)
    }
}

impl fmt::Display for RewriteError {
    ghost output = { λ e. Some (rewrite_error_text e) };

    fn fmt<W: fmt::Write>(&self, f: &mut fmt::Formatter<W>) -> fmt::Result {
        match *self {
            Self::Tape(fault) => write!(f, "{fault}"),
            Self::Buffer(refusal) => write!(f, "{refusal}"),
        }
    }
}

impl Error for RewriteError {}
