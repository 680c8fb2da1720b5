// What a convention tells of a call.
ghost use Rattle.std.specs.Prelude.{◌≡◌};
ghost use Rattle.conventions.specs.Conventions.{Answers, Lawful};

use crate::arguments::{Place, Source};
use machine::places::{Register, RegisterSet};

pub trait Convention {
    ghost answers: { Self → Answers };

    // How many hidden arguments a call has, or one more than the limit for all that are more.
    fn hidden(&self) -> u8
        ensures { result ≡ (answers self.now).hidden };

    // Where hidden argument i goes.
    fn hidden_place(&self, i: u8) -> Place
        ensures { result ≡ (answers self.now).hidden_place i };

    // Where hidden argument i comes from.
    fn hidden_source(&self, i: u8) -> Source
        ensures { result ≡ (answers self.now).hidden_source i };

    // Where given argument i goes.
    fn place(&self, i: u8) -> Place
        ensures { result ≡ (answers self.now).place i };

    // How many outgoing slots a call with n given arguments has.
    fn slots(&self, n: u8) -> u16
        ensures { result ≡ (answers self.now).slots n };

    // The register that the lowering may change between the steps of a call.
    fn scratch(&self) -> Register
        ensures { result ≡ (answers self.now).scratch };

    // The registers that the author may use.
    fn usable(&self) -> RegisterSet
        ensures { result ≡ (answers self.now).usable };

    // The registers that a call does not keep.
    fn lost(&self) -> RegisterSet
        ensures { result ≡ (answers self.now).lost };

    ghost lawful: { (c : Self) → Lawful (answers c) };
}
