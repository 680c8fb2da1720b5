// Adding to an argument list, and reading it.
ghost use Rattle.std.specs.Prelude.{◌≡◌, [], length};
ghost use Rattle.conventions.specs.Lists.{Added, listed, source_verdict};

use crate::arguments::Source;
use crate::limits::ARGUMENTS_LENGTH;
use crate::lists::ArgumentList;
use bounded_lists::lists::BoundedList;
use machine::limits::{LOCAL_SLOTS, REGISTERS};
use machine::places::{LocalSlot, Register};
use machine::refusals::Refusal;

// Whether the machine has such a source.
fn judge(source: Source) -> Result<(), Refusal>
    ensures { result ≡ source_verdict source }
{
    match source {
        Source::Register(Register(r)) if r >= REGISTERS => Err(Refusal::NoSuchRegister),
        Source::Local(LocalSlot(n)) if n >= LOCAL_SLOTS => Err(Refusal::NoSuchLocalSlot),
        _ => Ok(()),
    }
}

impl ArgumentList {
    // An empty list.
    pub fn new() -> ArgumentList
        ensures { listed result ≡ [] }
    {
        ArgumentList {
            sources: BoundedList::new(Source::Number(0)),
        }
    }

    // Adds a source at the end, or refuses it and stays as it is.
    pub fn add(&mut self, source: Source) -> Result<(), Refusal>
        ensures { Added source result self.old self.new }
    {
        // judged before the copy, so that a refusal costs none
        if self.sources.len() >= ARGUMENTS_LENGTH {
            return Err(Refusal::ListFull);
        }
        judge(source)?;
        let mut sources = self.sources;
        sources.push(source).unwrap();
        *self = ArgumentList { sources };
        Ok(())
    }

    // The sources in their order.
    pub fn sources(&self) -> &[Source]
        ensures { result.now ≡ listed self.now }
    {
        self.sources.items()
    }

    pub fn len(&self) -> u8
        ensures { result ≡ length (listed self.now) }
    {
        self.sources.len() as u8
    }
}
