// The arguments of a call, filled in from a convention and a list.
ghost use Rattle.std.specs.Prelude.{◌≡◌, ◌+◌, ◌≤◌, ◌++◌, ◌↔◌, length, IsOk, OnOk};
ghost use Rattle.conventions.specs.Calls.{Called, all_usable, arguments_in, given_arguments, hidden_arguments, source_usable};
ghost use Rattle.conventions.specs.Conventions.{argument_limit};
ghost use Rattle.conventions.specs.Lists.{listed};

use crate::arguments::{Argument, Place, Source};
use crate::calls::Arguments;
use crate::conventions::Convention;
use crate::limits::ARGUMENTS_LENGTH;
use crate::lists::ArgumentList;
use bounded_lists::lists::{BoundedList, Full};
use machine::places::{Register, RegisterSet};
use machine::refusals::Refusal;

impl Arguments {
    // The arguments: the hidden ones, then the given.
    pub fn entries(&self) -> &[Argument]
        ensures { result.now ≡ arguments_in self.now }
    {
        self.entries.items()
    }
}

// Whether the source is no register, or a usable one.
fn source_usable(usable: RegisterSet, source: Source) -> bool
    ensures { result ≡ source_usable usable.0 source }
{
    match source {
        Source::Register(register) => usable.contains(register),
        Source::Number(_) | Source::Local(_) => true,
    }
}

fn all_usable(usable: RegisterSet, sources: &[Source]) -> bool
    ensures { result ≡ all_usable usable.0 sources.now }
{
    sources.iter().all(|source| source_usable(usable, *source))
}

// Adds the hidden arguments, or tells that the list was full. Each `room` here states its own sum, which a name would hide.
fn fill_hidden<C: Convention>(convention: &C, arguments: &mut Arguments) -> Result<(), Full>
    ensures ok { OnOk result (arguments_in arguments.new ≡ arguments_in arguments.old ++ hidden_arguments (C.answers convention.now) (C.answers convention.now).hidden) }
    ensures room { IsOk result ↔ (length (arguments_in arguments.old) + (C.answers convention.now).hidden ≤ argument_limit) }
{
    // a convention is asked for them by number
    for i in 0..convention.hidden() {
        arguments.entries.push(Argument {
            place: convention.hidden_place(i),
            source: convention.hidden_source(i),
        })?;
    }
    Ok(())
}

// Adds the given arguments, or tells that the list was full.
fn fill_given<C: Convention>(
    convention: &C,
    sources: &[Source],
    arguments: &mut Arguments,
) -> Result<(), Full>
    ensures ok { OnOk result (arguments_in arguments.new ≡ arguments_in arguments.old ++ given_arguments (C.answers convention.now) 0 sources.now) }
    ensures room { IsOk result ↔ (length (arguments_in arguments.old) + length sources.now ≤ argument_limit) }
{
    for (i, source) in sources.iter().enumerate() {
        arguments.entries.push(Argument {
            place: convention.place(i as u8),
            source: *source,
        })?;
    }
    Ok(())
}

// The arguments of a call with the listed sources given. A call is judged before anything is filled, so that a refusal costs no filling.
pub fn arguments<C: Convention>(convention: &C, list: &ArgumentList) -> Result<Arguments, Refusal>
    ensures { Called (C.answers convention.now) (listed list.now) result }
{
    let sources = list.sources();
    if convention.hidden() as usize + sources.len() > ARGUMENTS_LENGTH {
        return Err(Refusal::TooManyArguments);
    }
    if !all_usable(convention.usable(), sources) {
        return Err(Refusal::NotUsable);
    }
    let filler = Argument {
        place: Place::Register(Register(0)),
        source: Source::Number(0),
    };
    let mut arguments = Arguments {
        entries: BoundedList::new(filler),
    };
    fill_hidden(convention, &mut arguments).unwrap();
    fill_given(convention, sources, &mut arguments).unwrap();
    Ok(arguments)
}
