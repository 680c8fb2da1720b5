// How many moves a call's arguments need.
ghost use Rattle.std.specs.Prelude.{◌≡◌};
ghost use Rattle.conventions.specs.Arguments.{at_home};
ghost use Rattle.least.specs.Counts.{needed};

use conventions::arguments::{Argument, Place, Source};

// Whether the argument's source is its own place.
fn at_home(argument: Argument) -> bool
    ensures { result ≡ at_home argument }
{
    match (argument.place, argument.source) {
        (Place::Register(place), Source::Register(source)) => place == source,
        _ => false,
    }
}

// N: the arguments whose source is not their own place.
pub fn count_needed(arguments: &[Argument]) -> usize
    ensures { result ≡ needed arguments.now }
{
    let mut count: usize = 0;
    // the entries with their index, as the project asks for here
    for i in 0..arguments.len() {
        if !at_home(arguments[i]) {
            count += 1;
        }
    }
    count
}
