// An argument list: the sources of a call's arguments, in their order.
ghost use Rattle.std.specs.List.{AllPass};
ghost use Rattle.bounded_lists.specs.Lists.{items};
ghost use Rattle.conventions.specs.Arguments.{source_in_range};

use crate::arguments::Source;
use crate::limits::ARGUMENTS_LENGTH;
use bounded_lists::lists::BoundedList;

mod adds;

#[derive(Clone, Copy)]
pub struct ArgumentList {
    sources: BoundedList<Source, ARGUMENTS_LENGTH>,
    ghost ranged: { AllPass source_in_range (items sources) },
}
