// The arguments of a call, each with its place and its source.
use crate::arguments::Argument;
use crate::limits::ARGUMENTS_LENGTH;
use bounded_lists::lists::BoundedList;

mod bytes;
pub mod fills;

pub use bytes::bytes_for;

#[derive(Clone, Copy)]
pub struct Arguments {
    entries: BoundedList<Argument, ARGUMENTS_LENGTH>,
}
