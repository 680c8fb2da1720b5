// This crate holds tests alone.
#![tactic(auto)]

#[cfg(test)]
mod benches;
#[cfg(test)]
mod cells;
#[cfg(test)]
mod emitters;
#[cfg(test)]
mod gives;
#[cfg(test)]
mod prints;
#[cfg(test)]
mod readers;
#[cfg(test)]
mod refusals;
#[cfg(test)]
mod tapes;
#[cfg(test)]
mod whole;
