// This crate holds tests alone.
#![tactic(auto)]

#[cfg(test)]
mod benches;
#[cfg(test)]
mod boards;
#[cfg(test)]
mod chosen;
#[cfg(test)]
mod hiding;
#[cfg(test)]
mod least_counts;
#[cfg(test)]
mod lists;
#[cfg(test)]
mod plans;
#[cfg(test)]
mod refusals;
#[cfg(test)]
mod small;
