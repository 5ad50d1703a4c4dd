//! Tests of the crates of the search, over a small game. No other crate stands on this one.
#![tactic(auto)]

#[cfg(test)]
mod boards;
#[cfg(test)]
mod orders;
#[cfg(test)]
mod searches;
#[cfg(test)]
mod workers;
