//! Tests of the rules of play over worlds that were started on sample maps. No other crate stands on this one.
#![tactic(auto)]

#[cfg(test)]
mod checks;
#[cfg(test)]
mod movers;
#[cfg(test)]
mod starts;
