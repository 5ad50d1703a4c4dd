//! Tests of lines that act, over small levels. No other crate stands on this one.
#![tactic(auto)]

#[cfg(test)]
mod cases;
#[cfg(test)]
mod fixtures;
#[cfg(test)]
mod lifts;
#[cfg(test)]
mod numbers;
#[cfg(test)]
mod rows;
#[cfg(test)]
mod teleports;
