//! Tests of demos, scripts, edits and searched sequences, by their public calls. No other crate stands on this one.
#![tactic(auto)]

#[cfg(test)]
mod builds;
#[cfg(test)]
mod demos;
#[cfg(test)]
mod edits;
#[cfg(test)]
mod frames;
#[cfg(test)]
mod ranges;
#[cfg(test)]
mod rows;
#[cfg(test)]
mod scripts;
