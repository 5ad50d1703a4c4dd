//! Tests of runs of the program over files in memory: each command, each refusal, and devices that fail. No other crate
//! stands on this one.
#![tactic(auto)]

#[cfg(test)]
mod devices;
#[cfg(test)]
mod edits;
#[cfg(test)]
mod galleries;
#[cfg(test)]
mod levels;
#[cfg(test)]
mod maps;
#[cfg(test)]
mod over;
#[cfg(test)]
mod refusals;
#[cfg(test)]
mod searches;
#[cfg(test)]
mod worlds;
