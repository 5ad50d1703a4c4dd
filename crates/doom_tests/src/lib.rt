//! Tests of the game, whole tics over small levels. No other crate stands on this one.
#![tactic(auto)]

#[cfg(test)]
mod bodies;
#[cfg(test)]
mod levels;
#[cfg(test)]
mod lines;
#[cfg(test)]
mod movers;
#[cfg(test)]
mod moves;
#[cfg(test)]
mod played;
#[cfg(test)]
mod walks;
