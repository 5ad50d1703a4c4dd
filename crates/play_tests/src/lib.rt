//! Tests of the crates of play, over levels made from sample maps. No other crate stands on this one.
#![tactic(auto)]

#[cfg(test)]
mod around;
#[cfg(test)]
mod bodies;
#[cfg(test)]
mod ended;
#[cfg(test)]
mod levels;
#[cfg(test)]
mod lights;
#[cfg(test)]
mod links;
#[cfg(test)]
mod rows;
#[cfg(test)]
mod starts;
#[cfg(test)]
mod stores;
#[cfg(test)]
mod worlds;
