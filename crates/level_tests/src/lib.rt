//! Tests of the crates below the world: numbers and play tables, WADs, levels, and places in them. No other crate
//! stands on this one.
#![tactic(auto)]

#[cfg(test)]
mod levels;
#[cfg(test)]
mod lumps;
#[cfg(test)]
mod maps;
#[cfg(test)]
mod numbers;
#[cfg(test)]
mod rows;
#[cfg(test)]
mod sectors;
#[cfg(test)]
mod sides;
#[cfg(test)]
mod walks;
