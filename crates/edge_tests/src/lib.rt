//! Tests of the outside of the program: the devices in memory, real files and real output. No other crate stands on this
//! one.
#![tactic(auto)]

#[cfg(test)]
mod devices;
#[cfg(test)]
mod failing;
#[cfg(test)]
mod saves;
