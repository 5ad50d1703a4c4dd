//! Tests of sessions over a small game, by their public calls. No other crate stands on this one.
#![tactic(auto)]

#[cfg(test)]
mod game;
#[cfg(test)]
mod sessions;
