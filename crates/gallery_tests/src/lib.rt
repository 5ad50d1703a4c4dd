//! Tests of the gallery against numbers of a program that was written apart. No other crate stands on this one.
#![tactic(auto)]

#[cfg(test)]
mod galleries;
