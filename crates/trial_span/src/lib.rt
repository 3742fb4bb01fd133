//! Cost files are read here, and the heaviest chains of plans made by hand are told.
#![tactic(auto)]

#[cfg(test)]
mod chain_tests;
#[cfg(test)]
mod cost_tests;
