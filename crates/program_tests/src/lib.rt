//! Tests: command lines, and what a run of the program prints and tells.
#![tactic(auto)]

#[cfg(test)]
mod breaks;
#[cfg(test)]
mod runs;
