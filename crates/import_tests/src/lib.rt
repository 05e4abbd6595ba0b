//! Tests: histories that are read from CSV.
#![tactic(auto)]

#[cfg(test)]
mod exports;
#[cfg(test)]
mod many;
#[cfg(test)]
mod plant;
#[cfg(test)]
mod remote;
#[cfg(test)]
mod runs;
#[cfg(test)]
mod words;
