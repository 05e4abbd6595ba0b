//! Tests: the event loop over connections that a script gives.
#![tactic(auto)]

#[cfg(test)]
mod connections;
#[cfg(test)]
mod scripts;
