//! Tests: histories in portions and in pages, and whole connections of browsers.
#![tactic(auto)]

#[cfg(test)]
mod connections;
#[cfg(test)]
mod parts;
#[cfg(test)]
mod portions;
#[cfg(test)]
mod requests;
#[cfg(test)]
mod status;
