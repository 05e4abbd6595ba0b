//! Tests: worked rows, each call of which is made again where memory was wanting. `tests/hostile.py` runs them with each growth of
//! memory refused in turn.
#![tactic(auto)]

#[cfg(test)]
mod calls;
#[cfg(test)]
mod driving;
#[cfg(test)]
mod machines;
#[cfg(test)]
mod rows;
#[cfg(test)]
mod streams;
