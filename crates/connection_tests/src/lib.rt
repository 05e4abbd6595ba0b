//! Tests: connections of clients in rows.
#![tactic(auto)]

#[cfg(test)]
mod clients;
#[cfg(test)]
mod connections;
#[cfg(test)]
mod rows;
