//! Tests: requests to the services in rows; and archives of which the laws' premises hold.
#![tactic(auto)]

#[cfg(test)]
mod machines;
#[cfg(test)]
mod readers;
#[cfg(test)]
mod services;
