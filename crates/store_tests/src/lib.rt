//! Tests: the rows of histories over archives in SQLite in memory; and its files that are closed, changed, of format 1, or stopped, and
//! opened again.
#![tactic(auto)]

#[cfg(test)]
mod format_one;
#[cfg(test)]
mod stops;
#[cfg(test)]
mod store_files;
#[cfg(test)]
mod stores;
