//! Tests: what settings say, told to people; requests of browsers, their answers and the first page: in rows.
#![tactic(auto)]

#[cfg(test)]
mod answers;
#[cfg(test)]
mod front;
#[cfg(test)]
mod limits;
#[cfg(test)]
mod refusals;
#[cfg(test)]
mod requests;
#[cfg(test)]
mod settings;
#[cfg(test)]
mod stores;
