//! Tests: clients and peers of a script, interleaved over one server.
#![tactic(auto)]

#[cfg(test)]
mod admitting;
#[cfg(test)]
mod broken;
#[cfg(test)]
mod browsers;
#[cfg(test)]
mod calls;
#[cfg(test)]
mod conversations;
#[cfg(test)]
mod logins;
#[cfg(test)]
mod pieces;
#[cfg(test)]
mod scripts;
#[cfg(test)]
mod shared;
#[cfg(test)]
mod strangers;
#[cfg(test)]
mod twice;
