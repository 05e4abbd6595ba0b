//! Tests: dialogs with peers, comparisons with them, and clients and peers that come at once.
#![tactic(auto)]

#[cfg(test)]
mod comparing;
#[cfg(test)]
mod network;
#[cfg(test)]
mod peers;
