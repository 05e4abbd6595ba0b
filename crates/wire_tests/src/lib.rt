//! Tests: bytes, values, chunks, channels, structures, sessions, settings and address spaces, and what a client writes and reads: in rows.
#![tactic(auto)]

#[cfg(test)]
mod binary;
#[cfg(test)]
mod channels;
#[cfg(test)]
mod greetings;
#[cfg(test)]
mod requests;
#[cfg(test)]
mod sessions;
#[cfg(test)]
mod settings;
#[cfg(test)]
mod space;
#[cfg(test)]
mod structures;
#[cfg(test)]
mod texts;
#[cfg(test)]
mod variants;
