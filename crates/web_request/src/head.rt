//! The parts of a request's head.

use http1::Header;

/// The parts of a request's head, in the bytes that it was read from.
#[derive(Clone, Copy)]
pub(crate) struct Head<'a> {
    pub(crate) method: &'a [u8],
    pub(crate) target: &'a [u8],
    /// HTTP/1.0 or HTTP/1.1.
    pub(crate) minor: u8,
    pub(crate) headers: &'a [Header<'a>],
    /// How many bytes the head has, empty lines before it among them.
    pub(crate) length: usize,
}
