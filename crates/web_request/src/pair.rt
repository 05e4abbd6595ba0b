//! A pair of a query.

use ua_binary::Text;

/// A key of a query, and its value, both decoded.
#[derive(Drop)]
pub(crate) struct Pair {
    pub(crate) key: Text,
    pub(crate) value: Text,
}
