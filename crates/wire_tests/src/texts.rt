//! Texts that were made.

use std::alloc::AllocError;

/// Whether a text was made, and is this one.
pub(crate) fn is_text(made: Result<String, AllocError>, want: &str) -> bool {
    match made {
        Ok(text) => text.as_str() == want,
        Err(_) => false,
    }
}
