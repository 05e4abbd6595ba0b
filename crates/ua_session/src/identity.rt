//! Who a client says that it is, and who a user is.

use std::fmt;
use ua_binary::{Bytes, Text};

/// Who a client says that it is: the user identity token of ActivateSession (Part 4, 5.7.3), in the
/// memory that it was read from.
#[derive(Clone, Copy)]
pub enum Identity<'a> {
    /// No token at all, or an AnonymousIdentityToken.
    Anonymous,
    /// A UserNameIdentityToken.
    Named {
        /// A null name is no user's.
        name: Option<&'a str>,
        /// A null password counts as an empty one.
        password: Option<&'a [u8]>,
        /// What encrypted the password; nothing but null or an empty text is served.
        algorithm: Option<&'a str>,
    },
    /// A token of another type.
    Other,
}

/// Without the password.
impl fmt::Debug for Identity<'_> {
    fn fmt<W: fmt::Write>(&self, f: &mut fmt::Formatter<W>) -> fmt::Result {
        match self {
            Identity::Anonymous => f.write_str("Anonymous"),
            Identity::Named { name, .. } => f
                .debug_struct("Named")
                .field("name", name)
                .finish_non_exhaustive(),
            Identity::Other => f.write_str("Other"),
        }
    }
}

/// What a user may do with histories.
#[derive(Clone, Copy, Debug, PartialEq, Eq)]
pub enum Access {
    /// Read them.
    Read,
    /// Read and update them.
    Write,
}

/// A user with a name and a password, who may do this.
#[derive(Drop)]
pub(crate) struct User {
    pub name: Text,
    pub password: Bytes,
    pub access: Access,
}

/// Without the password.
impl fmt::Debug for User {
    fn fmt<W: fmt::Write>(&self, f: &mut fmt::Formatter<W>) -> fmt::Result {
        f.debug_struct("User")
            .field("name", &self.name)
            .finish_non_exhaustive()
    }
}
