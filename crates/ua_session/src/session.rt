//! One session.

ghost use Rattle.std.specs.Prelude.{◌≡◌};
ghost use Rattle.ua_binary.specs.Binary.{node_of};

use ua_binary::{NodeIdRef, Text};

/// The namespace of session ids and tokens.
pub(crate) const NAMESPACE: u16 = 1;

/// A session that was made and not closed.
#[derive(Debug, Drop)]
pub(crate) struct Session {
    /// The number of its token in that namespace.
    pub token: u32,
    /// As whom it was activated last, where it was.
    pub user: Option<Text>,
}

impl Session {
    ghost use Rattle.ua_session.specs.Sessions.{is_named};

    /// Whether this is its token.
    pub fn is_named(&self, token: NodeIdRef<'_>) -> bool
        ensures { result ≡ is_named (node_of token.entry) self.now }
    {
        matches!(token, NodeIdRef::Numeric(NAMESPACE, number) if number == self.token)
    }
}
