//! What is done in sessions that a log of the server tells (Part 5, 6.4: audit events).

ghost use Rattle.std.specs.Prelude.{◌≡◌, ◌≤◌, [], ◌++◌, length};
ghost use Rattle.std.specs.Fmt.Cut.{cut_to};

use std::fmt;
use std::fmt::InlineText;
use std::marker::Model;
use ua_binary::{Listing, NodeId, Status};

/// The most bytes of a name that are kept.
const NAME_BYTES: usize = 256;

/// A user's name as it was given. One of more than 256 bytes is cut, and ends in three dots.
#[derive(Drop)]
pub struct AuditName(InlineText<256>);

impl Model for AuditName {
    ghost use Rattle.std.specs.Prelude.{ℕ, List};
    ghost use Rattle.std.specs.Fmt.InlineText.{inline_text};

    ghost Value = { List ℕ };

    ghost view = { λ n. inline_text n.0 };
}

impl AuditName {
    /// This name. It takes no memory.
    pub fn of(name: &str) -> AuditName
        ensures { result ≡ cut_to 256 name.now }
    {
        AuditName(InlineText::new().and_str(name, NAME_BYTES))
    }

    /// Its text, of 256 bytes at most.
    pub fn as_str(&self) -> &str
        ensures { result.now ≡ self.now }
    {
        self.0.as_str()
    }
}

impl fmt::Debug for AuditName {
    fn fmt<W: fmt::Write>(&self, f: &mut fmt::Formatter<W>) -> fmt::Result {
        f.write_str(self.as_str())
    }
}

/// What one of the details of a HistoryUpdate asks (Part 11, 6.8).
#[derive(Clone, Copy, Debug, PartialEq, Eq)]
pub enum UpdateKind {
    /// Values are inserted.
    Insert,
    /// Values are replaced.
    Replace,
    /// Values are inserted or replaced.
    Update,
    /// The values in a range of time are deleted.
    DeleteRange,
    /// The values at some times are deleted.
    DeleteAtTime,
    /// Something that isn't served.
    Other,
}

/// What one of the details of a HistoryUpdate came to.
#[derive(Debug, Drop)]
pub struct UpdateAudit {
    /// The node, where it is an archived variable.
    pub node: Option<NodeId>,
    /// What was asked.
    pub kind: UpdateKind,
    /// How many values or times have a status of their own.
    pub values: usize,
    /// The first status of the worst severity, of all that were answered.
    pub worst: Status,
}

/// What was done in a session.
#[derive(Debug, Drop)]
pub enum AuditEvent {
    /// Somebody asked to activate it.
    Activation {
        /// By this name.
        name: AuditName,
        /// And was refused so, or let in.
        refused: Option<Status>,
    },
    /// A HistoryUpdate was answered.
    Update {
        /// To this user.
        user: AuditName,
        /// What each of its details came to.
        updates: Listing<UpdateAudit>,
    },
}
