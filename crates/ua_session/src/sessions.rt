//! The sessions of one connection.

ghost use Rattle.std.specs.Prelude.{◌≡◌, find, position, IfOk, IfSome};
ghost use Rattle.std.specs.List.{AllByRecursion};
ghost use Rattle.std.specs.Option.{option_copied};
ghost use Rattle.ua_binary.specs.Binary.{node_of};
ghost use Rattle.ua_session.specs.Users.{claim_of, user_name_of, IsUserName};
ghost use Rattle.ua_session.specs.Sessions.{no_sessions, user_at, with_audit, has_user, is_named, HasShortUser, Creates, Activates, Closes};

use crate::audit::AuditEvent;
use crate::fault::SessionFault;
use crate::identity::Identity;
use crate::session::{NAMESPACE, Session};
use crate::users::Users;
use std::alloc::Global;
use std::marker::Model;
use ua_binary::{NodeId, NodeIdRef, Text};

/// How many sessions may be open at a time.
const MAX_ALIVE: usize = 16;

/// How many sessions a connection may make.
const MAX_MADE: u32 = 1_000_000;

/// The sessions of one connection (Part 4, 5.7), each known by its authentication token.
///
/// The k-th session has the id `ns=1;i=2k` and the token `ns=1;i=2k+1`, so that no token is ever given
/// twice. A session has no user until it is activated. What was done in them last is kept for a log.
#[derive(Debug, Drop)]
pub struct Sessions {
    alloc: Global,
    made: u32,
    alive: Vec<Session>,
    // how many audit events there were, and the last one
    audits: u64,
    last_audit: Option<AuditEvent>,
}

impl Model for Sessions {
    ghost use Rattle.std.specs.Prelude.{◌≤◌};
    ghost use Rattle.std.specs.List.{AllByRecursion};
    ghost use Rattle.ua_session.specs.Sessions.{SessionsState, HasShortUser};

    ghost Value = { SessionsState };

    ghost view = { λ s. record {
      made = s.made;
      alive = s.alive.items;
      audits = s.audits;
      last_audit = s.last_audit;
    } };

    ghost invariant = { λ s. (s.made ≤ 1000000) × AllByRecursion HasShortUser s.alive.items };
}

impl Sessions {
    /// No session yet. It takes no memory.
    pub fn new(alloc: Global) -> Self
        ensures { result ≡ no_sessions }
    {
        Sessions {
            alloc,
            made: 0,
            alive: Vec::new(alloc),
            audits: 0,
            last_audit: None,
        }
    }

    /// Makes a session (Part 4, 5.7.2), and answers its id and its authentication token. `TooMany` where
    /// 16 sessions are open or 1,000,000 were made; `OutOfMemory` leaves them as they were.
    pub fn create(&mut self) -> Result<(NodeId, NodeId), SessionFault>
        ensures { Creates self.old result self.new }
    {
        if self.alive.len() >= MAX_ALIVE || self.made >= MAX_MADE {
            return Err(SessionFault::TooMany);
        }
        let id = 2 * (self.made + 1);
        self.alive.push(Session {
            token: id + 1,
            user: None,
        })?;
        self.made += 1;
        Ok((
            NodeId::Numeric(NAMESPACE, id),
            NodeId::Numeric(NAMESPACE, id + 1),
        ))
    }

    /// Activates a session as a user (Part 4, 5.7.3), and answers the user's name: `anonymous`, or the
    /// name of the identity. It may be activated again, and the last user counts.
    ///
    /// `IdInvalid` where the token is none of a session that is open. Then `IdentityInvalid` for an
    /// identity of another type and for a password that is encrypted; then `IdentityRejected` where an
    /// anonymous user isn't allowed, and where the first user of that name has another password or none
    /// has the name; last `OutOfMemory`. A refusal leaves the session as it was.
    #[tactic(auto, using(crate::proofs::Calls::activating))]
    pub fn activate<'u>(
        &mut self,
        token: NodeIdRef<'_>,
        identity: Identity<'_>,
        users: &'u Users,
    ) -> Result<&'u str, SessionFault>
        ensures activates { Activates self.old (node_of token.entry) users.now (claim_of identity.entry)
            (user_name_of result) self.new }
        ensures name { IfOk result (λ user. IsUserName user.now) }
    {
        let Some(place) = place_of(&self.alive, token) else {
            return Err(SessionFault::IdInvalid);
        };
        let user = users.judge(identity)?;
        let name = Text::from_str(self.alloc, user)?;
        self.alive[place].user = Some(name);
        Ok(user)
    }

    /// Closes a session (Part 4, 5.7.4), whether it was activated or not. `IdInvalid` where the token is
    /// none of a session that is open. It takes no memory.
    #[tactic(auto, using(crate::proofs::Calls::closing))]
    pub fn close(&mut self, token: NodeIdRef<'_>) -> Result<(), SessionFault>
        ensures { Closes self.old (node_of token.entry) result self.new }
    {
        let Some(place) = place_of(&self.alive, token) else {
            return Err(SessionFault::IdInvalid);
        };
        self.alive.remove(place);
        Ok(())
    }

    /// The name of the user who activated a session last, in at most 256 bytes. `IdInvalid` where the
    /// token is none of a session that is open, and `NotActivated` where the session has no user. It
    /// takes no memory.
    pub fn user_of(&self, token: NodeIdRef<'_>) -> Result<&str, SessionFault>
        ensures value { user_name_of result ≡ user_at self.now (node_of token.entry) }
        ensures name { IfOk result (λ user. IsUserName user.now) }
    {
        let session = find_session(&self.alive, token).ok_or(SessionFault::IdInvalid)?;
        let user = session.user.as_ref().ok_or(SessionFault::NotActivated)?;
        Ok(user.as_str())
    }

    /// Keeps what was done in them, in place of what was kept before.
    pub fn note(&mut self, event: AuditEvent)
        ensures { self.new ≡ with_audit event self.old }
    {
        self.audits = self.audits.saturating_add(1);
        self.last_audit = Some(event);
    }

    /// How many times `note` was called, at most 2^64 - 1.
    pub fn audits(&self) -> u64
        ensures { result ≡ self.now.audits }
    {
        self.audits
    }

    /// What was done in them last, if something was.
    pub fn last_audit(&self) -> Option<&AuditEvent>
        ensures { option_copied result ≡ self.now.last_audit }
    {
        self.last_audit.as_ref()
    }

    /// Whether a session that is open was activated.
    pub fn has_user(&self) -> bool
        ensures { result ≡ has_user self.now }
    {
        self.alive.iter().any(|session| session.user.is_some())
    }
}

/// The session of this token.
fn find_session<'a>(alive: &'a [Session], token: NodeIdRef<'_>) -> Option<&'a Session>
    requires { AllByRecursion HasShortUser alive.now }
    ensures found { option_copied result ≡ find (is_named (node_of token.entry)) alive.now }
    ensures short { IfSome result (λ session. HasShortUser session.now) }
{
    alive.iter().find(|session| session.is_named(token))
}

/// The place of the session of this token.
fn place_of(alive: &[Session], token: NodeIdRef<'_>) -> Option<usize>
    ensures { result ≡ position (is_named (node_of token.entry)) alive.now }
{
    alive.iter().position(|session| session.is_named(token))
}
