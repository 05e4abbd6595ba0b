//! Who may activate a session, and as whom.

ghost use Rattle.std.specs.Cmp.Lexicographic.{pointwise};
ghost use Rattle.std.specs.Prelude.{◌≡◌, ◌≤◌, ◌<◌, [], length, nat_lt, find, IfOk, IfErr, IfSome, OnOk, nat_eq};
ghost use Rattle.std.specs.List.{AllByRecursion};
ghost use Rattle.std.specs.Option.{option_copied};
ghost use Rattle.ua_session.specs.Users.{user_name_of, judgement_of_name, HasShortName, IsUserName};
ghost use Rattle.ua_session.specs.declared.identity.Access.TheVariants.{Write};

use crate::fault::SessionFault;
use crate::identity::{Access, Identity, User};
use std::alloc::Global;
use std::marker::Model;
use ua_binary::{Bytes, Text};

/// The name that the server gives a user without one.
const ANONYMOUS: &str = "anonymous";

/// The users that are allowed to activate sessions.
#[derive(Debug, Drop)]
pub struct Users {
    alloc: Global,
    anonymous: bool,
    anonymous_access: Access,
    named: Vec<User>,
}

impl Model for Users {
    ghost use Rattle.std.specs.List.{AllByRecursion};
    ghost use Rattle.ua_session.specs.Users.{Allowed, HasShortName};

    ghost Value = { Allowed };

    ghost view = { λ u.
        record {
          anonymous = u.anonymous;
          anonymous_access = u.anonymous_access;
          named = u.named.items;
        } };

    ghost invariant = { λ u. AllByRecursion HasShortName u.named.items };
}

impl Users {
    ghost use Rattle.ua_session.specs.Users.{claim_of, judgement, with_added, access_of, password_of};

    /// No user with a name yet; a user without one is allowed or not, and may update histories. It takes no memory.
    pub fn new(alloc: Global, anonymous: bool) -> Self
        ensures { result
            ≡ record { anonymous = anonymous; anonymous_access = Write; named = [] } }
    {
        Users {
            alloc,
            anonymous,
            anonymous_access: Access::Write,
            named: Vec::new(alloc),
        }
    }

    /// What a user without a name may do from now on.
    pub fn set_anonymous_access(&mut self, access: Access)
        ensures { self.new ≡ record self.old { anonymous_access = access } }
    {
        self.anonymous_access = access;
    }

    /// Whether a user without a name is allowed.
    pub fn allows_anonymous(&self) -> bool
        ensures { result ≡ self.now.anonymous }
    {
        self.anonymous
    }

    /// Whether there is a user with a name.
    pub fn has_named(&self) -> bool
        ensures { result ≡ nat_lt 0 (length self.now.named) }
    {
        !self.named.is_empty()
    }

    /// Adds a user who may update histories, whose name has 1 to 256 bytes. Of two equal names the first one counts. The one
    /// error is `OutOfMemory`, which changes nothing.
    pub fn add(&mut self, name: &str, password: &[u8]) -> Result<(), SessionFault>
        requires some { 0 < length name.now }
        requires short { length name.now ≤ 256 }
        ensures ok { OnOk result
            (self.new ≡ with_added self.old name.now password.now Write) }
        ensures err { IfErr result (λ fault. (fault ≡ SessionFault.OutOfMemory) × (self.new ≡ self.old)) }
    {
        self.add_with(name, password, Access::Write)
    }

    /// Adds a user as `add` does, who may do this.
    pub fn add_with(
        &mut self,
        name: &str,
        password: &[u8],
        access: Access,
    ) -> Result<(), SessionFault>
        requires some { 0 < length name.now }
        requires short { length name.now ≤ 256 }
        ensures ok { OnOk result (self.new ≡ with_added self.old name.now password.now access) }
        ensures err { IfErr result (λ fault. (fault ≡ SessionFault.OutOfMemory) × (self.new ≡ self.old)) }
    {
        let name = Text::from_str(self.alloc, name)?;
        let password = Bytes::from_slice(self.alloc, password)?;
        self.named.push(User {
            name,
            password,
            access,
        })?;
        Ok(())
    }

    /// What the user of this name may do, who was allowed as one of these: `anonymous` has no name of its own. It takes no
    /// memory.
    pub fn access_of(&self, name: &str) -> Access
        ensures { result ≡ access_of self.now name.now }
    {
        if name == ANONYMOUS {
            return self.anonymous_access;
        }
        match find_user(&self.named, name) {
            Some(user) => user.access,
            None => Access::Read,
        }
    }

    /// The password of the first user of this name, by which a client of that user's comes. It takes no memory.
    pub fn password_of(&self, name: &str) -> Option<&[u8]>
        ensures { option_copied result ≡ password_of self.now name.now }
    {
        match find_user(&self.named, name) {
            Some(user) => Some(user.password.as_slice()),
            None => None,
        }
    }

    /// As whom an identity is allowed: `anonymous`, or the first user of that name where the password is
    /// that user's. `IdentityInvalid` for a token of another type and for a password that is encrypted,
    /// whoever it names; else `IdentityRejected`.
    #[tactic(auto, using(crate::proofs::Nobody::anonymity))]
    pub fn judge(&self, identity: Identity<'_>) -> Result<&str, SessionFault>
        ensures judged { user_name_of result ≡ judgement self.now (claim_of identity.entry) }
        ensures name { IfOk result (λ user. IsUserName user.now) }
    {
        match identity {
            Identity::Anonymous => {
                if self.anonymous {
                    Ok(ANONYMOUS)
                } else {
                    Err(SessionFault::IdentityRejected)
                }
            }
            Identity::Named {
                name,
                password,
                algorithm,
            } => {
                if !algorithm.unwrap_or("").is_empty() {
                    return Err(SessionFault::IdentityInvalid);
                }
                admit(&self.named, name, password.unwrap_or(&[]))
            }
            Identity::Other => Err(SessionFault::IdentityInvalid),
        }
    }
}

/// The name of the first user who has this name, where the password is that user's.
fn admit<'a>(
    users: &'a [User],
    name: Option<&str>,
    password: &[u8],
) -> Result<&'a str, SessionFault>
    requires { AllByRecursion HasShortName users.now }
    ensures known { user_name_of result
        ≡ judgement_of_name users.now (option_copied name.entry) password.now }
    ensures name { IfOk result (λ user. IsUserName user.now) }
{
    let name = name.ok_or(SessionFault::IdentityRejected)?;
    let user = find_user(users, name).ok_or(SessionFault::IdentityRejected)?;
    if user.password.as_slice() == password {
        Ok(user.name.as_str())
    } else {
        Err(SessionFault::IdentityRejected)
    }
}

/// The first user of this name.
fn find_user<'a>(users: &'a [User], name: &str) -> Option<&'a User>
    requires { AllByRecursion HasShortName users.now }
    ensures found { option_copied result ≡ find (λ user. pointwise nat_eq user.name name.now) users.now }
    ensures short { IfSome result (λ user. HasShortName user.now) }
{
    users.iter().find(|user| user.name.as_str() == name)
}
