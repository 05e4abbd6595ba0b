//! What holds of the calls of any connection's sessions, whatever they are, and of the users' judgement.

ghost use Rattle.std.specs.Prelude.{◌≡◌, ◌≢◌, ◌≤◌, ◌↔◌, ◌++◌, [], ◌∷◌, List, ℕ, Option, Some, Ok, Err, true, length, unwrap_or, codes};
ghost use Rattle.ua_binary.specs.declared.values.NodeId.{NodeId};
ghost use Rattle.ua_session.specs.Users.{Allowed, Claim, Anonymous, Named, Other, judgement, IsFirst};
ghost use Rattle.ua_session.specs.Sessions.{SessionsState, no_sessions, user_at};
ghost use Rattle.ua_session.specs.History.{SessionCall, Create, Activate, Close, RunsSessions, AreAnswered, LeaveAlone};

use crate::fault::SessionFault;

/// Whatever the calls of new sessions are, each is answered by what happened before it: a session is
/// made where there is room for one more, a token is valid from `create` to `close` and never again, and
/// its user is that of its last activation.
#[tactic(auto, using(crate::proofs::Histories::answered))]
pub fn calls_are_answered_by_what_happened()
    ensures { (events : List SessionCall) (state : SessionsState)
        → RunsSessions no_sessions events state → AreAnswered [] events }
{}

/// A session has no user after it was made, and then that of its last activation that was allowed for
/// the users of that call, whatever is called for other sessions and whatever is refused. Once it was
/// closed its token is invalid, whatever is called later.
#[tactic(auto, using(crate::proofs::Lasting::lasting))]
pub fn user_is_that_of_the_last_activation()
    ensures made { (before later : List SessionCall) (given : NodeId × NodeId) (state : SessionsState)
        → RunsSessions no_sessions (before ++ Create (Ok given) ∷ later) state
        → LeaveAlone given.1 later
        → user_at state given.1 ≡ Err SessionFault.NotActivated }
    ensures activated { (before later : List SessionCall) (token : NodeId) (allowed : Allowed) (claim : Claim)
        (user : List ℕ) (state : SessionsState)
        → RunsSessions no_sessions (before ++ Activate token allowed claim (Ok user) ∷ later) state
        → LeaveAlone token later
        → (judgement allowed claim ≡ Ok user) × (user_at state token ≡ Ok user) }
    ensures closed { (before later : List SessionCall) (token : NodeId) (state : SessionsState)
        → RunsSessions no_sessions (before ++ Close token (Ok tt) ∷ later) state
        → user_at state token ≡ Err SessionFault.IdInvalid }
{}

/// No id and no token is ever given a second time, whatever is closed between.
#[tactic(auto, using(crate::proofs::Lasting::once))]
pub fn tokens_are_given_once()
    ensures { (before between later : List SessionCall) (one two : NodeId × NodeId)
        (state : SessionsState)
        → RunsSessions no_sessions
        (before ++ Create (Ok one) ∷ (between ++ Create (Ok two) ∷ later)) state
        → (one.0 ≢ two.0) × (one.1 ≢ two.1) }
{}

/// At most 16 sessions are open at a time, and 1,000,000 are made.
#[tactic(auto, using(crate::proofs::Lasting::bounded))]
pub fn sessions_are_bounded()
    ensures { (events : List SessionCall) (state : SessionsState)
        → RunsSessions no_sessions events state
        → (length state.alive ≤ 16) × (state.made ≤ 1000000) }
{}

/// Who is let in: a user without a name where that is allowed, as `anonymous`; and a user with a name and
/// no encryption where the first user of that name has the whole of the password.
#[tactic(auto, using(crate::proofs::Judging::letting_in))]
pub fn identities_are_judged_by_the_first_of_equal_names()
    ensures anonymous { (allowed : Allowed) (user : List ℕ)
        → (judgement allowed Anonymous ≡ Ok user)
        ↔ ((allowed.anonymous ≡ true) × (user ≡ codes "anonymous")) }
    ensures named { (allowed : Allowed) (name password algorithm : Option (List ℕ)) (user : List ℕ)
        → (judgement allowed (Named name password algorithm) ≡ Ok user)
        ↔
        ((unwrap_or algorithm [] ≡ []) × (name ≡ Some user)
        × IsFirst allowed.named user (unwrap_or password [])) }
    ensures other { (allowed : Allowed) → judgement allowed Other ≡ Err SessionFault.IdentityInvalid }
{}
