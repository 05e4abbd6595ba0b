//! Sessions and their users.

use std::alloc::Global;
use ua_binary::NodeIdRef;
use ua_session::{Access, Identity, SessionFault, Sessions, Users};

/// One call, and what it answers.
enum Call {
    /// `create`, with the numbers of the id and the token.
    Create(Result<(u32, u32), SessionFault>),
    Activate(NodeIdRef<'static>, Identity<'static>, Told),
    Close(NodeIdRef<'static>, Result<(), SessionFault>),
    UserOf(NodeIdRef<'static>, Told),
}

type Told = Result<&'static str, SessionFault>;

use Call::{Activate, Close, Create, UserOf};
use SessionFault::{IdInvalid, IdentityInvalid, IdentityRejected, NotActivated, TooMany};

/// The tokens of the first sessions.
const FIRST: NodeIdRef<'static> = NodeIdRef::Numeric(1, 3);

const SECOND: NodeIdRef<'static> = NodeIdRef::Numeric(1, 5);

const NOBODY: Identity<'static> = Identity::Anonymous;

/// A name and a password that isn't encrypted.
const ANN: Identity<'static> = Identity::Named {
    name: Some("ann"),
    password: Some(b"pw"),
    algorithm: None,
};

/// Whether the call is answered so.
fn is_answered(sessions: &mut Sessions, users: &Users, call: &Call) -> bool {
    match call {
        Create(wanted) => is_created(sessions, *wanted),
        Activate(token, identity, wanted) => {
            is_told(sessions.activate(*token, *identity, users), *wanted)
        }
        Close(token, wanted) => sessions.close(*token) == *wanted,
        UserOf(token, wanted) => is_told(sessions.user_of(*token), *wanted),
    }
}

/// Whether a call tells this user, or this fault.
fn is_told(told: Result<&str, SessionFault>, wanted: Told) -> bool {
    match (told, wanted) {
        (Ok(user), Ok(wanted)) => user == wanted,
        (Err(fault), Err(wanted)) => fault == wanted,
        _ => false,
    }
}

/// Whether the node ids of a session that was created have the wanted numbers.
fn are_numbered(
    id: NodeIdRef<'_>,
    token: NodeIdRef<'_>,
    wanted: Result<(u32, u32), SessionFault>,
) -> bool {
    match wanted {
        Ok((wanted_id, wanted_token)) => {
            id == NodeIdRef::Numeric(1, wanted_id) && token == NodeIdRef::Numeric(1, wanted_token)
        }
        Err(_) => false,
    }
}

/// Whether a session is created with these numbers, or refused by this fault.
fn is_created(sessions: &mut Sessions, wanted: Result<(u32, u32), SessionFault>) -> bool {
    match sessions.create() {
        Ok((id, token)) => are_numbered(id.as_ref(), token.as_ref(), wanted),
        Err(fault) => wanted == Err(fault),
    }
}

/// Adds users of two equal names, and one with an empty password.
fn add_users(users: &mut Users) -> Result<(), SessionFault> {
    users.add("ann", b"pw")?;
    users.add("bob", b"first")?;
    users.add("bob", b"second")?;
    users.add("eve", b"")
}

/// The users of the tests.
fn users_of(alloc: Global, anonymous: bool) -> Result<Users, SessionFault> {
    let mut users = Users::new(alloc, anonymous);
    add_users(&mut users)?;
    Ok(users)
}

static ONE_SESSION: [Call; 14] = [
    UserOf(FIRST, Err(IdInvalid)),
    Activate(FIRST, NOBODY, Err(IdInvalid)),
    Close(FIRST, Err(IdInvalid)),
    Create(Ok((2, 3))),
    UserOf(FIRST, Err(NotActivated)),
    Activate(FIRST, NOBODY, Ok("anonymous")),
    UserOf(FIRST, Ok("anonymous")),
    UserOf(NodeIdRef::Numeric(1, 9), Err(IdInvalid)),
    Activate(FIRST, ANN, Ok("ann")),
    UserOf(FIRST, Ok("ann")),
    Close(FIRST, Ok(())),
    UserOf(FIRST, Err(IdInvalid)),
    Activate(FIRST, ANN, Err(IdInvalid)),
    Close(FIRST, Err(IdInvalid)),
];

static TWO_SESSIONS: [Call; 12] = [
    Create(Ok((2, 3))),
    Create(Ok((4, 5))),
    Activate(SECOND, ANN, Ok("ann")),
    UserOf(FIRST, Err(NotActivated)),
    Activate(FIRST, NOBODY, Ok("anonymous")),
    UserOf(SECOND, Ok("ann")),
    Close(FIRST, Ok(())),
    UserOf(SECOND, Ok("ann")),
    Create(Ok((6, 7))),
    UserOf(FIRST, Err(IdInvalid)),
    Close(SECOND, Ok(())),
    UserOf(NodeIdRef::Numeric(1, 7), Err(NotActivated)),
];

/// The first of some calls that is answered otherwise.
fn first_other(sessions: &mut Sessions, users: &Users, calls: &[Call]) -> Option<usize> {
    for (i, call) in calls.iter().enumerate() {
        if !is_answered(sessions, users, call) {
            return Some(i);
        }
    }
    None
}

/// The same of sessions that are new, and the users of the tests.
fn first_other_of(alloc: Global, users: &Users, calls: &[Call]) -> Option<usize> {
    let mut sessions = Sessions::new(alloc);
    first_other(&mut sessions, users, calls)
}

/// The first call that is answered otherwise of each of the two rows of calls.
fn others(alloc: Global) -> Result<(Option<usize>, Option<usize>), SessionFault> {
    let users = users_of(alloc, true)?;
    Ok((
        first_other_of(alloc, &users, &ONE_SESSION),
        first_other_of(alloc, &users, &TWO_SESSIONS),
    ))
}

#[test]
fn sessions_in_order(rt: HostRuntime) {
    assert_eq!(rt; others(rt.alloc()), Ok((None, None)));
}

/// A name, a password and an algorithm, and the answer.
static NAMED: [(Option<&str>, Option<&[u8]>, Option<&str>, Told); 17] = [
    (Some("ann"), Some(b"pw"), None, Ok("ann")),
    (Some("ann"), Some(b"pw"), Some(""), Ok("ann")),
    (Some("ann"), Some(b"pw"), Some("x"), Err(IdentityInvalid)),
    (Some("ann"), Some(b"no"), Some("x"), Err(IdentityInvalid)),
    (Some("joe"), Some(b"no"), Some("x"), Err(IdentityInvalid)),
    (None, None, Some("x"), Err(IdentityInvalid)),
    (Some("ann"), Some(b"no"), None, Err(IdentityRejected)),
    (Some("ann"), Some(b"p"), None, Err(IdentityRejected)),
    (Some("ann"), Some(b"pwd"), None, Err(IdentityRejected)),
    (Some("ann"), None, None, Err(IdentityRejected)),
    (Some("joe"), Some(b"pw"), None, Err(IdentityRejected)),
    (Some("an"), Some(b"pw"), None, Err(IdentityRejected)),
    (Some(""), Some(b""), None, Err(IdentityRejected)),
    (None, Some(b"pw"), None, Err(IdentityRejected)),
    (Some("bob"), Some(b"first"), None, Ok("bob")),
    (Some("bob"), Some(b"second"), None, Err(IdentityRejected)),
    (Some("eve"), None, None, Ok("eve")),
];

/// What is called then, where an anonymous user isn't allowed.
static UNNAMED: [Call; 5] = [
    Activate(FIRST, NOBODY, Err(IdentityRejected)),
    Activate(FIRST, Identity::Other, Err(IdentityInvalid)),
    Activate(SECOND, Identity::Other, Err(IdInvalid)),
    Activate(SECOND, NOBODY, Err(IdInvalid)),
    UserOf(FIRST, Ok("eve")),
];

/// Whether an identity is answered so, after which ann is the user still where it is refused.
fn is_judged(sessions: &mut Sessions, users: &Users, identity: Identity<'_>, wanted: Told) -> bool {
    is_told(sessions.activate(FIRST, ANN, users), Ok("ann"))
        && is_told(sessions.activate(FIRST, identity, users), wanted)
        && is_told(sessions.user_of(FIRST), Ok(wanted.unwrap_or("ann")))
}

/// The first of the named identities that is answered otherwise.
fn first_misjudged(sessions: &mut Sessions, users: &Users) -> Option<usize> {
    for (i, row) in NAMED.iter().enumerate() {
        let (name, password, algorithm, wanted) = *row;
        let identity = Identity::Named {
            name,
            password,
            algorithm,
        };
        if !is_judged(sessions, users, identity, wanted) {
            return Some(i);
        }
    }
    None
}

/// What is answered otherwise in the first session: the first of the named identities, and of the calls without a name.
type Misjudged = (Option<usize>, Option<usize>);

/// What is answered otherwise once a session is created.
fn judge(sessions: &mut Sessions, users: &Users) -> Option<Misjudged> {
    if !is_created(sessions, Ok((2, 3))) {
        return None;
    }
    let named = first_misjudged(sessions, users);
    Some((named, first_other(sessions, users, &UNNAMED)))
}

/// What is answered otherwise in new sessions.
fn judge_new(alloc: Global, users: &Users) -> Option<Misjudged> {
    let mut sessions = Sessions::new(alloc);
    judge(&mut sessions, users)
}

/// What is answered otherwise to the users of the tests.
fn judge_users(alloc: Global) -> Result<Option<Misjudged>, SessionFault> {
    let users = users_of(alloc, false)?;
    Ok(judge_new(alloc, &users))
}

#[test]
fn identities(rt: HostRuntime) {
    assert_eq!(rt; judge_users(rt.alloc()), Ok(Some((None, None))));
}

/// Adds users who may write, and between them one who may read, and whose name comes twice.
fn add_writers_and_a_reader(users: &mut Users) -> Result<(), SessionFault> {
    users.add("ann", b"pw")?;
    users.add_with("ben", b"first", Access::Read)?;
    users.add_with("ben", b"second", Access::Write)?;
    users.add_with("cid", b"", Access::Write)
}

/// These users.
fn writers_and_a_reader(alloc: Global) -> Result<Users, SessionFault> {
    let mut users = Users::new(alloc, true);
    add_writers_and_a_reader(&mut users)?;
    Ok(users)
}

/// A name, and what the user of that name may do: one whom nobody knows may read.
static ACCESSES: [(&str, Access); 6] = [
    ("ann", Access::Write),
    ("ben", Access::Read),
    ("cid", Access::Write),
    ("dan", Access::Read),
    ("an", Access::Read),
    ("", Access::Read),
];

/// What users without a name may do at first, and once they may do each of these.
fn anonymous_accesses(users: &mut Users) -> [Access; 3] {
    let first = users.access_of("anonymous");
    users.set_anonymous_access(Access::Write);
    let second = users.access_of("anonymous");
    users.set_anonymous_access(Access::Read);
    [first, second, users.access_of("anonymous")]
}

/// The first name whose user may do something else.
fn first_other_access(users: &Users) -> Option<&'static str> {
    for row in &ACCESSES {
        let (name, access) = *row;
        if users.access_of(name) != access {
            return Some(name);
        }
    }
    None
}

/// Both of the writers and the reader.
fn accesses_of_three(alloc: Global) -> Result<([Access; 3], Option<&'static str>), SessionFault> {
    let mut users = writers_and_a_reader(alloc)?;
    let anonymous = anonymous_accesses(&mut users);
    Ok((anonymous, first_other_access(&users)))
}

#[test]
fn accesses(rt: HostRuntime) {
    let anonymous = [Access::Write, Access::Write, Access::Read];
    assert_eq!(rt; accesses_of_three(rt.alloc()), Ok((anonymous, None)));
}

/// Faults, their numbers and their codes.
static FAULTS: [(SessionFault, u8, u32); 6] = [
    (TooMany, 1, 0x8056_0000),
    (IdInvalid, 2, 0x8025_0000),
    (NotActivated, 3, 0x8027_0000),
    (IdentityInvalid, 4, 0x8020_0000),
    (IdentityRejected, 5, 0x8021_0000),
    (SessionFault::OutOfMemory, 6, 0x8003_0000),
];

#[test]
fn faults(rt: HostRuntime) {
    for row in &FAULTS {
        let (fault, number, code) = *row;
        assert!(rt;
            fault.number() == number && fault.code().0 == code,
            "at {fault}"
        );
    }
}

/// Whether a text has the name of a user, and no password.
fn has_no_password(shown: &str) -> bool {
    shown.contains("ann") && !shown.contains("pw") && !shown.contains("112")
}

/// Whether what is shown of some users is such a text.
fn are_shown_so(alloc: Global, users: &Users) -> bool {
    match format!(in alloc; "{users:?} {ANN:?}") {
        Ok(shown) => has_no_password(shown.as_str()),
        Err(_) => false,
    }
}

/// Whether it is of the users of the tests.
fn are_hidden(alloc: Global) -> Result<bool, SessionFault> {
    let users = users_of(alloc, true)?;
    Ok(are_shown_so(alloc, &users))
}

#[test]
fn passwords_are_not_shown(rt: HostRuntime) {
    assert_eq!(rt; are_hidden(rt.alloc()), Ok(true));
}
