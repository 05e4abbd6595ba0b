//! Why something was refused, in words: a second line on standard error, after the program's own. No clause speaks of it, as of
//! all that the system says.

use archive::StoreFault;
use counted_io::{Counted, ServeFault};
use std::alloc::{AllocError, Global};
use std::io::{ErrorKind, Write};
use ua_client::ClientFault;
use ua_server::ProgramFault;
use ua_settings::SettingsFault;

/// What is said of words that the parser takes, and that say nothing to do.
const NO_COMMAND: &str = "want a command, and after --perform insert, replace or update";

/// Why a store broke, where nothing more is known.
pub(crate) const BROKEN: &str = "a read or a write of its disk failed";

/// What keys of the settings hold, for those whose value may be wrong.
static WANTED: [(&str, &str); 25] = [
    (
        "[archive] id",
        "want a UUID, as 3f2c8a10-5b1e-4c7d-9a60-2d8f4b6e7c90",
    ),
    (
        "id",
        "want a text that is no other id, of a variable one of 1 to 256 bytes",
    ),
    ("replica", "want a whole number from 1 to 64"),
    ("broken", "want \"stop\" or \"reopen\", or no such key"),
    ("index", "want true or false"),
    ("anonymous", "want true or false"),
    ("strict", "want true or false"),
    (
        "slow",
        "want a whole number of milliseconds from 1 to 60000",
    ),
    ("anonymous_access", "want \"read\" or \"write\""),
    ("access", "want \"read\" or \"write\""),
    ("connections", "want a whole number from 1 to 1000"),
    ("logins", "want a whole number from 1 to 1000"),
    ("waiting", "want a whole number of MiB from 1 to 65536"),
    (
        "name",
        "want a text, of a user one of 1 to 256 bytes that is neither another user's nor anonymous",
    ),
    ("password", "want a text, and no password_file beside it"),
    (
        "password_file",
        "want the path of a file whose first line isn't empty",
    ),
    (
        "type",
        "want Boolean, SByte, Byte, Int16, UInt16, Int32, UInt32, Int64, UInt64, Float, Double, String, DateTime, Guid or ByteString",
    ),
    ("array", "want true or false"),
    ("folder", "want the id of a [[folder]]"),
    ("from", "want an array of texts, as [\"10.1.0.0/16\"]"),
    ("replicas", "want an array of whole numbers from 1 to 64"),
    ("ahead", "want a whole number of seconds from 1 to 31536000"),
    ("every", "want a whole number of seconds from 1 to 86400"),
    ("check", "want true or false"),
    ("events", "want true or false"),
];

/// What is said of a key that its table may not have, by the heading that stands before it.
static KEYS: [(&str, &str); 9] = [
    (
        "[archive] ",
        "there is no such key: want id, replica, store, broken or index",
    ),
    (
        "[server] ",
        "there is no such key: want listen, url, application, namespace, anonymous, anonymous_access, connections, waiting, strict, slow or logins",
    ),
    (
        "[[user]] ",
        "there is no such key: want name, password, password_file or access",
    ),
    ("[[folder]] ", "there is no such key: want id or name"),
    (
        "[[variable]] ",
        "there is no such key: want id, name, type, array or folder",
    ),
    (
        "[[peer]] ",
        "there is no such key: want address, every or check",
    ),
    (
        "[door] ",
        "there is no such key: want listen, from, replicas or ahead",
    ),
    ("[web] ", "there is no such key: want listen or connections"),
    ("[log] ", "there is no such key: want events"),
];

/// What is said of the key at a place of the settings that its table may not have.
fn unknown(place: &str) -> &'static str {
    match KEYS.iter().find(|(heading, _)| place.starts_with(*heading)) {
        Some((_, words)) => words,
        None => {
            "there is no such table: want [archive], [server], [[user]], [[folder]], [[variable]], [[peer]], [door], [web] or [log]"
        }
    }
}

/// What the key at a place of the settings has to hold, or what a file is to be that strict settings are refused for.
fn wanted(place: &str) -> &'static str {
    if place.starts_with("[server] strict, ") {
        return "want a file that its owner alone may write, and that not all may read if it has a password: chmod 640 it";
    }
    match WANTED.iter().find(|(key, _)| is_at(place, key)) {
        Some((_, words)) => words,
        None => "want a text, or a table of this name",
    }
}

/// Whether a place is that of a key: its last word.
fn is_at(place: &str, key: &str) -> bool {
    match place.strip_suffix(key) {
        Some(front) => front.is_empty() || front.ends_with(' '),
        None => false,
    }
}

/// Why settings are refused at a place.
fn of_settings(fault: SettingsFault, place: &str) -> Option<&'static str> {
    match fault {
        SettingsFault::NotToml => Some("it isn't TOML there"),
        SettingsFault::MissingKey => Some("this key has to be there"),
        SettingsFault::UnknownKey => Some(unknown(place)),
        SettingsFault::BadValue => Some(wanted(place)),
        SettingsFault::Space(_) if place.ends_with("variables") => Some("want at most 1000"),
        SettingsFault::Space(_) => Some(wanted(place)),
        SettingsFault::OutOfMemory => None,
    }
}

/// Why a file can't be read.
pub(crate) fn of_file(kind: ErrorKind) -> Option<&'static str> {
    match kind {
        ErrorKind::NotFound => Some("no such file"),
        ErrorKind::PermissionDenied => Some("not permitted"),
        ErrorKind::IsADirectory => Some("it is a folder"),
        ErrorKind::InvalidData => Some("it isn't UTF-8"),
        _ => None,
    }
}

/// Why a store's file can't be opened to be read and written.
pub(crate) fn of_store(kind: ErrorKind) -> Option<&'static str> {
    match kind {
        ErrorKind::NotFound => Some("no such folder"),
        ErrorKind::PermissionDenied => Some("not permitted"),
        ErrorKind::IsADirectory => Some("it is a folder"),
        ErrorKind::ReadOnlyFilesystem => Some("its disk can't be written"),
        ErrorKind::StorageFull | ErrorKind::QuotaExceeded => Some("disk full"),
        _ => None,
    }
}

/// Why an address can't be listened at.
pub(crate) fn of_listener(kind: ErrorKind) -> &'static str {
    match kind {
        ErrorKind::AddrInUse => "port in use",
        ErrorKind::AddrNotAvailable => "not an address of this machine",
        ErrorKind::PermissionDenied => "not permitted: ports below 1024 are root's",
        _ => "it can't be listened at",
    }
}

/// Why a peer can't be called.
pub(crate) fn of_call(kind: ErrorKind) -> &'static str {
    match kind {
        ErrorKind::ConnectionRefused => "nobody listens there",
        ErrorKind::TimedOut => "no answer from there",
        ErrorKind::HostUnreachable | ErrorKind::NetworkUnreachable => "no way there",
        _ => "it can't be reached",
    }
}

/// Why a store is refused, by what was found of its file, or why it broke.
fn of_refusal(fault: StoreFault, found: Option<&'static str>) -> Option<&'static str> {
    match fault {
        StoreFault::WrongArchive => Some("it is of another archive than the settings' id"),
        StoreFault::WrongReplica => Some("it is of another replica than the settings'"),
        StoreFault::Broken => Some(found.unwrap_or(BROKEN)),
        StoreFault::OutOfMemory => Some("out of memory"),
        StoreFault::Refused => found,
    }
}

/// What a status code by which a server refuses means, in hexadecimal digits and in words.
fn of_code(code: u32) -> &'static str {
    match code {
        0x801F_0000 => "801F0000 Bad_UserAccessDenied: it doesn't let this user write",
        0x8020_0000 => "80200000 Bad_IdentityTokenInvalid: it takes no such login",
        0x8021_0000 =>
            "80210000 Bad_IdentityTokenRejected: it doesn't know this user by this password",
        0x8056_0000 => "80560000 Bad_TooManySessions: it has no room for one more session",
        0x807D_0000 => "807D0000 Bad_TcpServerTooBusy: it has no room for one more connection",
        _ => "the number is a status code of OPC UA",
    }
}

/// Why a running server that rows are brought to didn't do what it was asked.
fn of_server(fault: ClientFault) -> Option<&'static str> {
    match fault {
        ClientFault::Refused(code) => Some(of_code(code.0)),
        ClientFault::Connection(_) | ClientFault::Closed => {
            Some("the rows that it answered stand; whether one more does isn't known")
        }
        ClientFault::Format => {
            Some("that isn't the address of clients of a uahist, or of a server like it")
        }
        ClientFault::TooLarge | ClientFault::OutOfMemory => None,
    }
}

/// Why a call of a peer met the end of the exchange, by its number, here or there.
fn of_exchange(number: u32) -> Option<&'static str> {
    match number {
        1 => Some("what came is no frame, or the peer hung up: is it the address of its door?"),
        2 => Some("the peer is of another archive: compare [archive] id"),
        3 => Some("a record was refused: a disk is full, or two records have one number"),
        4 => Some("out of memory, here or there"),
        5 => Some("the peer has this machine's number: compare [archive] replica"),
        6 => Some("a read or a write of a disk failed, here or there"),
        7 => Some("there were too many frames"),
        8 => Some("the peer speaks an older format of exchanges: compare the versions"),
        9 => Some("a record is ahead of a clock: compare the clocks, and [door] ahead"),
        10 => Some("a record is of a replica that a [door] doesn't take: compare its replicas"),
        11 => Some(
            "a number was given to two records: look at standard error of the machine that called",
        ),
        _ => Some("the number is the peer's own"),
    }
}

/// What is told of an ending after its own line, by what the system said last where the machine couldn't do something, and by
/// why a store broke that it closed. An address of which it said nothing wasn't asked for: its text spells none.
pub(crate) fn of_ending(
    ending: &Result<(), ProgramFault>,
    said: Option<&'static str>,
    broken: Option<&'static str>,
) -> Option<&'static str> {
    let Err(fault) = ending else {
        return None;
    };
    match fault {
        ProgramFault::File | ProgramFault::NoRows => said,
        ProgramFault::Settings(fault, Some(place)) => of_settings(*fault, place.as_str()),
        ProgramFault::Store(StoreFault::Broken) | ProgramFault::StoreBroken => {
            of_refusal(StoreFault::Broken, broken)
        }
        ProgramFault::Store(fault) => of_refusal(*fault, said),
        ProgramFault::Address
        | ProgramFault::DoorAddress
        | ProgramFault::PeerAddress(_)
        | ProgramFault::WebAddress => {
            said.or(Some("not an address: want one as 127.0.0.1:4840"))
        }
        ProgramFault::Server(fault) => of_server(*fault),
        ProgramFault::Exchange(fault) => of_exchange(u32::from(fault.number())),
        ProgramFault::Peer(number) => of_exchange(*number),
        ProgramFault::DoorNetwork(_) => Some("not a network: want one as 10.1.0.0/16"),
        ProgramFault::NumberTwice(_) => {
            Some("an old copy of a store was put back, or two machines have one number")
        }
        _ => None,
    }
}

/// What the parser of the command line says, up to its first empty line, as one line.
fn mistake_in(alloc: Global, said: &str) -> Result<String, AllocError> {
    let mut told = String::new(alloc);
    for line in said.lines() {
        let words = line.trim();
        if words.is_empty() {
            return Ok(told);
        }
        if !told.is_empty() {
            told.push(' ')?;
        }
        told.push_str(words.strip_prefix("error: ").unwrap_or(words))?;
    }
    Ok(told)
}

/// Tells which of the words of a command line is wrong, by what the parser says of them; where it says nothing they name no
/// command, or a way to import that there isn't.
pub(crate) fn tell_mistake<W: Write>(
    alloc: Global,
    said: Option<String>,
    errors: &mut Counted<W>,
) -> Result<(), ServeFault> {
    let Some(said) = said else {
        return tell(NO_COMMAND, errors);
    };
    match mistake_in(alloc, said.as_str()) {
        Ok(mistake) => tell(mistake.as_str(), errors),
        Err(_) => Err(ServeFault::OutOfMemory),
    }
}

/// Writes such a line.
pub(crate) fn tell<W: Write>(words: &str, errors: &mut Counted<W>) -> Result<(), ServeFault> {
    errors.send(b"uahist: ")?;
    errors.send_line(words.as_bytes())
}
