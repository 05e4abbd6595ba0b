//! Where settings are lawful and unwise, a warning a line.

ghost use Rattle.std.specs.Prelude.{◌≡◌, ◌++◌, OnOk, nat_eq, codes, not, false};
ghost use Rattle.std.specs.Option.{option_copied, option_map_or};
ghost use Rattle.std.specs.List.{list_any};
ghost use Rattle.std.specs.Cmp.Lexicographic.{pointwise};
ghost use Rattle.history_report.specs.Tables.{legible};
ghost use Rattle.settings_check.specs.Texts.{text_of, begins_with};
ghost use Rattle.settings_check.specs.Warnings.{warned, is_local, is_local_url, anonymous_writes, is_own, scheme_warning, local_warning, nobody_warning, anonymous_warning, door_warning, web_warning, logins_warning, path_warning, repeated_warning, repeated_warnings, own_warning, own_warnings, warnings};

use crate::texts::{begins_with, put_shown};
use std::alloc::AllocError;
use ua_session::{Access, Users};
use ua_settings::{PeerCall, Settings};

/// Appends a warning of these words, where it is given.
fn put_warned(out: &mut Vec<u8>, given: bool, words: &[u8]) -> Result<(), AllocError>
    ensures { OnOk result
        (out.new.items ≡ out.old.items ++ text_of (warned given words.now)) }
{
    if given {
        out.extend_from_slice(b"warning: ")?;
        out.extend_from_slice(words)?;
        out.push(b'\n')?;
    }
    Ok(())
}

/// Appends a warning of these words and a name, where it is given.
pub(crate) fn put_warned_of(
    out: &mut Vec<u8>,
    given: bool,
    words: &[u8],
    name: &str,
) -> Result<(), AllocError>
    ensures { OnOk result
        (out.new.items
        ≡ out.old.items ++ text_of (warned given (words.now ++ legible name.now))) }
{
    if given {
        out.extend_from_slice(b"warning: ")?;
        out.extend_from_slice(words)?;
        put_shown(out, name)?;
        out.push(b'\n')?;
    }
    Ok(())
}

/// Whether this machine alone reaches an address.
fn is_local(address: &str) -> bool
    ensures { result ≡ is_local address.now }
{
    begins_with(address, b"localhost")
        || begins_with(address, b"127.")
        || begins_with(address, b"[::1]")
}

/// Whether a URL names such an address.
fn is_local_url(url: &str) -> bool
    ensures { result ≡ is_local_url url.now }
{
    begins_with(url, b"opc.tcp://localhost")
        || begins_with(url, b"opc.tcp://127.")
        || begins_with(url, b"opc.tcp://[::1]")
}

/// Whether who gives no name may write.
fn anonymous_writes(users: &Users) -> bool
    ensures { result ≡ anonymous_writes users.now }
{
    users.allows_anonymous() && matches!(users.access_of("anonymous"), Access::Write)
}

/// Whether the server listens at an address itself.
fn is_own(settings: &Settings, address: &str) -> bool
    ensures { result ≡ is_own settings.now address.now }
{
    if address == settings.listen() {
        return true;
    }
    match settings.door() {
        None => false,
        Some(door) => address == door.listen.as_str(),
    }
}

/// Appends a warning where the URL isn't one of OPC UA over TCP.
fn put_scheme(out: &mut Vec<u8>, settings: &Settings) -> Result<(), AllocError>
    ensures { OnOk result
        (out.new.items ≡ out.old.items ++ text_of (scheme_warning settings.now)) }
{
    put_warned(
        out,
        !begins_with(settings.url(), b"opc.tcp://"),
        b"url doesn't begin with opc.tcp://, so clients can't use what they are told",
    )
}

/// Appends a warning where clients elsewhere are told a URL by which they reach themselves.
fn put_local(out: &mut Vec<u8>, settings: &Settings) -> Result<(), AllocError>
    ensures { OnOk result
        (out.new.items ≡ out.old.items ++ text_of (local_warning settings.now)) }
{
    put_warned(
        out,
        is_local_url(settings.url()) && !is_local(settings.listen()),
        b"url names this machine alone, so clients elsewhere can't use what they are told",
    )
}

/// Appends a warning where nobody has a name, and who gives none may not write.
fn put_nobody(out: &mut Vec<u8>, settings: &Settings) -> Result<(), AllocError>
    ensures { OnOk result
        (out.new.items ≡ out.old.items ++ text_of (nobody_warning settings.now)) }
{
    let users = settings.users();
    put_warned(
        out,
        !users.has_named() && !anonymous_writes(users),
        b"nobody may write: there are no users with a name, and others may not",
    )
}

/// Appends a warning where everybody may write.
fn put_anonymous(out: &mut Vec<u8>, settings: &Settings) -> Result<(), AllocError>
    ensures { OnOk result
        (out.new.items ≡ out.old.items ++ text_of (anonymous_warning settings.now)) }
{
    put_warned(
        out,
        anonymous_writes(settings.users()),
        b"who gives no name may write",
    )
}

/// Appends a warning where who reaches the address of clients can exchange records.
fn put_door(out: &mut Vec<u8>, settings: &Settings) -> Result<(), AllocError>
    ensures { OnOk result
        (out.new.items ≡ out.old.items ++ text_of (door_warning settings.now)) }
{
    put_warned(
        out,
        settings.door().is_none() && !is_local(settings.listen()),
        b"there is no [door], so whoever reaches the clients' address can exchange records",
    )
}

/// Whether browsers come from elsewhere.
fn takes_others(settings: &Settings) -> bool
    ensures { result ≡ option_map_or (λ web. not (is_local web.listen)) settings.now.web false }
{
    match settings.web() {
        None => false,
        Some(web) => !is_local(web.listen.as_str()),
    }
}

/// Appends a warning where browsers elsewhere send names and passwords as they are.
fn put_web(out: &mut Vec<u8>, settings: &Settings) -> Result<(), AllocError>
    ensures { OnOk result
        (out.new.items ≡ out.old.items ++ text_of (web_warning settings.now)) }
{
    put_warned(
        out,
        settings.users().has_named() && takes_others(settings),
        b"browsers send passwords unencrypted: have a proxy with TLS in front of [web]",
    )
}

/// Appends a warning where any number of passwords may be tried.
fn put_logins(out: &mut Vec<u8>, settings: &Settings) -> Result<(), AllocError>
    ensures { OnOk result
        (out.new.items ≡ out.old.items ++ text_of (logins_warning settings.now)) }
{
    put_warned(
        out,
        settings.users().has_named() && settings.logins().is_none(),
        b"there is no [server] logins, so any number of passwords may be tried",
    )
}

/// Whether a path is taken from the folder in which the program is started.
fn is_relative(path: Option<&str>) -> bool
    ensures { result
        ≡ option_map_or (λ path. not (begins_with path (codes "/"))) (option_copied path.entry) false }
{
    match path {
        None => false,
        Some(path) => !begins_with(path, b"/"),
    }
}

/// Appends a warning where the store's path is relative.
fn put_path(out: &mut Vec<u8>, settings: &Settings) -> Result<(), AllocError>
    ensures { OnOk result
        (out.new.items ≡ out.old.items ++ text_of (path_warning settings.now)) }
{
    put_warned(
        out,
        is_relative(settings.store()),
        b"the store's path is relative: from another folder it makes a new, empty archive",
    )
}

/// Whether a peer has this address.
fn has_address(peer: &PeerCall, address: &str) -> bool
    ensures { result ≡ pointwise nat_eq peer.now.address address.now }
{
    peer.address.as_str() == address
}

/// Whether one of these peers has this address.
fn have_address(peers: &[PeerCall], address: &str) -> bool
    ensures { result
        ≡ list_any (λ peer. pointwise nat_eq peer.address address.now) peers.now }
{
    peers.iter().any(|peer| has_address(peer, address))
}

/// Appends a warning where a peer has the address of one of those after it.
fn put_repeated_of(
    out: &mut Vec<u8>,
    peer: &PeerCall,
    behind: &[PeerCall],
) -> Result<(), AllocError>
    ensures { OnOk result
        (out.new.items ≡ out.old.items ++ text_of (repeated_warning peer.now behind.now)) }
{
    let address = peer.address.as_str();
    let again = have_address(behind, address);
    put_warned_of(out, again, b"two peers have the address ", address)
}

/// Appends a warning of each peer whose address one after it has too.
fn put_repeated(out: &mut Vec<u8>, peers: &[PeerCall]) -> Result<(), AllocError>
    ensures { OnOk result
        (out.new.items ≡ out.old.items ++ text_of (repeated_warnings peers.now)) }
{
    for i in 0..peers.len() {
        put_repeated_of(out, &peers[i], &peers[i + 1..])?;
    }
    Ok(())
}

/// Appends a warning where the server listens at a peer's address itself.
fn put_own_of(out: &mut Vec<u8>, settings: &Settings, peer: &PeerCall) -> Result<(), AllocError>
    ensures { OnOk result
        (out.new.items ≡ out.old.items ++ text_of (own_warning settings.now peer.now)) }
{
    let address = peer.address.as_str();
    let own = is_own(settings, address);
    put_warned_of(out, own, b"a peer has this server's own address ", address)
}

/// Appends a warning of each peer at whose address the server listens itself.
fn put_own(out: &mut Vec<u8>, settings: &Settings, peers: &[PeerCall]) -> Result<(), AllocError>
    ensures { OnOk result
        (out.new.items ≡ out.old.items ++ text_of (own_warnings settings.now peers.now)) }
{
    for peer in peers {
        put_own_of(out, settings, peer)?;
    }
    Ok(())
}

/// Appends where settings are lawful and unwise.
pub(crate) fn put_warnings(out: &mut Vec<u8>, settings: &Settings) -> Result<(), AllocError>
    ensures { OnOk result (out.new.items ≡ out.old.items ++ text_of (warnings settings.now)) }
{
    put_scheme(out, settings)?;
    put_local(out, settings)?;
    put_nobody(out, settings)?;
    put_anonymous(out, settings)?;
    put_door(out, settings)?;
    put_web(out, settings)?;
    put_logins(out, settings)?;
    put_path(out, settings)?;
    put_repeated(out, settings.peers().as_slice())?;
    put_own(out, settings, settings.peers().as_slice())
}
