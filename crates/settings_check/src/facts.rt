//! What settings say, a fact a line.

ghost use Rattle.std.specs.Prelude.{◌≡◌, ◌++◌, length, IfOk, OnOk};
ghost use Rattle.std.specs.Option.{option_copied};
ghost use Rattle.settings_check.specs.Texts.{text_of};
ghost use Rattle.settings_check.specs.Nodes.{variable_ids};
ghost use Rattle.settings_check.specs.Facts.{archive_line, store_line, listen_line, users_line, named_words, anonymous_words, variables_line, called_words, door_words, peers_line, web_line, web_facts, plain_facts, events_facts, logins_line, logins_facts, settings_facts};

use crate::nodes::{folders_of, variables_of};
use crate::texts::{put_counted, put_number, put_shown};
use std::alloc::{AllocError, Global};
use ua_session::{Access, Users};
use ua_settings::{DoorSettings, Settings, WebSettings};
use ua_space::Space;
use uuid::Uuid;

/// Appends which replica of which archive it is.
fn put_archive(out: &mut Vec<u8>, settings: &Settings) -> Result<(), AllocError>
    ensures { OnOk result (out.new.items ≡ out.old.items ++ archive_line settings.now) }
{
    let mut buffer = Uuid::encode_buffer();
    let id = settings.archive().hyphenated().encode_lower(&mut buffer);
    out.extend_from_slice(b"archive ")?;
    out.extend_from_slice(id.as_bytes())?;
    out.extend_from_slice(b", replica ")?;
    put_number(out, u64::from(settings.replica().get()))
}

/// Appends where its values are kept.
fn put_store(out: &mut Vec<u8>, settings: &Settings) -> Result<(), AllocError>
    ensures { OnOk result (out.new.items ≡ out.old.items ++ store_line settings.now) }
{
    match settings.store() {
        None => {
            out.extend_from_slice(b"no store: values are kept in memory and lost at the end")
        }
        Some(path) => {
            out.extend_from_slice(b"store ")?;
            put_shown(out, path)
        }
    }
}

/// Appends where the server listens, and where clients are told that it does.
fn put_listen(out: &mut Vec<u8>, settings: &Settings) -> Result<(), AllocError>
    ensures { OnOk result (out.new.items ≡ out.old.items ++ listen_line settings.now) }
{
    out.extend_from_slice(b"listens at ")?;
    put_shown(out, settings.listen())?;
    out.extend_from_slice(b"; clients are told ")?;
    put_shown(out, settings.url())
}

/// Whether there are users with a name.
fn named_words(users: &Users) -> &'static [u8]
    ensures { result.now ≡ named_words users.now }
{
    if users.has_named() {
        b"there are users with a name"
    } else {
        b"there are no users with a name"
    }
}

/// What a user without a name may do.
fn anonymous_words(users: &Users) -> &'static [u8]
    ensures { result.now ≡ anonymous_words users.now }
{
    if !users.allows_anonymous() {
        return b"not allowed";
    }
    match users.access_of("anonymous") {
        Access::Write => b"allowed, may write",
        Access::Read => b"allowed, reads only",
    }
}

/// Appends who may use it.
fn put_users(out: &mut Vec<u8>, users: &Users) -> Result<(), AllocError>
    ensures { OnOk result (out.new.items ≡ out.old.items ++ users_line users.now) }
{
    out.extend_from_slice(named_words(users))?;
    out.extend_from_slice(b"; without a name: ")?;
    out.extend_from_slice(anonymous_words(users))
}

/// How many folders a space has.
fn folder_count(space: &Space) -> Result<usize, AllocError>
    ensures { IfOk result (λ count. count ≡ length space.now.folders) }
{
    let folders = folders_of(space)?;
    Ok(folders.len())
}

/// How many variables a space has.
fn variable_count(alloc: Global, space: &Space) -> Result<usize, AllocError>
    ensures { IfOk result (λ count. count ≡ length (variable_ids space.now)) }
{
    let ids = variables_of(alloc, space)?;
    Ok(ids.as_slice().len())
}

/// Appends how many variables it has, and how many folders.
fn put_variables(alloc: Global, out: &mut Vec<u8>, space: &Space) -> Result<(), AllocError>
    ensures { OnOk result (out.new.items ≡ out.old.items ++ variables_line space.now) }
{
    let variables = variable_count(alloc, space)?;
    let folders = folder_count(space)?;
    put_counted(out, variables as u64, b" variable, ", b" variables, ")?;
    put_counted(out, folders as u64, b" folder", b" folders")
}

/// Appends how many peers it calls by itself.
fn put_called(out: &mut Vec<u8>, count: usize) -> Result<(), AllocError>
    ensures { OnOk result (out.new.items ≡ out.old.items ++ called_words count) }
{
    put_counted(
        out,
        count as u64,
        b" peer is called; ",
        b" peers are called; ",
    )
}

/// Appends where peers come to it.
fn put_door(out: &mut Vec<u8>, door: Option<&DoorSettings>) -> Result<(), AllocError>
    ensures { OnOk result
        (out.new.items ≡ out.old.items ++ door_words (option_copied door.entry)) }
{
    match door {
        None => out.extend_from_slice(b"peers come to the clients' address"),
        Some(own) => {
            out.extend_from_slice(b"the door listens at ")?;
            put_shown(out, own.listen.as_str())
        }
    }
}

/// Appends which peers it calls, and where others come to it.
fn put_peers(out: &mut Vec<u8>, settings: &Settings) -> Result<(), AllocError>
    ensures { OnOk result (out.new.items ≡ out.old.items ++ peers_line settings.now) }
{
    put_called(out, settings.peers().as_slice().len())?;
    put_door(out, settings.door())
}

/// Appends where browsers come to it, and how many of their connections are served at a time.
fn put_browsers(out: &mut Vec<u8>, own: &WebSettings) -> Result<(), AllocError>
    ensures { OnOk result (out.new.items ≡ out.old.items ++ web_line own.now) }
{
    out.extend_from_slice(b"browsers come to ")?;
    put_shown(out, own.listen.as_str())?;
    out.extend_from_slice(b", ")?;
    put_number(out, u64::from(own.connections))?;
    out.extend_from_slice(b" at a time")
}

/// Appends the same, where they come.
fn put_web(out: &mut Vec<u8>, web: Option<&WebSettings>) -> Result<(), AllocError>
    ensures { OnOk result
        (out.new.items ≡ out.old.items ++ text_of (web_facts (option_copied web.entry))) }
{
    let Some(own) = web else {
        return Ok(());
    };
    put_browsers(out, own)?;
    out.extend_from_slice(b"\n")
}

/// Appends what all settings say.
fn put_plain(alloc: Global, out: &mut Vec<u8>, settings: &Settings) -> Result<(), AllocError>
    ensures { OnOk result (out.new.items ≡ out.old.items ++ text_of (plain_facts settings.now)) }
{
    put_archive(out, settings)?;
    out.push(b'\n')?;
    put_store(out, settings)?;
    out.push(b'\n')?;
    put_listen(out, settings)?;
    out.push(b'\n')?;
    put_users(out, settings.users())?;
    out.push(b'\n')?;
    put_variables(alloc, out, settings.space())?;
    out.push(b'\n')?;
    put_peers(out, settings)?;
    out.extend_from_slice(b"\n")
}

/// Appends that what happens is told, where it is.
fn put_events(out: &mut Vec<u8>, events: bool) -> Result<(), AllocError>
    ensures { OnOk result (out.new.items ≡ out.old.items ++ text_of (events_facts events)) }
{
    if events {
        out.extend_from_slice(b"what happens is told on standard error, a line each")?;
        out.push(b'\n')?;
    }
    Ok(())
}

/// Appends after how many refused logins from one address its next ones wait.
fn put_most_logins(out: &mut Vec<u8>, most: u32) -> Result<(), AllocError>
    ensures { OnOk result (out.new.items ≡ out.old.items ++ logins_line most) }
{
    out.extend_from_slice(b"after ")?;
    put_counted(out, u64::from(most), b" refused login", b" refused logins")?;
    out.extend_from_slice(
        b" from one address within a minute its next ones are answered a second later each",
    )
}

/// Appends the same, where they wait.
fn put_logins(out: &mut Vec<u8>, logins: Option<u32>) -> Result<(), AllocError>
    ensures { OnOk result (out.new.items ≡ out.old.items ++ text_of (logins_facts logins)) }
{
    let Some(most) = logins else {
        return Ok(());
    };
    put_most_logins(out, most)?;
    out.extend_from_slice(b"\n")
}

/// Appends what settings say.
pub(crate) fn put_facts(
    alloc: Global,
    out: &mut Vec<u8>,
    settings: &Settings,
) -> Result<(), AllocError>
    ensures { OnOk result (out.new.items ≡ out.old.items ++ text_of (settings_facts settings.now)) }
{
    put_plain(alloc, out, settings)?;
    put_web(out, settings.web())?;
    put_events(out, settings.tells_events())?;
    put_logins(out, settings.logins())
}
