//! Strict settings: whether others than their owner may have a hand in a file of theirs.

ghost use Rattle.std.specs.Prelude.{◌≡◌, ◌++◌, codes, option_copied, IfOk, string_bytes};
ghost use Rattle.toml.specs.Parse.{parse_document};
ghost use Rattle.ua_settings.specs.Reading.{password_paths};
ghost use Rattle.ua_server.specs.Exposing.{all_read, is_exposed, others_write, Exposes, ExposesBeside, IsExposedFault, IsFirstBeside, IsFirstExposed, JudgesFiles, JudgesStrict};

use crate::files::cut;
use crate::host::Host;
use crate::program::ProgramFault;
use std::alloc::{AllocError, Global};
use std::fmt::Write as _;
use std::path::Path;
use ua_binary::Text;
use ua_settings::{SettingsFault, holds_password, password_files};

/// The bits of a mode by which others than its owner may write a file: its group, or all.
const OTHERS_WRITE: u32 = 0o022;

/// The bit of a mode by which all may read a file.
const ALL_READ: u32 = 0o004;

/// Whether others than its owner may write a file of this mode.
fn others_write(mode: u32) -> bool
    ensures { result ≡ others_write mode }
{
    mode & OTHERS_WRITE != 0
}

/// Whether all may read a file of this mode.
fn all_read(mode: u32) -> bool
    ensures { result ≡ all_read mode }
{
    mode & ALL_READ != 0
}

/// Whether a file of this mode is exposed. So is one whose mode can't be told.
fn is_exposed(has_password: bool, mode: Option<u32>) -> bool
    ensures { result ≡ is_exposed has_password mode }
{
    match mode {
        None => true,
        Some(bits) => others_write(bits) || (has_password && all_read(bits)),
    }
}

/// Whether the file at a path is exposed.
fn exposes<H: Host>(host: &H, path: &str, has_password: bool) -> bool
    ensures { Exposes H.means host.now path.now has_password result }
{
    is_exposed(has_password, host.mode(path))
}

/// Whether the password file of a path beside the settings' is exposed. The one error is want of memory.
fn exposes_beside<H: Host>(
    alloc: Global,
    host: &H,
    settings: &str,
    path: &str,
) -> Result<bool, AllocError>
    ensures { IfOk result
        (λ exposed. ExposesBeside H.means host.now settings.now exposed path.now) }
{
    let beside = Path::new(settings).with_file_name(alloc, path)?;
    Ok(exposes(host, beside.as_str(), true))
}

/// The first of these password files, beside the settings', that is exposed. The one error is want of memory.
fn first_beside<'a, H: Host>(
    alloc: Global,
    host: &H,
    settings: &str,
    paths: &'a [Text],
) -> Result<Option<&'a str>, AllocError>
    ensures { IfOk result
        (λ found. IsFirstBeside H.means host.now settings.now paths.now (option_copied found)) }
{
    for path in paths {
        if exposes_beside(alloc, host, settings, path.as_str())? {
            return Ok(Some(path.as_str()));
        }
    }
    Ok(None)
}

/// The first file that is exposed of the settings of this path and text, which name these password files: their own, or else one
/// of these. The one error is want of memory.
fn first_exposed<'a, H: Host>(
    alloc: Global,
    host: &H,
    path: &'a str,
    text: &str,
    passwords: &'a [Text],
) -> Result<Option<&'a str>, AllocError>
    requires { passwords.now ≡ password_paths (parse_document text.now) }
    ensures { IfOk result
        (λ found. IsFirstExposed H.means host.now path.now text.now (option_copied found)) }
{
    if exposes(host, path, holds_password(alloc, text)?) {
        return Ok(Some(path));
    }
    first_beside(alloc, host, path, passwords)
}

/// The text of where settings are refused whose file at this path is exposed.
fn exposed_place(alloc: Global, file: &str) -> Result<String, AllocError>
    ensures { IfOk result (λ place. string_bytes place ≡ codes "[server] strict, " ++ file.now) }
{
    let mut place = String::new(alloc);
    write!(place, "[server] strict, {file}")?;
    Ok(place)
}

/// What tells of an exposed file, by its path in at most 180 bytes; without it where memory is wanting.
fn exposed_fault(alloc: Global, file: &str) -> ProgramFault
    ensures { IsExposedFault file.now result }
{
    let place = match exposed_place(alloc, file) {
        Ok(place) => cut(alloc, place.as_str()),
        Err(_) => None,
    };
    ProgramFault::Settings(SettingsFault::BadValue, place)
}

/// Judges the files of strict settings of this path and text: others than its owner may write none of them, and all may read
/// none that has a password. The fault tells the first that isn't so, or want of memory.
fn judge_files<H: Host>(alloc: Global, host: &H, path: &str, text: &str) -> Result<(), ProgramFault>
    ensures { JudgesFiles H.means host.now path.now text.now result }
{
    let Ok(passwords) = password_files(alloc, text) else {
        return Err(ProgramFault::Settings(SettingsFault::OutOfMemory, None));
    };
    match first_exposed(alloc, host, path, text, passwords.as_slice()) {
        Ok(None) => Ok(()),
        Ok(Some(file)) => Err(exposed_fault(alloc, file)),
        Err(_) => Err(ProgramFault::Settings(SettingsFault::OutOfMemory, None)),
    }
}

/// Judges the files of settings of this path and text, as `judge_files` does, where these are strict.
pub(crate) fn judge_strict<H: Host>(
    alloc: Global,
    host: &H,
    path: &str,
    text: &str,
    strict: bool,
) -> Result<(), ProgramFault>
    ensures { JudgesStrict H.means host.now path.now text.now strict result }
{
    if strict {
        judge_files(alloc, host, path, text)
    } else {
        Ok(())
    }
}
