//! Settings files, and the password files that they name.

ghost use Rattle.std.specs.Prelude.{◌≡◌, ◌==◌, ◌<◌, IfSome, option_copied, option_map, string_bytes};
ghost use Rattle.std.specs.Result.{result_map_both};
ghost use Rattle.std.specs.List.{before_first};
ghost use Rattle.std.specs.Fmt.Cut.{cut_to};
ghost use Rattle.toml.specs.Parse.{parse_document};
ghost use Rattle.ua_server.specs.Passwords.{first_line, ReadsFile, ReadsPassword, ReadsPasswords};
ghost use Rattle.ua_server.specs.Program.{IsSetIn, IsTakenOrRefused, SetsBy, SettingsAt, TellsPlace, IsBare, IsFaultPlace};

use crate::exposing::judge_strict;
use crate::host::Host;
use crate::program::ProgramFault;
use command_line::LineFault;
use std::alloc::{AllocError, Global};
use std::fmt::InlineText;
use std::path::Path;
use ua_binary::Text;
use ua_settings::{PasswordLine, Place, Settings, SettingsFault, password_files};

/// The most bytes that tell where settings are refused.
const MOST_PLACE: usize = 180;

/// The settings without a file.
fn bare_settings(alloc: Global) -> Result<Settings, ProgramFault>
    ensures { IsBare result }
{
    Settings::bare(alloc).map_err(|_| ProgramFault::Line(LineFault::OutOfMemory))
}

/// A text in at most 180 bytes, by three dots at its end where it has more; none where memory is wanting.
pub(crate) fn cut(alloc: Global, whole: &str) -> Option<Text>
    ensures { IfSome result (λ told. told ≡ cut_to 180 whole.now) }
{
    let told = InlineText::<MOST_PLACE>::new().and_str(whole, MOST_PLACE);
    Text::from_str(alloc, told.as_str()).ok()
}

/// Where a text is refused, in at most 180 bytes; none where memory is wanting.
fn place_in(alloc: Global, text: &str, passwords: &[PasswordLine]) -> Option<Text>
    ensures { IfSome result (TellsPlace passwords.now (parse_document text.now)) }
{
    let place = Place::of(alloc, text, passwords).ok()?;
    let whole = place.text(alloc).ok()?;
    cut(alloc, whole.as_str())
}

/// Where a text is refused by this fault, in at most 180 bytes; none where memory is wanting.
fn place_of(
    alloc: Global,
    fault: SettingsFault,
    text: &str,
    passwords: &[PasswordLine],
) -> Option<Text>
    ensures { IsFaultPlace passwords.now text.now fault result }
{
    match fault {
        SettingsFault::OutOfMemory => None,
        SettingsFault::NotToml
        | SettingsFault::MissingKey
        | SettingsFault::BadValue
        | SettingsFault::UnknownKey
        | SettingsFault::Space(_) => place_in(alloc, text, passwords),
    }
}

/// The settings that a text gives, where password files say this.
fn settings_in(
    alloc: Global,
    text: &str,
    passwords: &[PasswordLine],
) -> Result<Settings, ProgramFault>
    ensures { IsSetIn passwords.now text.now result }
{
    match Settings::read_with(alloc, text, passwords) {
        Ok(settings) => Ok(settings),
        Err(fault) => {
            let place = place_of(alloc, fault, text, passwords);
            Err(ProgramFault::Settings(fault, place))
        }
    }
}

/// What stands before the first such letter, or all.
fn before(text: &str, letter: u8) -> &str
    requires { letter < 128 }
    ensures { result.now ≡ before_first (λ byte. byte == letter) text.now }
{
    match text.split_once(char::from(letter)) {
        Some((before, _)) => before,
        None => text,
    }
}

/// The first line of a text, without its end.
fn first_line(text: &str) -> &str
    ensures { result.now ≡ first_line text.now }
{
    before(before(text, b'\n'), b'\r')
}

/// The text of a file beside the settings'; none where it can't be read. The one error is want of memory.
fn read_beside<H: Host>(
    alloc: Global,
    settings: &str,
    path: &str,
    host: &mut H,
) -> Result<Option<String>, AllocError>
    ensures { ReadsFile H.means settings.now path.now
        (result_map_both (option_map string_bytes) (λ starved. starved) result)
        host.old host.new }
{
    let beside = Path::new(settings).with_file_name(alloc, path)?;
    Ok(host.read(beside.as_str()))
}

/// What the password file at a path says; none where it can't be read. The one error is want of memory.
fn read_password<H: Host>(
    alloc: Global,
    settings: &str,
    path: &str,
    host: &mut H,
) -> Result<Option<PasswordLine>, AllocError>
    ensures { ReadsPassword H.means settings.now path.now result host.old host.new }
{
    let Some(text) = read_beside(alloc, settings, path, host)? else {
        return Ok(None);
    };
    Ok(Some(PasswordLine {
        path: Text::from_str(alloc, path)?,
        line: Text::from_str(alloc, first_line(text.as_str()))?,
    }))
}

/// What the password files of these paths say; none where one can't be read. The one error is want of memory.
fn read_passwords<H: Host>(
    alloc: Global,
    settings: &str,
    paths: &[Text],
    host: &mut H,
) -> Result<Option<Vec<PasswordLine>>, AllocError>
    ensures { ReadsPasswords H.means settings.now paths.now
        (result_map_both (option_map (λ lines. lines.items)) (λ starved. tt {0}) result)
        host.old host.new }
{
    let mut lines = Vec::new(alloc);
    for path in paths {
        match read_password(alloc, settings, path.as_str(), host)? {
            Some(line) => lines.push(line)?,
            None => return Ok(None),
        }
    }
    Ok(Some(lines))
}

/// The settings that the text of the file at a path gives, where password files say this. Strict ones are refused where others
/// than their owner may have a hand in one of these files.
fn guarded_settings<H: Host>(
    alloc: Global,
    host: &H,
    path: &str,
    text: &str,
    passwords: &[PasswordLine],
) -> Result<Settings, ProgramFault>
    ensures { (set : _) × IsSetIn passwords.now text.now set
        × IsTakenOrRefused H.means host.now path.now text.now set result }
{
    let settings = settings_in(alloc, text, passwords)?;
    match judge_strict(alloc, host, path, text, settings.is_strict()) {
        Ok(()) => Ok(settings),
        Err(fault) => Err(fault),
    }
}

/// The settings that the text of the file at a path gives, with the password files that it names. Strict ones are refused where
/// others than their owner may have a hand in one of these files.
fn settings_by<H: Host>(
    alloc: Global,
    path: &str,
    text: &str,
    host: &mut H,
) -> Result<Settings, ProgramFault>
    ensures { SetsBy H.means path.now text.now result host.old host.new }
{
    let Ok(paths) = password_files(alloc, text) else {
        return Err(ProgramFault::Settings(SettingsFault::OutOfMemory, None));
    };
    let Ok(read) = read_passwords(alloc, path, paths.as_slice(), host) else {
        return Err(ProgramFault::Settings(SettingsFault::OutOfMemory, None));
    };
    match read {
        Some(lines) => guarded_settings(alloc, host, path, text, lines.as_slice()),
        None => Err(ProgramFault::File),
    }
}

/// The settings of the file at a path; without a path those without a file.
pub(crate) fn settings_at<H: Host>(
    alloc: Global,
    path: Option<&str>,
    host: &mut H,
) -> Result<Settings, ProgramFault>
    ensures { SettingsAt H.means (option_copied path.entry) result host.old host.new }
{
    let Some(path) = path else {
        return bare_settings(alloc);
    };
    match host.read(path) {
        None => Err(ProgramFault::File),
        Some(text) => settings_by(alloc, path, text.as_str(), host),
    }
}
