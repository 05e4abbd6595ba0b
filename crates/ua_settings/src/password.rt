//! What password files say.

ghost use Rattle.std.specs.Prelude.{◌≡◌, IfOk, Some, nat_eq, find, option_copied};
ghost use Rattle.std.specs.List.{filter_map, list_any};
ghost use Rattle.std.specs.Cmp.Lexicographic.{pointwise};
ghost use Rattle.toml.specs.Parse.{parse_document};
ghost use Rattle.toml.specs.View.{table_view};
ghost use Rattle.ua_settings.specs.File.{password_line};
ghost use Rattle.ua_settings.specs.Reading.{password_paths, path_in, has_password, holds_password};

use crate::keys::Section;
use crate::looking::{find, find_text, tables_of};
use std::alloc::{AllocError, Global};
use toml::Table;
use ua_binary::Text;

/// The first line of a password file.
#[derive(Debug, Drop)]
pub struct PasswordLine {
    /// The file's path, as the settings have it.
    pub path: Text,
    /// Its first line, without the line's end.
    pub line: Text,
}

/// Whether it is that of the file at a path.
fn is_of(password: &PasswordLine, path: &str) -> bool
    ensures { result ≡ pointwise nat_eq password.now.path path.now }
{
    password.path.as_str() == path
}

/// That of the file at a path.
fn find_line<'a>(passwords: &'a [PasswordLine], path: &str) -> Option<&'a PasswordLine>
    ensures { option_copied result
        ≡ find (λ password. pointwise nat_eq password.path path.now) passwords.now }
{
    passwords.iter().find(|password| is_of(password, path))
}

/// The first line of the password file at a path, empty where there is none.
pub(crate) fn line_of<'a>(passwords: &'a [PasswordLine], path: &str) -> &'a str
    ensures { result.now ≡ password_line passwords.now path.now }
{
    match find_line(passwords, path) {
        Some(password) => password.line.as_str(),
        None => "",
    }
}

/// The paths of the password files of these users.
fn paths_in(alloc: Global, users: &[&Table]) -> Result<Vec<Text>, AllocError>
    ensures { IfOk result
        (λ paths. paths.items ≡ filter_map (λ user. path_in (table_view user.now)) users.now) }
{
    let mut paths = Vec::new(alloc);
    for user in users {
        if let Some(path) = find_text(user, "password_file") {
            paths.push(Text::from_str(alloc, path)?)?;
        }
    }
    Ok(paths)
}

/// The paths of the password files that a document names.
fn paths_of(alloc: Global, document: &Table) -> Result<Vec<Text>, AllocError>
    ensures { IfOk result
        (λ paths. paths.items ≡ password_paths (Some (table_view document.now))) }
{
    let users = tables_of(alloc, document, Section::User)?;
    paths_in(alloc, users.as_slice())
}

/// The paths of the password files that a text of settings names, in order; none where it is no TOML. The one error is want of
/// memory.
pub fn password_files(alloc: Global, text: &str) -> Result<Vec<Text>, AllocError>
    ensures { IfOk result (λ paths. paths.items ≡ password_paths (parse_document text.now)) }
{
    match toml::table_from_str(alloc, text) {
        Ok(document) => paths_of(alloc, &document),
        Err(error) => {
            if error.is_memory() {
                Err(AllocError)
            } else {
                Ok(Vec::new(alloc))
            }
        }
    }
}

/// Whether one of these users has his password beside his name.
fn any_has_password(users: &[&Table]) -> bool
    ensures { result ≡ list_any (λ user. has_password (table_view user.now)) users.now }
{
    users.iter().any(|user| find(user, "password").is_some())
}

/// Whether a document has a password.
fn has_password_in(alloc: Global, document: &Table) -> Result<bool, AllocError>
    ensures { IfOk result (λ holds. holds ≡ holds_password (Some (table_view document.now))) }
{
    let users = tables_of(alloc, document, Section::User)?;
    Ok(any_has_password(users.as_slice()))
}

/// Whether a password stands in a text of settings itself; not where it is no TOML. The one error is want of memory.
pub fn holds_password(alloc: Global, text: &str) -> Result<bool, AllocError>
    ensures { IfOk result (λ holds. holds ≡ holds_password (parse_document text.now)) }
{
    match toml::table_from_str(alloc, text) {
        Ok(document) => has_password_in(alloc, &document),
        Err(error) => {
            if error.is_memory() {
                Err(AllocError)
            } else {
                Ok(false)
            }
        }
    }
}
