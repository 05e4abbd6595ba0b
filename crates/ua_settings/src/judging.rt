//! Where a settings file is wrong.

ghost use Rattle.std.specs.Prelude.{◌≡◌, ◌+◌, ◌<◌, ℕ, List, map, find, Option, option_map, IfOk, string_bytes};
ghost use Rattle.std.specs.List.{list_any};
ghost use Rattle.std.specs.Cmp.Lexicographic.{pointwise};
ghost use Rattle.std.specs.Prelude.{nat_eq, is_some, not, option_copied};
ghost use Rattle.std.specs.BTreeMap.{keys};
ghost use Rattle.std.specs.List.{list_all, count_by};
ghost use Rattle.std.specs.Prelude.{false};
ghost use Rattle.toml.specs.Data.{as_integer, as_table, string};
ghost use Rattle.toml.specs.View.{view, table_view};
ghost use Rattle.std.specs.Option.{option_map_or};
ghost use Rattle.ua_settings.specs.File.{is_name, is_up_to, is_text, is_held, fits, has_instead, keys_in, rules, names_in, text_at};
ghost use Rattle.ua_settings.specs.Judging.{is_user_name, is_id, is_replica, is_key, is_missing, is_bad, wrong_key, wrong_from, wrong_at, first_wrong};
ghost use Rattle.ua_settings.specs.Keys.{count_at, is_counted, rule_of, known_of, spot_of, refusal_of};

use crate::keys::{Holds, Key, Section, Wrong, keys_of};
use crate::looking::{find, replica, tables_of, text};
use crate::password::{PasswordLine, line_of};
use std::alloc::{AllocError, Global};
use std::collections::HashMap;
use toml::value::Array;
use toml::{Table, Value};
use uuid::Uuid;

/// The most bytes of a text.
const MOST_TEXT: usize = 65_536;

/// The most bytes of a user's name, and of a variable's id.
const MOST_NAME: usize = 256;

/// The kinds of tables, in the order in which a document is judged.
const SECTIONS: [Section; 10] = [
    Section::Document,
    Section::Archive,
    Section::Server,
    Section::User,
    Section::Folder,
    Section::Variable,
    Section::Peer,
    Section::Door,
    Section::Web,
    Section::Log,
];

/// What may be wrong, in the order in which it is judged.
const WRONGS: [Wrong; 3] = [Wrong::Unknown, Wrong::Missing, Wrong::Bad];

/// How many of some texts are equal to each of them.
type Counts<'a> = HashMap<&'a str, usize>;

/// What a value may depend on: how many users have each name, how many folders each id, and what password files say.
#[derive(Debug, Drop)]
pub(crate) struct Known<'a> {
    users: Counts<'a>,
    folders: Counts<'a>,
    passwords: &'a [PasswordLine],
}

/// A key in the table of this number, from 1, among those of a section.
#[derive(Clone, Copy, Debug, PartialEq, Eq)]
pub(crate) struct Spot<'a> {
    pub section: Section,
    pub number: usize,
    pub key: &'a str,
}

/// Whether a text has 1 to 256 bytes.
fn is_name(text: &str) -> bool
    ensures { result ≡ is_name text.now }
{
    !text.is_empty() && text.len() <= MOST_NAME
}

/// Whether a text is that of a UUID.
fn is_id(text: &str) -> bool
    ensures { result ≡ is_id text.now }
{
    Uuid::parse_str(text).is_ok()
}

/// How many of these texts are equal to each of them.
fn count<'a>(alloc: Global, texts: &[&'a str]) -> Result<Counts<'a>, AllocError>
    ensures counts { IfOk result
        (λ counts. (text : List ℕ) → count_at counts text
        ≡ count_by (λ one. pointwise nat_eq text one.now) texts.now) }
    ensures keys { IfOk result
        (λ counts. (text : List ℕ) → is_counted counts text
        ≡ list_any (λ one. pointwise nat_eq one.now text) texts.now) }
{
    let mut counts = HashMap::new(alloc);
    for text in texts {
        *counts.entry(*text)?.or_insert(0) += 1;
    }
    Ok(counts)
}

/// Whether a user may have this name.
fn is_user_name(known: &Known<'_>, name: &str) -> bool
    ensures { result ≡ is_user_name (known_of known.now).users name.now }
{
    is_name(name) && name != "anonymous" && known.users.get(name).copied().unwrap_or(0) == 1
}

/// Whether a folder has this id.
fn is_folder(known: &Known<'_>, id: &str) -> bool
    ensures { result ≡ (known_of known.now).folders id.now }
{
    known.folders.contains_key(id)
}

/// Whether an id is one of these.
pub(crate) fn is_among(id: &str, folders: &[&str]) -> bool
    ensures { result ≡ list_any (λ folder. pointwise nat_eq folder.now id.now) folders.now }
{
    folders.iter().any(|folder| *folder == id)
}

/// Whether a text is what a key must hold.
fn fits_text(known: &Known<'_>, holds: Holds, text: &str) -> bool
    ensures { result ≡ fits (known_of known.now) holds (string text.now) }
{
    match holds {
        Holds::Text => text.len() <= MOST_TEXT,
        Holds::Id => is_id(text),
        Holds::NodeName => is_name(text),
        Holds::UserName => is_user_name(known, text),
        Holds::FolderId => is_folder(known, text),
        Holds::Access => text == "read" || text == "write",
        Holds::AfterBreak => text == "stop" || text == "reopen",
        Holds::PasswordFile => !line_of(known.passwords, text).is_empty(),
        Holds::Replica
        | Holds::UpTo(_)
        | Holds::Truth
        | Holds::Texts
        | Holds::Replicas
        | Holds::OneTable
        | Holds::Tables => false,
    }
}

/// Whether a value is a text of at most 65,536 bytes.
fn is_text(value: &Value) -> bool
    ensures { result ≡ is_text (view value.now) }
{
    match value.as_str() {
        Some(text) => text.len() <= MOST_TEXT,
        None => false,
    }
}

/// Whether a value is the number of a replica.
fn is_replica_value(value: &Value) -> bool
    ensures { result ≡ option_map_or is_replica (as_integer (view value.now)) false }
{
    match value.as_integer() {
        Some(number) => is_replica(number),
        None => false,
    }
}

/// Whether each of the values is a text of at most 65,536 bytes.
fn are_texts(values: &[Value]) -> bool
    ensures { result ≡ list_all (λ value. is_held Holds.Texts (view value)) values.now }
{
    values.iter().all(|value| is_text(value))
}

/// Whether each of the values is the number of a replica.
fn are_replicas(values: &[Value]) -> bool
    ensures { result ≡ list_all (λ value. is_held Holds.Replicas (view value)) values.now }
{
    values.iter().all(|value| is_replica_value(value))
}

/// Whether each of the values is a table.
fn are_tables(values: &[Value]) -> bool
    ensures { result ≡ list_all (λ value. is_held Holds.Tables (view value)) values.now }
{
    values.iter().all(|value| value.is_table())
}

/// Whether a number is a replica's.
fn is_replica(number: i64) -> bool
    ensures { result ≡ is_replica number }
{
    replica(number).is_some()
}

/// Whether a number is one from 1 up to another.
fn is_up_to(most: u32, number: i64) -> bool
    ensures { result ≡ is_up_to most number }
{
    match u32::try_from(number) {
        Ok(number) => 1 <= number && number <= most,
        Err(_) => false,
    }
}

/// Whether a value is what a key must hold.
#[tactic(auto, using(crate::proofs::Tables::held_in_array))]
fn fits(known: &Known<'_>, holds: Holds, value: &Value) -> bool
    ensures { result ≡ fits (known_of known.now) holds (view value.now) }
{
    match holds {
        Holds::Replica => match value.as_integer() {
            Some(number) => is_replica(number),
            None => false,
        },
        Holds::UpTo(most) => match value.as_integer() {
            Some(number) => is_up_to(most, number),
            None => false,
        },
        Holds::Truth => value.is_bool(),
        Holds::OneTable => value.is_table(),
        Holds::Tables => match value.as_array() {
            Some(values) => are_tables(values.as_slice()),
            None => false,
        },
        Holds::Texts => match value.as_array() {
            Some(values) => are_texts(values.as_slice()),
            None => false,
        },
        Holds::Replicas => match value.as_array() {
            Some(values) => are_replicas(values.as_slice()),
            None => false,
        },
        Holds::Text
        | Holds::Id
        | Holds::NodeName
        | Holds::UserName
        | Holds::FolderId
        | Holds::Access
        | Holds::AfterBreak
        | Holds::PasswordFile => match value.as_str() {
            Some(text) => fits_text(known, holds, text),
            None => false,
        },
    }
}

/// Whether a table of the section may have this key.
fn is_known(section: Section, name: &str) -> bool
    ensures { result ≡ is_key section name.now }
{
    has_name(keys_of(section), name)
}

/// Whether one of the keys has this name.
fn has_name(keys: &[Key], name: &str) -> bool
    ensures { result ≡ list_any (λ key. pointwise nat_eq name.now (rule_of key).name) keys.now }
{
    keys.iter().any(|key| name == key.name)
}

/// Whether a table has the key that may stand in place of this one.
fn has_instead(table: &Table, key: &Key) -> bool
    ensures { result ≡ has_instead (table_view table.now) (rule_of key.now) }
{
    match key.instead {
        Some(other) => find(table, other).is_some(),
        None => false,
    }
}

/// Whether a table has to have this key, or the one in its place, and lacks both.
fn is_missing(table: &Table, key: &Key) -> bool
    ensures { result ≡ is_missing (table_view table.now) (rule_of key.now) }
{
    key.required && !has_instead(table, key) && find(table, key.name).is_none()
}

/// Whether a table has this key and it doesn't hold what it must, or the one in its place is there too.
fn is_bad(known: &Known<'_>, table: &Table, key: &Key) -> bool
    ensures { result ≡ is_bad (known_of known.now) (table_view table.now) (rule_of key.now) }
{
    match find(table, key.name) {
        Some(value) => has_instead(table, key) || !fits(known, key.holds, value),
        None => false,
    }
}

/// The first key of a table that it may not have.
fn find_unknown(section: Section, table: &Table) -> Option<&String>
    ensures { option_copied result
        ≡ find (λ key. not (is_key section (string_bytes key))) (keys table.now) }
{
    table.keys().find(|key| !is_known(section, key.as_str()))
}

/// The first of the keys that a table lacks.
fn find_missing<'a>(keys: &'a [Key], table: &Table) -> Option<&'a Key>
    ensures { option_copied result
        ≡ find (λ key. is_missing (table_view table.now) (rule_of key)) keys.now }
{
    keys.iter().find(|key| is_missing(table, key))
}

/// The first of the keys that doesn't hold what it must.
fn find_bad<'a>(known: &Known<'_>, keys: &'a [Key], table: &Table) -> Option<&'a Key>
    ensures { option_copied result
        ≡ find (λ key. is_bad (known_of known.now) (table_view table.now) (rule_of key)) keys.now }
{
    keys.iter().find(|key| is_bad(known, table, key))
}

/// The name of the first key of a table that it may not have.
fn unknown_key(section: Section, table: &Table) -> Option<&str>
    ensures { option_copied result
        ≡ find (λ key. not (is_key section key)) (keys_in (table_view table.now)) }
{
    match find_unknown(section, table) {
        Some(key) => Some(key.as_str()),
        None => None,
    }
}

/// The name of the first key that a table lacks.
fn missing_key(section: Section, table: &Table) -> Option<&'static str>
    ensures { option_copied result
        ≡ option_map (λ rule. rule.name)
        (find (is_missing (table_view table.now)) (rules section)) }
{
    match find_missing(keys_of(section), table) {
        Some(key) => Some(key.name),
        None => None,
    }
}

/// The name of the first key of a table that doesn't hold what it must.
fn bad_key(known: &Known<'_>, section: Section, table: &Table) -> Option<&'static str>
    ensures { option_copied result
        ≡ option_map (λ rule. rule.name)
        (find (is_bad (known_of known.now) (table_view table.now)) (rules section)) }
{
    match find_bad(known, keys_of(section), table) {
        Some(key) => Some(key.name),
        None => None,
    }
}

/// The first key of a table that is wrong in this way.
fn wrong_key<'a>(
    known: &Known<'_>,
    wrong: Wrong,
    section: Section,
    table: &'a Table,
) -> Option<&'a str>
    ensures { option_copied result
        ≡ wrong_key (known_of known.now) wrong section (table_view table.now) }
{
    match wrong {
        Wrong::Unknown => unknown_key(section, table),
        Wrong::Missing => missing_key(section, table),
        Wrong::Bad => bad_key(known, section, table),
    }
}

/// The first wrong key of these tables of a section, the first of which has the number 1.
fn wrong_in<'a>(
    known: &Known<'_>,
    wrong: Wrong,
    section: Section,
    tables: &[&'a Table],
) -> Option<Spot<'a>>
    ensures { option_map spot_of result
        ≡ wrong_from (known_of known.now) wrong section 1
        (map (λ table. table_view table.now) tables.now) }
{
    for (i, table) in tables.iter().enumerate() {
        if let Some(key) = wrong_key(known, wrong, section, table) {
            return Some(Spot {
                section,
                number: i + 1,
                key,
            });
        }
    }
    None
}

/// The texts at a key of these tables.
pub(crate) fn texts<'a>(
    alloc: Global,
    tables: &[&'a Table],
    key: &str,
) -> Result<Vec<&'a str>, AllocError>
    ensures { IfOk result
        (λ texts. map (λ text. text.now) texts.items
        ≡ map (λ table. text_at key.now (table_view table.now)) tables.now) }
{
    let mut texts = Vec::new(alloc);
    for table in tables {
        texts.push(text(table, key))?;
    }
    Ok(texts)
}

/// What the values of a document may depend on, where password files say this.
fn known_in<'a>(
    alloc: Global,
    document: &'a Table,
    passwords: &'a [PasswordLine],
) -> Result<Known<'a>, AllocError>
    ensures names { IfOk result
        (λ known. known_of known ≡ names_in passwords.now (table_view document.now)) }
    ensures passwords { IfOk result (λ known. known.passwords.now ≡ passwords.now) }
{
    let users = tables_of(alloc, document, Section::User)?;
    let folders = tables_of(alloc, document, Section::Folder)?;
    let names = texts(alloc, users.as_slice(), "name")?;
    let ids = texts(alloc, folders.as_slice(), "id")?;
    Ok(Known {
        users: count(alloc, names.as_slice())?,
        folders: count(alloc, ids.as_slice())?,
        passwords,
    })
}

/// The first key of a document that is wrong in this way.
#[tactic(auto, unfolding(crate::specs::Judging::wrong_at))]
fn wrong_at<'a>(
    alloc: Global,
    known: &Known<'_>,
    document: &'a Table,
    wrong: Wrong,
) -> Result<Option<Spot<'a>>, AllocError>
    requires { known_of known.now
        ≡ names_in known.now.passwords.now (table_view document.now) }
    ensures { IfOk result
        (λ found. option_map spot_of found
        ≡ wrong_at known.now.passwords.now (table_view document.now) wrong) }
{
    for section in SECTIONS {
        let tables = tables_of(alloc, document, section)?;
        match wrong_in(known, wrong, section, tables.as_slice()) {
            Some(spot) => return Ok(Some(spot)),
            None => {}
        }
    }
    Ok(None)
}

/// The first way in which a document is wrong, and where.
pub(crate) fn judge<'a>(
    alloc: Global,
    document: &'a Table,
    passwords: &'a [PasswordLine],
) -> Result<Option<(Wrong, Spot<'a>)>, AllocError>
    ensures { IfOk result
        (λ found. option_map refusal_of found
        ≡ first_wrong passwords.now (table_view document.now)) }
{
    let known = known_in(alloc, document, passwords)?;
    for wrong in WRONGS {
        match wrong_at(alloc, &known, document, wrong)? {
            Some(spot) => return Ok(Some((wrong, spot))),
            None => {}
        }
    }
    Ok(None)
}
