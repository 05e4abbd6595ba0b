//! What a TOML table holds.

ghost use Rattle.std.specs.Option.{option_to_list};
ghost use Rattle.std.specs.Prelude.{◌≡◌, map, find, IfOk, option_map, option_copied, option_and_then, unwrap_or, is_some, false, true, pos, MatchOption, None, Some, []};
ghost use Rattle.toml.specs.Data.{get_member, as_str, as_bool, as_integer, as_table};
ghost use Rattle.toml.specs.View.{view, table_view};
ghost use Rattle.ua_settings.specs.File.{tables, text_at, many_tables, items_in};
ghost use Rattle.ua_settings.specs.Judging.{is_replica};
ghost use Rattle.std.specs.List.{filter_map};
ghost use Rattle.ua_settings.specs.Reading.{number_or, number_there, access_at, after_break_at, replica_in};
ghost use Rattle.ua_settings.specs.Sound.{IsUpTo};
ghost use Rattle.toml.specs.Data.{as_array};

use crate::after_break::AfterBreak;
use crate::keys::Section;
use stamp::ReplicaNo;
use std::alloc::{AllocError, Global};
use toml::{Table, Value};
use ua_binary::Text;
use ua_session::Access;

/// The value at a key.
pub(crate) fn find<'a>(table: &'a Table, key: &str) -> Option<&'a Value>
    ensures { option_map (λ value. view value.now) result ≡ get_member key.now (table_view table.now) }
{
    table.get(key)
}

/// The text at a key.
pub(crate) fn find_text<'a>(table: &'a Table, key: &str) -> Option<&'a str>
    ensures { option_copied result
        ≡ option_and_then as_str (get_member key.now (table_view table.now)) }
{
    match find(table, key) {
        Some(value) => value.as_str(),
        None => None,
    }
}

/// The text at a key, empty where there is none.
pub(crate) fn text<'a>(table: &'a Table, key: &str) -> &'a str
    ensures { result.now ≡ text_at key.now (table_view table.now) }
{
    match find_text(table, key) {
        Some(text) => text,
        None => "",
    }
}

/// Whether `true` stands at a key.
pub(crate) fn truth(table: &Table, key: &str) -> bool
    ensures { result
        ≡ unwrap_or (option_and_then as_bool (get_member key.now (table_view table.now))) false }
{
    match find(table, key) {
        Some(value) => value.as_bool().unwrap_or(false),
        None => false,
    }
}

/// What a user may do, by the text at a key.
pub(crate) fn access(table: &Table, key: &str) -> Access
    ensures { result ≡ access_at key.now (table_view table.now) }
{
    if text(table, key) == "read" {
        Access::Read
    } else {
        Access::Write
    }
}

/// What is done once the store is broken, by the text at a key.
pub(crate) fn after_break(table: &Table, key: &str) -> AfterBreak
    ensures { result ≡ after_break_at key.now (table_view table.now) }
{
    let text = text(table, key);
    if text == "stop" {
        AfterBreak::Stop
    } else if text == "reopen" {
        AfterBreak::Reopen
    } else {
        AfterBreak::GoOn
    }
}

/// The number at a key.
pub(crate) fn number(table: &Table, key: &str) -> Option<i64>
    ensures { result ≡ option_and_then as_integer (get_member key.now (table_view table.now)) }
{
    match find(table, key) {
        Some(value) => value.as_integer(),
        None => None,
    }
}

/// The number at a key, which is 1 to `most` if one is there.
pub(crate) fn number_there(table: &Table, key: &str, most: u32) -> Option<u32>
    requires { IsUpTo most key.now (table_view table.now) }
    ensures { result ≡ number_there key.now (table_view table.now) }
{
    let number = number(table, key)?;
    match u32::try_from(number) {
        Ok(number) => Some(number),
        Err(_) => None,
    }
}

/// The number at a key, which is 1 to `most` if one is there; `otherwise` where none is.
pub(crate) fn number_or(table: &Table, key: &str, most: u32, otherwise: u32) -> u32
    requires { IsUpTo most key.now (table_view table.now) }
    ensures { result ≡ number_or otherwise key.now (table_view table.now) }
{
    number_there(table, key, most).unwrap_or(otherwise)
}

/// Whether an array stands at a key.
pub(crate) fn has_array(table: &Table, key: &str) -> bool
    ensures { result ≡ is_some (option_and_then as_array (get_member key.now (table_view table.now))) }
{
    match find(table, key) {
        Some(value) => value.is_array(),
        None => false,
    }
}

/// The texts of these values.
pub(crate) fn texts_in(alloc: Global, values: &[Value]) -> Result<Vec<Text>, AllocError>
    ensures { IfOk result
        (λ texts. texts.items ≡ filter_map (λ value. as_str (view value)) values.now) }
{
    let mut texts = Vec::new(alloc);
    for value in values {
        if let Some(text) = value.as_str() {
            texts.push(Text::from_str(alloc, text)?)?;
        }
    }
    Ok(texts)
}

/// The replica whose number a value is.
fn replica_in(value: &Value) -> Option<ReplicaNo>
    ensures { result ≡ replica_in (view value.now) }
{
    match value.as_integer() {
        Some(number) => replica(number),
        None => None,
    }
}

/// The replicas whose numbers these values are.
pub(crate) fn replicas_in(alloc: Global, values: &[Value]) -> Result<Vec<ReplicaNo>, AllocError>
    ensures { IfOk result
        (λ replicas. replicas.items ≡ filter_map (λ value. replica_in (view value)) values.now) }
{
    let mut replicas = Vec::new(alloc);
    for value in values {
        if let Some(replica) = replica_in(value) {
            replicas.push(replica)?;
        }
    }
    Ok(replicas)
}

/// The table at a key.
pub(crate) fn table_at<'a>(table: &'a Table, key: &str) -> Option<&'a Table>
    ensures { option_map (λ inner. table_view inner.now) result
        ≡ option_and_then as_table (get_member key.now (table_view table.now)) }
{
    match find(table, key) {
        Some(value) => value.as_table(),
        None => None,
    }
}

/// The replica of a number.
pub(crate) fn replica(number: i64) -> Option<ReplicaNo>
    ensures { MatchOption result (is_replica number ≡ false)
        (λ replica. (is_replica number ≡ true) × (number ≡ pos replica)) }
{
    match u8::try_from(number) {
        Ok(number) => ReplicaNo::new(number),
        Err(_) => None,
    }
}

/// The table at a key, where it holds one.
fn one<'a>(alloc: Global, table: &'a Table, key: &str) -> Result<Vec<&'a Table>, AllocError>
    ensures { IfOk result
        (λ found. map (λ t. table_view t.now) found.items
        ≡ option_to_list (option_and_then as_table (get_member key.now (table_view table.now)))) }
{
    let mut found = Vec::new(alloc);
    if let Some(inner) = table_at(table, key) {
        found.push(inner)?;
    }
    Ok(found)
}

/// The values of the array at a key.
#[tactic(auto, using(crate::proofs::Tables::values_of_array))]
pub(crate) fn items<'a>(table: &'a Table, key: &str) -> &'a [Value]
    ensures { map view result.now
        ≡ (elim (option_and_then as_array (get_member key.now (table_view table.now)))
        [ None ↦ [] | Some items ↦ items_in items ]) }
{
    match find(table, key) {
        Some(value) => match value.as_array() {
            Some(items) => items.as_slice(),
            None => &[],
        },
        None => &[],
    }
}

/// The tables in the array at a key.
fn many<'a>(alloc: Global, table: &'a Table, key: &str) -> Result<Vec<&'a Table>, AllocError>
    ensures { IfOk result
        (λ found. map (λ t. table_view t.now) found.items
        ≡ many_tables (get_member key.now (table_view table.now))) }
{
    let mut found = Vec::new(alloc);
    let values = items(table, key);
    for value in values {
        if let Some(inner) = value.as_table() {
            found.push(inner)?;
        }
    }
    Ok(found)
}

/// The tables of a section.
pub(crate) fn tables_of<'a>(
    alloc: Global,
    document: &'a Table,
    section: Section,
) -> Result<Vec<&'a Table>, AllocError>
    ensures { IfOk result
        (λ found. map (λ t. table_view t.now) found.items
        ≡ tables (table_view document.now) section) }
{
    match section {
        Section::Document => {
            let mut found = Vec::new(alloc);
            found.push(document)?;
            Ok(found)
        }
        Section::Archive => one(alloc, document, "archive"),
        Section::Server => one(alloc, document, "server"),
        Section::User => many(alloc, document, "user"),
        Section::Folder => many(alloc, document, "folder"),
        Section::Variable => many(alloc, document, "variable"),
        Section::Peer => many(alloc, document, "peer"),
        Section::Door => one(alloc, document, "door"),
        Section::Web => one(alloc, document, "web"),
        Section::Log => one(alloc, document, "log"),
    }
}
