//! Where a settings file is refused.

ghost use Rattle.std.specs.Prelude.{◌≡◌, ◌≤◌, ◌<◌, ◌+◌, ◌++◌, ◌==◌, IfOk, OnOk, codes, is_some, length, map, nat_eq, not, position, take, option_map, string_bytes};
ghost use Rattle.std.specs.Cmp.Lexicographic.{pointwise};
ghost use Rattle.std.specs.List.{count_by, list_all, list_any};
ghost use Rattle.toml.specs.Errors.{IsMemory, IsWithin};
ghost use Rattle.toml.specs.Parse.{parse_document};
ghost use Rattle.toml.specs.View.{table_view};
ghost use Rattle.ua_space.specs.Plan.{type_number};
ghost use Rattle.ua_settings.specs.File.{text_at};
ghost use Rattle.ua_settings.specs.Keys.{spot_of};
ghost use Rattle.ua_settings.specs.Place.{heading, is_shown, plain, shown_key, untyped, repeated_from, first_there, node_spot};

use crate::judging::{Spot, is_among, judge, texts};
use crate::keys::Section;
use crate::looking::{tables_of, text};
use crate::password::PasswordLine;
use std::alloc::{AllocError, Global};
use std::fmt::Write as _;
use toml::Table;
use ua_binary::Text;
use ua_space::{MAX_NODES, is_type_name};

/// Where a settings file is refused.
#[derive(Debug, Drop)]
pub enum Place {
    /// The line of the text, from 1.
    Line(usize),
    /// A key in the table of this number, from 1, among those of its section.
    Key {
        section: Section,
        number: usize,
        key: Text,
    },
    /// The folders and variables together, of which there are so many.
    Nodes(usize),
}

impl Place {
    ghost use Rattle.ua_settings.specs.declared.keys.Section.TheVariants.{Folder, Variable};
    ghost use Rattle.ua_settings.specs.declared.place.Place.TheVariants.{Key};
    ghost use Rattle.ua_settings.specs.File.{tables};
    ghost use Rattle.ua_settings.specs.Place.{IsPlaceOf, IsLineNumber, place_in, place_among, place_text};

    /// Where a text is refused that `Settings::read` refuses: the line where it is no TOML, else the first key that is
    /// unknown, missing or bad, else the type or the id that makes no address space; where password files say this. The one
    /// error is want of memory.
    pub fn of(alloc: Global, text: &str, passwords: &[PasswordLine]) -> Result<Place, AllocError>
        ensures { IfOk result (IsPlaceOf passwords.now (parse_document text.now)) }
    {
        match toml::table_from_str(alloc, text) {
            Ok(document) => Place::in_document(alloc, &document, passwords),
            Err(error) => Place::in_text(text, &error),
        }
    }

    /// The line of an error of the TOML reader.
    fn in_text(text: &str, error: &toml::de::Error) -> Result<Place, AllocError>
        requires { IsWithin text.now error.now }
        ensures { IfOk result (λ place. IsLineNumber place × ¬ IsMemory error.now) }
    {
        match error.span() {
            None => Err(AllocError),
            Some(span) => Ok(Place::Line(line_at(text.as_bytes(), span.start))),
        }
    }

    /// The place in a document.
    fn in_document(
        alloc: Global,
        document: &Table,
        passwords: &[PasswordLine],
    ) -> Result<Place, AllocError>
        ensures { IfOk result
            (λ place. place ≡ place_in passwords.now (table_view document.now)) }
    {
        match judge(alloc, document, passwords)? {
            Some((_, spot)) => Place::at(alloc, spot),
            None => Place::among_nodes(alloc, document),
        }
    }

    /// What makes the nodes of a document no address space.
    fn among_nodes(alloc: Global, document: &Table) -> Result<Place, AllocError>
        ensures { IfOk result
            (λ place. place
            ≡ place_among (tables (table_view document.now) Folder)
            (tables (table_view document.now) Variable)) }
    {
        let folders = tables_of(alloc, document, Section::Folder)?;
        let variables = tables_of(alloc, document, Section::Variable)?;
        let count = folders.len().saturating_add(variables.len());
        if count > MAX_NODES {
            return Ok(Place::Nodes(count));
        }
        match node_spot(alloc, folders.as_slice(), variables.as_slice())? {
            Some(spot) => Place::at(alloc, spot),
            None => Ok(Place::Nodes(count)),
        }
    }

    /// The place of a key.
    fn at(alloc: Global, spot: Spot<'_>) -> Result<Place, AllocError>
        ensures { IfOk result
            (λ place. place ≡ Key spot.entry.section spot.entry.number spot.entry.key.now) }
    {
        Ok(Place::Key {
            section: spot.section,
            number: spot.number,
            key: Text::from_str(alloc, spot.key)?,
        })
    }

    /// The text that tells it: `line 6`, `[[variable]] 17, type`, `1001 folders and variables`. An empty key is `""`; in one
    /// with a control character a question mark stands for all that is no printing ASCII. The one error is want of memory.
    pub fn text(&self, alloc: Global) -> Result<String, AllocError>
        ensures { IfOk result (λ text. string_bytes text ≡ place_text self.now) }
    {
        let mut text = String::new(alloc);
        match self {
            Place::Line(line) => write!(text, "line {line}")?,
            Place::Nodes(count) => write!(text, "{count} folders and variables")?,
            Place::Key {
                section,
                number,
                key,
            } => {
                put_heading(*section, *number, &mut text)?;
                put_key(key.as_str(), &mut text)?;
            }
        }
        Ok(text)
    }
}

/// Appends the heading of a table, and which of its section it is.
fn put_heading(section: Section, number: usize, text: &mut String) -> Result<(), AllocError>
    ensures { OnOk result (string_bytes text.new ≡ string_bytes text.old ++ heading section number) }
{
    match section {
        Section::Document => Ok(()),
        Section::Archive => text.push_str("[archive] "),
        Section::Server => text.push_str("[server] "),
        Section::User => write!(text, "[[user]] {number}, "),
        Section::Folder => write!(text, "[[folder]] {number}, "),
        Section::Variable => write!(text, "[[variable]] {number}, "),
        Section::Peer => write!(text, "[[peer]] {number}, "),
        Section::Door => text.push_str("[door] "),
        Section::Web => text.push_str("[web] "),
        Section::Log => text.push_str("[log] "),
    }
}

/// Whether a byte is one of a text without control characters.
fn is_shown(byte: u8) -> bool
    ensures { result ≡ is_shown byte }
{
    byte >= 32 && byte != 127
}

/// Whether a text has no control characters.
fn are_shown(bytes: &[u8]) -> bool
    ensures { result ≡ list_all is_shown bytes.now }
{
    bytes.iter().all(|byte| is_shown(*byte))
}

/// The byte, or a question mark for one that is no printing ASCII.
fn plain(byte: u8) -> u8
    ensures value { result ≡ plain byte }
    ensures ascii { result < 128 }
{
    if byte >= 32 && byte < 127 { byte } else { b'?' }
}

/// Appends a key as it is told.
fn put_key(key: &str, text: &mut String) -> Result<(), AllocError>
    ensures { OnOk result (string_bytes text.new ≡ string_bytes text.old ++ shown_key key.now) }
{
    if key.is_empty() {
        return text.push_str("\"\"");
    }
    if are_shown(key.as_bytes()) {
        return text.push_str(key);
    }
    put_plain(key.as_bytes(), text)
}

/// Appends bytes in printing ASCII.
fn put_plain(bytes: &[u8], text: &mut String) -> Result<(), AllocError>
    ensures { OnOk result (string_bytes text.new ≡ string_bytes text.old ++ map plain bytes.now) }
{
    for byte in bytes {
        text.push(char::from(plain(*byte)))?;
    }
    Ok(())
}

/// The line, from 1, of the byte at this place.
fn line_at(text: &[u8], place: usize) -> usize
    requires { place ≤ length text.now }
    ensures { result ≡ count_by (λ byte. byte == 10) (take place text.now) + 1 }
{
    let before = &text[..place];
    before.iter().filter(|byte| **byte == b'\n').count() + 1
}

/// The place of the first variable whose type is none.
fn first_untyped(variables: &[&Table]) -> Option<usize>
    ensures { result
        ≡ position
        (λ table.
        not (is_some (type_number (text_at (codes "type") (table_view table.now))))) variables.now }
{
    variables
        .iter()
        .position(|variable| !is_type_name(text(variable, "type")))
}

/// The number of the first variable whose type is none.
fn untyped(variables: &[&Table]) -> Option<usize>
    ensures { result ≡ untyped (map (λ table. table_view table.now) variables.now) }
{
    match first_untyped(variables) {
        Some(i) => Some(i + 1),
        None => None,
    }
}

/// Whether an id is one of others, or of those before it.
fn stands_before(id: &str, others: &[&str], before: &[&str]) -> bool
    ensures { result
        ≡ list_any (λ other. pointwise nat_eq other id.now)
        (map (λ id. id.now) others.now ++ map (λ id. id.now) before.now) }
{
    is_among(id, others) || is_among(id, before)
}

/// The number of the first of these ids that stands before it, or among others.
fn repeated(others: &[&str], ids: &[&str]) -> Option<usize>
    ensures { result ≡ repeated_from 1 (map (λ id. id.now) others.now) (map (λ id. id.now) ids.now) }
{
    for (i, id) in ids.iter().enumerate() {
        if stands_before(id, others, &ids[..i]) {
            return Some(i + 1);
        }
    }
    None
}

/// The first of these that is there: the number of a variable of an unknown type, and those of a folder and a variable whose id
/// stands before.
fn first_there(
    untyped: Option<usize>,
    folder: Option<usize>,
    variable: Option<usize>,
) -> Option<Spot<'static>>
    ensures { option_map spot_of result ≡ first_there untyped folder variable }
{
    match (untyped, folder, variable) {
        (Some(number), _, _) => Some(spot(Section::Variable, number, "type")),
        (None, Some(number), _) => Some(spot(Section::Folder, number, "id")),
        (None, None, Some(number)) => Some(spot(Section::Variable, number, "id")),
        (None, None, None) => None,
    }
}

/// The first node that is wrong, of nodes that aren't too many.
fn node_spot(
    alloc: Global,
    folders: &[&Table],
    variables: &[&Table],
) -> Result<Option<Spot<'static>>, AllocError>
    ensures { IfOk result
        (λ found. option_map spot_of found
        ≡ node_spot (map (λ table. table_view table.now) folders.now)
        (map (λ table. table_view table.now) variables.now)) }
{
    let folder_ids = texts(alloc, folders, "id")?;
    let variable_ids = texts(alloc, variables, "id")?;
    let untyped = untyped(variables);
    let folder = repeated(&[], folder_ids.as_slice());
    let variable = repeated(folder_ids.as_slice(), variable_ids.as_slice());
    Ok(first_there(untyped, folder, variable))
}

/// A key in the table of this number of a section.
fn spot(section: Section, number: usize, key: &'static str) -> Spot<'static>
    ensures { spot_of result ≡ record { section = section; number = number; key = key.now } }
{
    Spot {
        section,
        number,
        key,
    }
}
