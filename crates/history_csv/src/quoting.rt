//! The text of a row of CSV, as the kit's `csv` writes it.

ghost use Rattle.std.specs.Prelude.{◌≡◌, ◌==◌, ◌++◌, ◌∷◌, [], length, map, IfOk, OnOk, if◌then◌else◌};
ghost use Rattle.csv.specs.Writing.{default_writer, needs_byte, needs_quotes, escaped, quoted, field_text, fields_text, row_body, row_text};

use std::alloc::{AllocError, Global};

/// The byte calls for quotes around its field.
fn is_special(byte: u8) -> bool
    ensures { result ≡ needs_byte default_writer byte }
{
    byte == b',' || byte == b'"' || byte == b'\r' || byte == b'\n'
}

/// The field is written between quotes.
fn needs_quotes(field: &[u8]) -> bool
    ensures { result ≡ needs_quotes default_writer field.now }
{
    field.iter().any(|byte| is_special(*byte))
}

/// Appends a byte of a field between quotes: a quote twice.
#[tactic(auto, unfolding(csv::specs::Writing::escaped))]
fn put_byte(out: &mut Vec<u8>, byte: u8) -> Result<(), AllocError>
    ensures { OnOk result
        (out.new.items ≡ out.old.items ++ escaped default_writer (byte ∷ [])) }
{
    if byte == b'"' {
        out.extend_from_slice(b"\"\"")
    } else {
        Ok(out.push(byte)?)
    }
}

/// Appends a field between quotes, each quote in it twice.
#[tactic(auto, unfolding(csv::specs::Writing::escaped))]
fn put_quoted(out: &mut Vec<u8>, field: &[u8]) -> Result<(), AllocError>
    ensures { OnOk result (out.new.items ≡ out.old.items ++ quoted default_writer field.now) }
{
    out.push(b'"')?;
    for byte in field {
        put_byte(out, *byte)?;
    }
    Ok(out.push(b'"')?)
}

/// Appends a field, between quotes where it needs them.
fn put_field(out: &mut Vec<u8>, field: &[u8]) -> Result<(), AllocError>
    ensures { OnOk result (out.new.items ≡ out.old.items ++ field_text default_writer field.now) }
{
    if needs_quotes(field) {
        put_quoted(out, field)
    } else {
        out.extend_from_slice(field)
    }
}

/// Appends fields, each behind a comma.
#[tactic(auto, unfolding(csv::specs::Writing::fields_text))]
fn put_others(out: &mut Vec<u8>, fields: &[&[u8]]) -> Result<(), AllocError>
    ensures { OnOk result (out.new.items ≡ out.old.items
        ++ fields_text default_writer (map (λ field. field.now) fields.now)) }
{
    for field in fields {
        out.push(b',')?;
        put_field(out, *field)?;
    }
    Ok(())
}

/// Appends fields, with commas between them.
fn put_fields(out: &mut Vec<u8>, fields: &[&[u8]]) -> Result<(), AllocError>
    ensures { OnOk result (out.new.items ≡ out.old.items
        ++ row_body default_writer (map (λ field. field.now) fields.now)) }
{
    let Some((first, others)) = fields.split_first() else {
        return Ok(());
    };
    put_field(out, *first)?;
    put_others(out, others)
}

/// Appends the two quotes of a row that shows nothing, since an empty line is no row.
fn put_blank(text: &mut Vec<u8>) -> Result<(), AllocError>
    ensures { OnOk result (text.new.items ≡ text.old.items
        ++ (if length text.old.items == 0 then 34 ∷ 34 ∷ [] else [])) }
{
    if text.is_empty() {
        text.extend_from_slice(b"\"\"")?;
    }
    Ok(())
}

/// A row's text.
pub(crate) fn row_text(alloc: Global, fields: &[&[u8]]) -> Result<Vec<u8>, AllocError>
    ensures { IfOk result (λ text.
        text.items ≡ row_text default_writer (map (λ field. field.now) fields.now)) }
{
    let mut text = Vec::new(alloc);
    put_fields(&mut text, fields)?;
    put_blank(&mut text)?;
    text.push(b'\n')?;
    Ok(text)
}
