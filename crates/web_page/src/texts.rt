//! Types in words, and long texts cut.

ghost use Rattle.std.specs.Prelude.{◌≡◌, ◌++◌, codes, [], if◌then◌else◌, IfOk, OnOk};
ghost use Rattle.web_page.specs.Values.{type_name, type_words, type_text, is_start, cut_text};

use std::alloc::{AllocError, Global};
use ua_variant::ValueType;

/// How many characters of a value are shown.
const SHOWN: usize = 200;

/// The name of the type of this number (Part 6, 5.1.2).
#[tactic(auto, unfolding(crate::specs::Values::type_name, crate::specs::Values::type_names))]
fn type_name(number: u8) -> &'static str
    ensures { result.now ≡ type_name number }
{
    match number {
        1 => "Boolean",
        2 => "SByte",
        3 => "Byte",
        4 => "Int16",
        5 => "UInt16",
        6 => "Int32",
        7 => "UInt32",
        8 => "Int64",
        9 => "UInt64",
        10 => "Float",
        11 => "Double",
        12 => "String",
        13 => "DateTime",
        14 => "Guid",
        15 => "ByteString",
        17 => "NodeId",
        19 => "StatusCode",
        20 => "QualifiedName",
        21 => "LocalizedText",
        _ => "",
    }
}

/// What stands after the name of a type.
fn array_word(is_array: bool) -> &'static str
    ensures { result.now ≡ (if is_array then codes " array" else []) }
{
    if is_array { " array" } else { "" }
}

/// Appends the words for a type.
pub(crate) fn put_type(out: &mut Vec<u8>, value_type: ValueType) -> Result<(), AllocError>
    ensures { OnOk result (out.new.items ≡ out.old.items ++ type_words value_type) }
{
    out.extend_from_slice(type_name(value_type.number).as_bytes())?;
    out.extend_from_slice(array_word(value_type.array).as_bytes())
}

/// The words for a type, if there is one.
pub(crate) fn type_text(alloc: Global, given: Option<ValueType>) -> Result<Vec<u8>, AllocError>
    ensures { IfOk result (λ text. text.items ≡ type_text given) }
{
    let mut text = Vec::new(alloc);
    if let Some(value_type) = given {
        put_type(&mut text, value_type)?;
    }
    Ok(text)
}

/// Whether a byte begins a character of UTF-8.
fn is_start(byte: u8) -> bool
    ensures { result ≡ is_start byte }
{
    byte < 128 || byte >= 192
}

/// A text's first 200 characters, with dots in place of the rest.
pub(crate) fn cut_text(alloc: Global, text: &[u8]) -> Result<Vec<u8>, AllocError>
    ensures { IfOk result (λ cut. cut.items ≡ cut_text text.now) }
{
    let mut out = Vec::new(alloc);
    let mut left = SHOWN;
    for byte in text {
        if is_start(*byte) {
            if left == 0 {
                out.extend_from_slice(b"...")?;
                return Ok(out);
            }
            left -= 1;
        }
        out.push(*byte)?;
    }
    Ok(out)
}
