//! Arrays as text.

ghost use Rattle.std.specs.Prelude.{◌≡◌, ◌⊎◌, map, Ok, IfOk, IfErr, OnOk};
ghost use Rattle.json.specs.Reads.{token_of};
ghost use Rattle.history_text.specs.Arrays.{item_in, all_said, unless_followed, listed, array_in, IsListText, IsArrayText, IsUnwrittenArray, PutsItems};
ghost use Rattle.history_text.specs.Values.{Answers};
ghost use Rattle.history_text.specs.declared.fault.TextFault.TheVariants.{NoText, OutOfMemory};

use crate::fault::TextFault;
use crate::items::Item;
use json::{Reader, Scratch, Token, Writer};
use std::alloc::Global;
use ua_binary::Listing;
use ua_variant::Array;

// ---- reading

/// What an item says.
fn item_in<T: Item>(alloc: Global, item: Token<'_>) -> Result<T, TextFault>
    ensures { Answers (item_in T.said (token_of item.entry)) result }
{
    match item {
        Token::String(text) | Token::Number(text) => T::read(alloc, text),
        Token::Bool(true) => T::read(alloc, "true"),
        Token::Bool(false) => T::read(alloc, "false"),
        _ => Err(TextFault::NoArray),
    }
}

/// The items, where an array ends and nothing stands behind it.
fn ended<T: Drop>(reader: &mut Reader<'_>, items: Vec<T>) -> Result<Listing<T>, TextFault>
    ensures { result ≡ unless_followed reader.old items.items }
{
    match reader.next() {
        None => Ok(Listing::of(items)),
        Some(_) => Err(TextFault::NoArray),
    }
}

/// The items of an array up to its end.
fn items_in<T: Item>(alloc: Global, reader: &mut Reader<'_>) -> Result<Listing<T>, TextFault>
    ensures { Answers (all_said T.said reader.old) result }
{
    let mut items = Vec::new(alloc);
    while let Some(item) = reader.next() {
        if let Token::EndArray = item {
            return ended(reader, items);
        }
        items.push(item_in(alloc, item)?)?;
    }
    Err(TextFault::NoArray)
}

/// The items of a JSON array.
fn listed<T: Item>(alloc: Global, text: &str) -> Result<Listing<T>, TextFault>
    ensures { Answers (listed T.said text.now) result }
{
    let mut scratch = Scratch::new(alloc);
    let mut reader = Reader::new(text, &mut scratch)?;
    match reader.next() {
        Some(Token::BeginArray) => items_in(alloc, &mut reader),
        _ => Err(TextFault::NoArray),
    }
}

/// Reads an array of values of the type of this number: a JSON array (RFC 8259), each item a string,
/// a number, `true` or `false`, whose text is read as `read_value` reads one: of a number its
/// characters as they stand. White space of JSON may stand around it and between its parts. The
/// first thing that is wrong, from the left, is told: what is no JSON array of such items is
/// `NoArray`, and an item that says no value of the type is refused by what was expected. Arrays of
/// the other types are `NoText`; `OutOfMemory` says that memory ran out.
pub fn read_array(alloc: Global, number: u8, text: &str) -> Result<Array, TextFault>
    ensures { Answers (array_in number text.now) result }
{
    Ok(match number {
        1 => Array::Boolean(listed(alloc, text)?),
        2 => Array::SByte(listed(alloc, text)?),
        3 => Array::Byte(listed(alloc, text)?),
        4 => Array::Int16(listed(alloc, text)?),
        5 => Array::UInt16(listed(alloc, text)?),
        6 => Array::Int32(listed(alloc, text)?),
        7 => Array::UInt32(listed(alloc, text)?),
        8 => Array::Int64(listed(alloc, text)?),
        9 => Array::UInt64(listed(alloc, text)?),
        10 => Array::Float(listed(alloc, text)?),
        11 => Array::Double(listed(alloc, text)?),
        12 => Array::String(listed(alloc, text)?),
        13 => Array::DateTime(listed(alloc, text)?),
        14 => Array::Guid(listed(alloc, text)?),
        15 => Array::ByteString(listed(alloc, text)?),
        19 => Array::StatusCode(listed(alloc, text)?),
        _ => return Err(TextFault::NoText),
    })
}

// ---- writing

/// Appends items.
fn put_items<T: Item>(alloc: Global, out: &mut Writer, items: &[T]) -> Result<(), TextFault>
    ensures put { OnOk result (PutsItems T.said out.old out.new
        (map T.alone items.now) (map T.again items.now)) }
    ensures refused { IfErr result (λ e. e ≡ OutOfMemory) }
{
    for item in items {
        item.put(alloc, out)?;
    }
    Ok(())
}

/// Items as a JSON array.
fn spelled<T: Item>(alloc: Global, items: &[T]) -> Result<Vec<u8>, TextFault>
    ensures written { IfOk result (λ text. IsListText (map T.alone items.now) text.items) }
    ensures read { IfOk result (λ text. listed T.said text.items ≡ Ok (map T.again items.now)) }
    ensures refused { IfErr result (λ e. e ≡ OutOfMemory) }
{
    let mut out = Writer::new(Vec::new(alloc));
    out.begin_array()?;
    put_items(alloc, &mut out, items)?;
    out.end_array()?;
    Ok(out.into_inner())
}

/// An array as text: a JSON array (RFC 8259) without white space, each item as `value_text` writes
/// such a value. A Boolean and a finite number stand without quotes, any other item between them,
/// `NaN` and `inf` too. `read_array` reads it again: a null text or byte string as an empty one, each
/// NaN as one, a code without the bits of the server. Arrays of the other types are `NoText`;
/// `OutOfMemory` says that memory ran out.
pub fn array_text(alloc: Global, array: &Array) -> Result<Vec<u8>, TextFault>
    ensures read { IfOk result (λ text. IsArrayText array.now text.items) }
    ensures refused { IfErr result (λ e.
        (e ≡ OutOfMemory) ⊎ (IsUnwrittenArray array.now × (e ≡ NoText))) }
{
    match array {
        Array::Boolean(items) => spelled(alloc, items.as_slice()),
        Array::SByte(items) => spelled(alloc, items.as_slice()),
        Array::Byte(items) => spelled(alloc, items.as_slice()),
        Array::Int16(items) => spelled(alloc, items.as_slice()),
        Array::UInt16(items) => spelled(alloc, items.as_slice()),
        Array::Int32(items) => spelled(alloc, items.as_slice()),
        Array::UInt32(items) => spelled(alloc, items.as_slice()),
        Array::Int64(items) => spelled(alloc, items.as_slice()),
        Array::UInt64(items) => spelled(alloc, items.as_slice()),
        Array::Float(items) => spelled(alloc, items.as_slice()),
        Array::Double(items) => spelled(alloc, items.as_slice()),
        Array::String(items) => spelled(alloc, items.as_slice()),
        Array::DateTime(items) => spelled(alloc, items.as_slice()),
        Array::Guid(items) => spelled(alloc, items.as_slice()),
        Array::ByteString(items) => spelled(alloc, items.as_slice()),
        Array::StatusCode(items) => spelled(alloc, items.as_slice()),
        _ => Err(TextFault::NoText),
    }
}
