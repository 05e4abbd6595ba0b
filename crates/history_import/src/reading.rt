//! The rows of a text, one after the other.

ghost use Rattle.std.specs.Prelude.{◌≡◌, ◌⊎◌, ◌↔◌, [], ℕ, List, Option, Some, IsTrue, IsErrOf};
ghost use Rattle.csv.specs.Records.{fields_of, field_at};
ghost use Rattle.history_csv.specs.Rows.{value_names};
ghost use Rattle.history_import.specs.Reading.{StandsBehind, ReadsOne, ReadsHeader};

use crate::fault::ImportFault;
use crate::input::Lent;
use counted_io::Counted;
use csv::{ByteRecord, Error, Reader, ReaderBuilder};
use std::alloc::Global;
use std::io::Read;

/// Why there are no more rows.
fn fault_of(error: &Error) -> ImportFault
    ensures { (result ≡ ImportFault.Read) ⊎ (result ≡ ImportFault.OutOfMemory) }
{
    if error.is_io_error() {
        ImportFault::Read
    } else {
        ImportFault::OutOfMemory
    }
}

/// A reader of the rows of a text, which stands before them.
pub fn rows_in<'a, R: Read>(alloc: Global, input: &'a mut Counted<R>) -> Reader<Lent<'a, R>>
    ensures { StandsBehind (λ lent. R.remaining lent.input.now.inner) result
        (R.remaining input.entry.now.inner) [] }
{
    ReaderBuilder::new()
        .has_headers(false)
        .flexible(true)
        .from_reader(alloc, Lent { input })
}

/// Reads the next row; none at the end of the text. The errors are `Read` and `OutOfMemory`.
pub fn next_row<R: Read>(
    alloc: Global,
    reader: &mut Reader<R>,
) -> Result<Option<ByteRecord>, ImportFault>
    ensures reads { (known : Option (List ℕ)) (rows : List (List (List ℕ)))
        → StandsBehind R.remaining reader.old known rows
        → ReadsOne R.remaining reader.new known rows result }
    ensures fault { IsErrOf result ImportFault.Write → ⊥ }
{
    let mut row = ByteRecord::new(alloc);
    match reader.read_byte_record(&mut row) {
        Ok(true) => Ok(Some(row)),
        Ok(false) => Ok(None),
        Err(error) => Err(fault_of(&error)),
    }
}

/// Whether the field at a place is this one.
fn has_field(row: &ByteRecord, place: usize, name: &[u8]) -> bool
    ensures { IsTrue result ↔ (field_at (fields_of row.now) place ≡ Some name.now) }
{
    match row.get(place) {
        Some(field) => field == name,
        None => false,
    }
}

/// Whether a row's fields are the names of the fields.
fn is_header(row: &ByteRecord) -> bool
    ensures { IsTrue result ↔ (fields_of row.now ≡ value_names) }
{
    if row.len() != 4 {
        return false;
    }
    if !has_field(row, 0, b"node") {
        return false;
    }
    if !has_field(row, 1, b"time") {
        return false;
    }
    if !has_field(row, 2, b"value") {
        return false;
    }
    has_field(row, 3, b"status")
}

/// Reads the header. The errors are `Header`, where it is another row or none, `Read` and `OutOfMemory`.
pub fn read_header<R: Read>(alloc: Global, reader: &mut Reader<R>) -> Result<(), ImportFault>
    ensures reads { (known : Option (List ℕ)) → StandsBehind R.remaining reader.old known []
        → ReadsHeader R.remaining reader.new known result }
    ensures fault { IsErrOf result ImportFault.Write → ⊥ }
{
    let row = match next_row(alloc, reader) {
        Ok(Some(row)) => row,
        Ok(None) => return Err(ImportFault::Header),
        Err(fault) => return Err(fault),
    };
    if is_header(&row) {
        Ok(())
    } else {
        Err(ImportFault::Header)
    }
}
