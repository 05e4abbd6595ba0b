//! What is told while rows are written.

ghost use Rattle.std.specs.Prelude.{◌≡◌, IsErrOf};
ghost use Rattle.counted_io.specs.Bytes.{counted};
ghost use Rattle.history_import.specs.Telling.{end_line, summary_of};
ghost use Rattle.history_import.specs.Reading.{TellsText};

use crate::counts::Counts;
use crate::fault::ImportFault;
use crate::lines::{put_line, put_summary};
use crate::row_end::RowEnd;
use counted_io::Counted;
use std::alloc::Global;
use std::io::Write;

/// Sends a text.
fn send<W: Write>(text: &str, output: &mut Counted<W>) -> Result<(), ImportFault>
    ensures tells { TellsText (W.contents output.old.inner) (W.contents output.new.inner)
        text.now result }
    ensures write { IsErrOf result ImportFault.Write
        → output.new.faults ≡ counted output.old.faults }
    ensures kept { (IsErrOf result ImportFault.Write → ⊥) → output.new.faults ≡ output.old.faults }
{
    match output.send(text.as_bytes()) {
        Ok(()) => Ok(()),
        Err(_) => Err(ImportFault::Write),
    }
}

/// Tells what a row came to, if it has a line; `text` is where that is made. The errors are `Write` (the writer's `faults` rose)
/// and `OutOfMemory`.
pub fn tell_row<W: Write>(
    alloc: Global,
    text: &mut String,
    number: u64,
    end: RowEnd,
    output: &mut Counted<W>,
) -> Result<(), ImportFault>
    ensures tells { TellsText (W.contents output.old.inner) (W.contents output.new.inner)
        (end_line number end) result }
    ensures write { IsErrOf result ImportFault.Write
        → output.new.faults ≡ counted output.old.faults }
    ensures kept { (IsErrOf result ImportFault.Write → ⊥) → output.new.faults ≡ output.old.faults }
{
    text.clear();
    match put_line(alloc, text, number, end) {
        Ok(()) => {}
        Err(_) => return Err(ImportFault::OutOfMemory),
    }
    send(text.as_str(), output)
}

/// Tells how many rows there were, and what became of them; `text` is where that is made. The errors are those of `tell_row`.
pub fn tell_summary<W: Write>(
    text: &mut String,
    counts: &Counts,
    output: &mut Counted<W>,
) -> Result<(), ImportFault>
    ensures tells { TellsText (W.contents output.old.inner) (W.contents output.new.inner)
        (summary_of counts.now) result }
    ensures write { IsErrOf result ImportFault.Write
        → output.new.faults ≡ counted output.old.faults }
    ensures kept { (IsErrOf result ImportFault.Write → ⊥) → output.new.faults ≡ output.old.faults }
{
    text.clear();
    match put_summary(text, counts) {
        Ok(()) => {}
        Err(_) => return Err(ImportFault::OutOfMemory),
    }
    send(text.as_str(), output)
}
