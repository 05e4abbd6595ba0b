//! The first records that a vector lacks, asked for a few at a time, so that large ones cost a frame and not a thousand of
//! them.

ghost use Rattle.std.specs.Prelude.{◌≡◌, ◌≤◌, ◌<◌, ℕ, length, true, false, IfOk};
ghost use Rattle.ua_binary.specs.Format.{saturated};
ghost use Rattle.stamp.specs.Numbers.{number_of};
ghost use Rattle.archive.specs.Store.{IsAskedWithin};
ghost use Rattle.exchange.specs.Batches.{most, portion, records_length, numbers_with, Gathers, FillsFrame, AsksFor};

use crate::fault::ExchangeFault;
use archive::Archive;
use records::Record;
use stamp::{GREATEST_NUMBER, Vector};
use std::alloc::Global;

/// The most records of a batch.
const MOST: usize = 1000;

/// The most bytes of a frame.
pub(crate) const LONGEST_FRAME: usize = 2_097_152;

/// The most records that the archive is asked for at a time.
const PORTION: usize = 16;

/// Raises a vector to the numbers of records, so that it lacks none of them any more.
pub fn raise_to(known: &mut Vector, records: &[Record])
    ensures { (replica : ℕ)
        → number_of known.new replica ≡ numbers_with (number_of known.old) records.now replica }
{
    for record in records {
        known.raise(record.origin, record.number.min(GREATEST_NUMBER));
    }
}

/// How many bytes records take in a frame, each behind its length, or 2^64 - 1 where there are more.
fn size_in_frame(records: &[Record]) -> usize
    ensures { result ≡ saturated (records_length records.now) }
{
    let mut size: usize = 0;
    for record in records {
        size = size.saturating_add(record.encoded_size().saturating_add(4));
    }
    size
}

/// Appends the next records that a vector lacks, and raises it to them; and tells whether more are wanted: no more than a batch
/// has, and none behind those that fill a frame. Errors are `OutOfMemory` and `Store`.
fn append_portion<A: Archive>(
    alloc: Global,
    archive: &mut A,
    known: &mut Vector,
    size: &mut usize,
    records: &mut Vec<Record>,
) -> Result<bool, ExchangeFault>
    requires few { length records.old.items ≤ most }
    requires size { size.old ≡ saturated (records_length records.old.items) }
    ensures asks { (v : ℕ → ℕ) → AsksFor (A.state archive.old) (A.state archive.new) result
        (λ more.
        Gathers (A.state archive.old).content v (number_of known.old) records.old.items
        → Gathers (A.state archive.old).content v (number_of known.new) records.new.items
        × (more ≡ false → FillsFrame (A.state archive.old).content v records.new.items)) }
    ensures asked { IsAskedWithin portion (A.asked archive.old) (A.asked archive.new) }
    ensures few { length records.new.items ≤ most }
    ensures grows { IfOk result
        (λ more.
        more ≡ true → (length records.old.items < length records.new.items)
        × (length records.new.items < most)) }
    ensures size { size.new ≡ saturated (records_length records.new.items) }
{
    let limit = PORTION.min(MOST - records.len());
    let mut portion = archive.since(alloc, known, limit)?;
    portion.truncate(limit);
    let (last, more_size) = (portion.len() < limit, size_in_frame(&portion));
    raise_to(known, &portion);
    records.append(&mut portion)?;
    *size = size.saturating_add(more_size);
    Ok(!last && records.len() < MOST && *size <= LONGEST_FRAME)
}

/// The first records that a vector lacks: those of a batch, or as many as are longer than a frame. Errors are `OutOfMemory` and
/// `Store`.
pub(crate) fn first_missing<A: Archive>(
    alloc: Global,
    archive: &mut A,
    theirs: &Vector,
) -> Result<Vec<Record>, ExchangeFault>
    ensures asks { AsksFor (A.state archive.old) (A.state archive.new) result
        (λ records.
        FillsFrame (A.state archive.old).content (number_of theirs.now) records.items) }
    ensures asked { IsAskedWithin portion (A.asked archive.old) (A.asked archive.new) }
    ensures few { IfOk result (λ records. length records.items ≤ most) }
{
    let (mut known, mut size) = (*theirs, 0);
    let mut records = Vec::new(alloc);
    let mut more = append_portion(alloc, archive, &mut known, &mut size, &mut records)?;
    while more {
        more = append_portion(alloc, archive, &mut known, &mut size, &mut records)?;
    }
    Ok(records)
}
