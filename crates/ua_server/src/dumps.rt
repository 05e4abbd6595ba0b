//! Dumps: a line for each record of an archive.

ghost use Rattle.std.specs.Prelude.{◌≡◌, ◌≢◌, ◌++◌, ◌⊎◌, ◌↔◌, ℕ, max, OnOk, IfErr, IsErrOf, IsTrue, string_bytes};
ghost use Rattle.counted_io.specs.Bytes.{counted};
ghost use Rattle.archive.specs.Store.{IsAskedWithin};
ghost use Rattle.std.specs.List.{flat_map, AllByRecursion};
ghost use Rattle.stamp.specs.Numbers.{number_of};
ghost use Rattle.records.specs.Contents.{vec};
ghost use Rattle.records.specs.Spelling.{IsRecord};
ghost use Rattle.ua_server.specs.Dumping.{Dumps, Dumping, line_of};

use archive::{Archive, StoreFault};
use counted_io::Counted;
use records::{Record, put_record};
use stamp::{GREATEST_TICK, Vector};
use std::alloc::{AllocError, Global};
use std::fmt::Write as _;
use std::io::Write;

/// The records that an archive is asked for at once.
const MOST: usize = 16;

/// What ended a dump before its end.
#[derive(Clone, Copy, Debug, PartialEq, Eq)]
pub enum DumpFault {
    /// The archive met this fault of its store.
    Store(StoreFault),
    /// A write failed, or took nothing.
    Write,
    /// Memory ran out.
    OutOfMemory,
}

/// Whether a record can be written.
fn is_record(r: &Record) -> bool
    ensures { IsTrue result ↔ IsRecord r.now }
{
    r.is_lawful() && r.tick >= 1 && r.tick <= GREATEST_TICK
}

/// Appends a record's line.
fn put_line(alloc: Global, r: &Record, text: &mut String) -> Result<(), AllocError>
    requires { IsRecord r.now }
    ensures { OnOk result (string_bytes text.new ≡ string_bytes text.old ++ line_of r.now) }
{
    let mut bytes = Vec::new(alloc);
    match put_record(&mut bytes, r) {
        Ok(()) => {}
        Err(_) => return Err(AllocError),
    }
    let digits = hex::encode_upper(alloc, &bytes)?;
    let origin = r.origin.get();
    let number = r.number;
    let tick = r.tick;
    writeln!(text, "{origin} {number} {tick} {digits}")
}

/// Appends the lines of some records, and raises the vector by them.
fn put_lines(
    alloc: Global,
    records: &[Record],
    known: &mut Vector,
    text: &mut String,
) -> Result<(), DumpFault>
    ensures lines { OnOk result
        (string_bytes text.new ≡ string_bytes text.old ++ flat_map line_of records.now) }
    ensures known { OnOk result
        ((origin : ℕ)
        → number_of known.new origin ≡ max (number_of known.old origin) (vec records.now origin)) }
    ensures err { IfErr result
        (λ fault. (fault ≡ DumpFault.OutOfMemory)
        ⊎
        ((fault ≡ DumpFault.Store StoreFault.Refused)
        × (AllByRecursion IsRecord records.now → ⊥))) }
{
    for r in records {
        if !is_record(r) {
            return Err(DumpFault::Store(StoreFault::Refused));
        }
        match put_line(alloc, r, text) {
            Ok(()) => {}
            Err(_) => return Err(DumpFault::OutOfMemory),
        }
        known.raise(r.origin, r.number);
    }
    Ok(())
}

/// Writes a line for each record of an archive, by origin and number: its origin, its number and its tick in decimal
/// digits, and its bytes in upper-case hex digits, a blank between them. The archive stays as it is. Sixteen records
/// are in memory at a time.
///
/// Errors: `Store` where the archive met a fault of its store, `Write` where a write failed (the writer's `faults` rose),
/// `OutOfMemory` where memory was wanting. What was written stands, a first part of the whole.
pub fn dump<A: Archive, W: Write>(
    alloc: Global,
    archive: &mut A,
    output: &mut Counted<W>,
) -> Result<(), DumpFault>
    ensures dumps { Dumps (A.state archive.old) (A.state archive.new) (W.contents output.old.inner)
        (W.contents output.new.inner) result }
    ensures asked { IsAskedWithin 16 (A.asked archive.old) (A.asked archive.new) }
    ensures write { IsErrOf result DumpFault.Write → output.new.faults ≡ counted output.old.faults }
    ensures kept { (IsErrOf result DumpFault.Write → ⊥) → output.new.faults ≡ output.old.faults }
{
    let mut known = Vector::new();
    let mut text = String::new(alloc);
    for _ in 0..u64::MAX {
        let records = match archive.since(alloc, &known, MOST) {
            Ok(records) => records,
            Err(fault) => return Err(DumpFault::Store(fault)),
        };
        let batch = records.as_slice();
        if batch.is_empty() {
            return Ok(());
        }
        text.clear();
        match put_lines(alloc, batch, &mut known, &mut text) {
            Ok(()) => {}
            Err(fault) => return Err(fault),
        }
        match output.send(text.as_bytes()) {
            Ok(()) => {}
            Err(_) => return Err(DumpFault::Write),
        }
    }
    Err(DumpFault::OutOfMemory)
}
