//! Rows of CSV: a history's values and modifications, and a row of values read again.

ghost use Rattle.std.specs.Prelude.{◌≡◌, ◌≢◌, ◌⊎◌, ◌∷◌, ◌++◌, [], ℕ, List, length, map, codes, OnOk, OnErr, IfOk, IfErr, MatchOption, Some};
ghost use Rattle.csv.specs.Records.{fields_of};
ghost use Rattle.csv.specs.Writing.{default_writer, row_text};
ghost use Rattle.history_text.specs.Times.{IsTimeText};
ghost use Rattle.history_text.specs.declared.fault.TextFault.TheVariants as Why;
ghost use Rattle.history_csv.specs.Rows.{Answers, row_of, value_names, change_names, change_word, IsTextless, ShowsTextless, AreReadFields, AreChangeFields, IsAppended};

use crate::fault::RowFault;
use crate::fields::{Fields, Row, row_in};
use crate::nodes::node_text;
use crate::quoting::row_text;
use crate::texts::{ValueTexts, change_word, data_texts, moment_text, shown_texts, tick_text};
use csv::StringRecord;
use history_text::TextFault;
use records::{Entry, Held};
use std::alloc::Global;
use ua_binary::NodeId;
use ua_variant::ValueType;

// ---- reading

/// The fields of a row, where they are four.
fn four(line: &StringRecord) -> Option<Fields<'_>>
    ensures { MatchOption result (length (fields_of line.now) ≢ 4)
        (λ row. fields_of line.now
        ≡ row.node.now ∷ row.time.now ∷ row.value.now ∷ row.status.now ∷ []) }
{
    if line.len() != 4 {
        return None;
    }
    let Some(node) = line.get(0) else {
        return None;
    };
    let Some(time) = line.get(1) else {
        return None;
    };
    let Some(value) = line.get(2) else {
        return None;
    };
    let Some(status) = line.get(3) else {
        return None;
    };
    Some(Fields {
        node,
        time,
        value,
        status,
    })
}

/// Reads a row of values, as the kit's `csv` gives it: a node, a source time, a value of this type,
/// one or an array, and a status, each as it is written. An empty value says that there is none, but
/// where one String or ByteString is wanted an empty one, and where one StatusCode is a good one. A row that hasn't four
/// fields is `Fields`, and else the first field that is wrong is told with what was expected;
/// `OutOfMemory` says that memory ran out.
pub fn read_row(alloc: Global, value_type: ValueType, line: &StringRecord) -> Result<Row, RowFault>
    ensures { Answers (row_of value_type (fields_of line.now)) result }
{
    match four(line) {
        Some(fields) => row_in(alloc, value_type, fields),
        None => Err(RowFault::Fields),
    }
}

// ---- writing

/// Appends a row.
fn put_row(alloc: Global, out: &mut Vec<u8>, fields: &[&[u8]]) -> Result<(), TextFault>
    ensures put { OnOk result (out.new.items
        ≡ out.old.items ++ row_text default_writer (map (λ field. field.now) fields.now)) }
    ensures refused { IfErr result (λ e. e ≡ Why.OutOfMemory) }
    ensures kept { OnErr result (out.new.items ≡ out.old.items) }
{
    let text = row_text(alloc, fields)?;
    out.extend_from_slice(text.as_slice())?;
    Ok(())
}

/// Appends the header of a CSV of values, a row of `node`, `time`, `value` and `status`. The one
/// error is `OutOfMemory`, and then nothing is appended.
pub fn put_value_header(alloc: Global, out: &mut Vec<u8>) -> Result<(), TextFault>
    ensures put { OnOk result
        (out.new.items ≡ out.old.items ++ row_text default_writer value_names) }
    ensures refused { IfErr result (λ e. e ≡ Why.OutOfMemory) }
    ensures kept { OnErr result (out.new.items ≡ out.old.items) }
{
    put_row(alloc, out, &[b"node", b"time", b"value", b"status"])
}

/// Appends the header of a CSV of modifications: behind the fields of a value, `change`, `changed`
/// and `user`. The one error is `OutOfMemory`, and then nothing is appended.
pub fn put_change_header(alloc: Global, out: &mut Vec<u8>) -> Result<(), TextFault>
    ensures put { OnOk result
        (out.new.items ≡ out.old.items ++ row_text default_writer change_names) }
    ensures refused { IfErr result (λ e. e ≡ Why.OutOfMemory) }
    ensures kept { OnErr result (out.new.items ≡ out.old.items) }
{
    put_row(
        alloc,
        out,
        &[
            b"node", b"time", b"value", b"status", b"change", b"changed", b"user",
        ],
    )
}

/// The texts of a live value's row.
#[derive(Drop)]
pub struct RowTexts {
    /// The node.
    pub node: Vec<u8>,
    /// The source time.
    pub time: Vec<u8>,
    /// The value and its status.
    pub shown: ValueTexts,
}

/// The texts of a live value's row, as `put_value_row` writes them. A value that has no text is
/// `NoText`; `OutOfMemory` says that memory ran out.
#[tactic(auto, using(crate::proofs::RowsLemmas::row_is_read))]
pub fn row_texts(alloc: Global, node: &NodeId, held: &Held) -> Result<RowTexts, TextFault>
    ensures written { IfOk result (λ row. AreReadFields node.now held.now
        (row.node.items ∷ row.time.items ∷ row.shown.value.items ∷ row.shown.status.items ∷ [])) }
    ensures refused { IfErr result (λ e. (e ≡ Why.OutOfMemory)
        ⊎ (IsTextless held.now.value.value × (e ≡ Why.NoText))) }
{
    let node = node_text(alloc, node)?;
    let time = moment_text(alloc, held.time)?;
    let shown = data_texts(alloc, &held.value)?;
    Ok(RowTexts { node, time, shown })
}

/// Appends a live value as a row: its node, its source time, its value and its status. No value is
/// an empty field, and no status a good one. What is written is read again by `read_row` at the
/// value's type: a null text or byte string as an empty one, each NaN as one, a code without the bits
/// of the server. A value that has no text is `NoText`; `OutOfMemory` says that memory ran out. After an error nothing is appended.
pub fn put_value_row(
    alloc: Global,
    out: &mut Vec<u8>,
    node: &NodeId,
    held: &Held,
) -> Result<(), TextFault>
    ensures written { OnOk result
        (IsAppended out.old.items out.new.items (AreReadFields node.now held.now)) }
    ensures refused { IfErr result (λ e. (e ≡ Why.OutOfMemory)
        ⊎ (IsTextless held.now.value.value × (e ≡ Why.NoText))) }
    ensures kept { OnErr result (out.new.items ≡ out.old.items) }
{
    let row = row_texts(alloc, node, held)?;
    put_row(
        alloc,
        out,
        &[
            row.node.as_slice(),
            row.time.as_slice(),
            row.shown.value.as_slice(),
            row.shown.status.as_slice(),
        ],
    )
}

/// The texts of what was done, when, and by whom.
#[derive(Drop)]
pub struct MadeTexts {
    /// What was done, in a word.
    pub change: Vec<u8>,
    /// When.
    pub changed: Vec<u8>,
    /// By whom.
    pub user: Vec<u8>,
}

/// The texts of what was done, when, and by whom.
fn made_texts(alloc: Global, entry: &Entry) -> Result<MadeTexts, TextFault>
    ensures change { IfOk result (λ made. made.change.items ≡ change_word entry.now.kind) }
    ensures changed { IfOk result (λ made.
        IsTimeText (record { ticks = entry.now.tick; pico = 0 }) made.changed.items) }
    ensures user { IfOk result (λ made. made.user.items ≡ entry.now.user) }
    ensures refused { IfErr result (λ e. e ≡ Why.OutOfMemory) }
{
    let change = Vec::from_slice(alloc, change_word(entry.kind).as_bytes())?;
    let changed = tick_text(alloc, entry.tick)?;
    let user = Vec::from_slice(alloc, entry.user.as_str().as_bytes())?;
    Ok(MadeTexts {
        change,
        changed,
        user,
    })
}

/// The texts of a modification's row.
#[derive(Drop)]
pub struct ChangeTexts {
    /// The node.
    pub node: Vec<u8>,
    /// The source time.
    pub time: Vec<u8>,
    /// The value that it shows, and its status.
    pub shown: ValueTexts,
    /// What was done, when, and by whom.
    pub made: MadeTexts,
}

/// The texts of a modification's row, as `put_change_row` writes them. A value that has no text is
/// `NoText`; `OutOfMemory` says that memory ran out.
pub fn change_texts(alloc: Global, node: &NodeId, entry: &Entry) -> Result<ChangeTexts, TextFault>
    ensures written { IfOk result (λ row. AreChangeFields node.now entry.now
        (row.node.items ∷ row.time.items ∷ row.shown.value.items ∷ row.shown.status.items
        ∷ row.made.change.items ∷ row.made.changed.items ∷ row.made.user.items ∷ [])) }
    ensures refused { IfErr result (λ e. (e ≡ Why.OutOfMemory)
        ⊎ (ShowsTextless entry.now.value × (e ≡ Why.NoText))) }
{
    let node = node_text(alloc, node)?;
    let time = moment_text(alloc, entry.time)?;
    let shown = shown_texts(alloc, &entry.value)?;
    let made = made_texts(alloc, entry)?;
    Ok(ChangeTexts {
        node,
        time,
        shown,
        made,
    })
}

/// Appends a modification as a row: its node, its source time, the value that it took the place of
/// and its status, else its own; then what was done (`insert`, `replace`, `update`, `delete`), when,
/// and by whom. A delete of nothing has an empty value and an empty status. A value that has no
/// text is `NoText`; `OutOfMemory` says that memory ran out. After an error nothing is
/// appended.
pub fn put_change_row(
    alloc: Global,
    out: &mut Vec<u8>,
    node: &NodeId,
    entry: &Entry,
) -> Result<(), TextFault>
    ensures written { OnOk result
        (IsAppended out.old.items out.new.items (AreChangeFields node.now entry.now)) }
    ensures refused { IfErr result (λ e. (e ≡ Why.OutOfMemory)
        ⊎ (ShowsTextless entry.now.value × (e ≡ Why.NoText))) }
    ensures kept { OnErr result (out.new.items ≡ out.old.items) }
{
    let row = change_texts(alloc, node, entry)?;
    put_row(
        alloc,
        out,
        &[
            row.node.as_slice(),
            row.time.as_slice(),
            row.shown.value.as_slice(),
            row.shown.status.as_slice(),
            row.made.change.as_slice(),
            row.made.changed.as_slice(),
            row.made.user.as_slice(),
        ],
    )
}
