//! The texts of a row's fields.

ghost use Rattle.std.specs.Prelude.{◌≡◌, ◌≤◌, ◌⊎◌, [], IfOk, IfErr, Some, unwrap_or};
ghost use Rattle.std.specs.Int.{w64};
ghost use Rattle.std.specs.Int.RustNames.{FitsSigned};
ghost use Rattle.ua_variant.specs.declared.value.ValueType.{ValueType};
ghost use Rattle.history_text.specs.Statuses.{kept, status_in};
ghost use Rattle.history_text.specs.Times.{IsTimeText};
ghost use Rattle.history_text.specs.declared.fault.TextFault.TheVariants as Why;
ghost use Rattle.history_csv.specs.Rows.{moment_in, optional_in, time_of, IsVariantText, IsTextless, ShowsTextless, IsTypeOf, read_again, code_text, change_word, AreDataTexts, AreShownTexts};

use history_text::{TextFault, Time, array_text, status_text, time_text, value_text};
use records::Moment;
use std::alloc::Global;
use ua_binary::Status;
use ua_variant::{DataValue, HistoryUpdateType, Variant};

/// The parts of a moment.
fn parts_of(time: Moment) -> Time
    ensures same { result ≡ time_of time }
    ensures pico { result.pico ≤ 9_999 }
    ensures fits { FitsSigned w64 result.ticks }
{
    Time {
        ticks: time.ticks,
        pico: time.pico,
    }
}

/// A moment's text.
#[tactic(auto, using(crate::proofs::RowsLemmas::moment_again))]
pub(crate) fn moment_text(alloc: Global, time: Moment) -> Result<Vec<u8>, TextFault>
    ensures written { IfOk result (λ text. IsTimeText (time_of time) text.items) }
    ensures read { IfOk result (λ text. moment_in text.items ≡ Some time) }
    ensures refused { IfErr result (λ e. e ≡ Why.OutOfMemory) }
{
    let text = time_text(alloc, parts_of(time))?;
    Ok(text)
}

/// A status's text.
fn code_text(alloc: Global, status: Option<Status>) -> Result<Vec<u8>, TextFault>
    ensures written { IfOk result (λ text. text.items ≡ code_text status) }
    ensures read { IfOk result (λ text.
        status_in text.items ≡ Some (kept (unwrap_or status (record { 0 = 0 })))) }
    ensures refused { IfErr result (λ e. e ≡ Why.OutOfMemory) }
{
    let text = status_text(alloc, status.unwrap_or(Status(0)))?;
    Ok(text)
}

/// The text of a value.
#[tactic(auto, using(crate::proofs::RowsLemmas::read_one, crate::proofs::RowsLemmas::read_many))]
fn some_text(alloc: Global, value: &Variant) -> Result<Vec<u8>, TextFault>
    ensures written { IfOk result (λ text. IsVariantText (Some value.now) text.items) }
    ensures read { IfOk result (λ text. (type : ValueType) → IsTypeOf type (Some value.now)
        → optional_in type text.items ≡ read_again type (Some value.now)) }
    ensures refused { IfErr result (λ e.
        (e ≡ Why.OutOfMemory) ⊎ (IsTextless (Some value.now) × (e ≡ Why.NoText))) }
{
    match value {
        Variant::Null => Ok(Vec::new(alloc)),
        Variant::Scalar(value) => value_text(alloc, value),
        Variant::Array(values) => array_text(alloc, values),
    }
}

/// The text of a value that may be none.
fn variant_text(alloc: Global, value: &Option<Variant>) -> Result<Vec<u8>, TextFault>
    ensures written { IfOk result (λ text. IsVariantText value.now text.items) }
    ensures read { IfOk result (λ text. (type : ValueType) → IsTypeOf type value.now
        → optional_in type text.items ≡ read_again type value.now) }
    ensures refused { IfErr result (λ e.
        (e ≡ Why.OutOfMemory) ⊎ (IsTextless value.now × (e ≡ Why.NoText))) }
{
    match value {
        Some(value) => some_text(alloc, value),
        None => Ok(Vec::new(alloc)),
    }
}

/// The texts of a value and of its status.
#[derive(Drop)]
pub struct ValueTexts {
    /// The value.
    pub value: Vec<u8>,
    /// The status.
    pub status: Vec<u8>,
}

/// The texts of a value and of its status.
pub(crate) fn data_texts(alloc: Global, given: &DataValue) -> Result<ValueTexts, TextFault>
    ensures written { IfOk result (λ texts.
        AreDataTexts given.now texts.value.items texts.status.items) }
    ensures value { IfOk result (λ texts. (type : ValueType) → IsTypeOf type given.now.value
        → optional_in type texts.value.items ≡ read_again type given.now.value) }
    ensures status { IfOk result (λ texts. status_in texts.status.items
        ≡ Some (kept (unwrap_or given.now.status (record { 0 = 0 })))) }
    ensures refused { IfErr result (λ e.
        (e ≡ Why.OutOfMemory) ⊎ (IsTextless given.now.value × (e ≡ Why.NoText))) }
{
    let value = variant_text(alloc, &given.value)?;
    let status = code_text(alloc, given.status)?;
    Ok(ValueTexts { value, status })
}

/// The texts of a value that a modification shows, and of its status.
pub(crate) fn shown_texts(alloc: Global, shown: &Option<DataValue>) -> Result<ValueTexts, TextFault>
    ensures written { IfOk result (λ texts.
        AreShownTexts shown.now texts.value.items texts.status.items) }
    ensures refused { IfErr result (λ e.
        (e ≡ Why.OutOfMemory) ⊎ (ShowsTextless shown.now × (e ≡ Why.NoText))) }
{
    match shown {
        Some(given) => data_texts(alloc, given),
        None => Ok(ValueTexts {
            value: Vec::new(alloc),
            status: Vec::new(alloc),
        }),
    }
}

/// What was done, in a word.
pub(crate) fn change_word(kind: HistoryUpdateType) -> &'static str
    ensures { result.now ≡ change_word kind }
{
    match kind {
        HistoryUpdateType::Insert => "insert",
        HistoryUpdateType::Replace => "replace",
        HistoryUpdateType::Update => "update",
        HistoryUpdateType::Delete => "delete",
    }
}

/// A tick's text, as a moment.
pub(crate) fn tick_text(alloc: Global, ticks: i64) -> Result<Vec<u8>, TextFault>
    ensures written { IfOk result (λ text.
        IsTimeText (record { ticks = ticks; pico = 0 }) text.items) }
    ensures refused { IfErr result (λ e. e ≡ Why.OutOfMemory) }
{
    let text = time_text(alloc, Time { ticks, pico: 0 })?;
    Ok(text)
}
