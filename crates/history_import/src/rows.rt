//! What one row comes to.

ghost use Rattle.std.specs.Prelude.{◌≡◌, ◌∷◌, [], List, None, IfOk, IfSome, option_copied};
ghost use Rattle.csv.specs.Records.{fields_of};
ghost use Rattle.ua_session.specs.Users.{IsUserName};
ghost use Rattle.ua_variant.specs.DataValue.{IsShortData, IsPicoseconds};
ghost use Rattle.archive.specs.Store.{StepResult};
ghost use Rattle.archive.specs.Steps.{Refines};
ghost use Rattle.historian.specs.UserSpaces.{space_for};
ghost use Rattle.history_import.specs.Rows.{node_field, row_type, some_pico, some_status, update_by, unless_too_long, row_judged, row_asked, row_updated, text_done, row_done, code_of, IsGivenOrStarved};

use crate::asked::Import;
use crate::row_end::RowEnd;
use crate::update::Update;
use archive::Archive;
use csv::{ByteRecord, StringRecord};
use historian::{Server, granted_type, update_one};
use history_csv::{Row, RowFault, read_node, read_row};
use records::Moment;
use std::alloc::{AllocError, Global};
use ua_binary::{Listing, Status, Ticks};
use ua_services::{HistoryUpdateDetails, HistoryUpdateResult, UpdateDataDetails};
use ua_settings::Settings;
use ua_variant::{DataValue, ValueType};

/// The most bytes that a value may have, as its record may.
const LONGEST: usize = 1_048_578;

/// A row that memory was wanting for.
const STARVED: RowEnd = RowEnd::NoRow(RowFault::OutOfMemory);

// ---- what it asks for

/// The first field of a row, where it has four.
fn node_field(row: &StringRecord) -> Option<&str>
    ensures { option_copied result ≡ node_field (fields_of row.now) }
{
    if row.len() != 4 {
        return None;
    }
    row.get(0)
}

/// The type of the variable that a row is of.
fn row_type(
    alloc: Global,
    settings: &Settings,
    user: &str,
    row: &StringRecord,
) -> Result<ValueType, RowEnd>
    ensures { IsGivenOrStarved
        (row_type (space_for settings.now user.now) (fields_of row.now)) result }
{
    let Some(text) = node_field(row) else {
        return Err(RowEnd::NoRow(RowFault::Fields));
    };
    let node = match read_node(alloc, text) {
        Ok(node) => node,
        Err(fault) => return Err(RowEnd::NoRow(fault)),
    };
    match granted_type(settings, user, node.as_ref()) {
        Ok(value_type) => Ok(value_type),
        Err(code) => Err(RowEnd::Answered(code)),
    }
}

/// The picoseconds of a moment, where it has some.
fn pico_of(time: Moment) -> Option<u16>
    ensures given { result ≡ some_pico time }
    ensures close { IfSome result IsPicoseconds }
{
    let pico = time.pico();
    if pico == 0 {
        return None;
    }
    Some(pico)
}

/// A status, where it isn't good.
fn status_of(status: Status) -> Option<Status>
    ensures { result ≡ some_status status }
{
    if status.0 == 0 {
        return None;
    }
    Some(status)
}

/// What a row asks for.
fn update_by(row: Row) -> Update
    ensures asked { result ≡ update_by row }
    ensures close { IfSome result.value.source_pico IsPicoseconds }
{
    let Row {
        node,
        time,
        value,
        status,
    } = row;
    let value = DataValue {
        value,
        status: status_of(status),
        source_time: Some(Ticks(time.ticks())),
        source_pico: pico_of(time),
        server_time: None,
        server_pico: None,
    };
    Update { node, value }
}

/// Refuses an update whose value is longer than a record may be.
fn unless_too_long(update: Update) -> Result<Update, RowEnd>
    requires close { IfSome update.value.source_pico IsPicoseconds }
    requires alone { update.value.server_pico ≡ None }
    ensures judged { result ≡ unless_too_long update }
    ensures short { IfOk result (λ update. IsShortData update.value) }
{
    if update.value.size() > LONGEST {
        return Err(RowEnd::Answered(Status::BAD_ENCODING_LIMITS_EXCEEDED));
    }
    Ok(update)
}

/// What the fields of a row ask for, or why they ask for nothing.
fn row_judged(
    alloc: Global,
    settings: &Settings,
    user: &str,
    row: &StringRecord,
) -> Result<Update, RowEnd>
    ensures judged { IsGivenOrStarved
        (row_judged (space_for settings.now user.now) (fields_of row.now)) result }
    ensures short { IfOk result (λ update. IsShortData update.value) }
{
    let value_type = match row_type(alloc, settings, user, row) {
        Ok(value_type) => value_type,
        Err(end) => return Err(end),
    };
    match read_row(alloc, value_type, row) {
        Ok(read) => unless_too_long(update_by(read)),
        Err(fault) => Err(RowEnd::NoRow(fault)),
    }
}

/// What a row asks for, by the type of its variable, which HistoryUpdate would grant this user; or why it asks for nothing. One
/// whose bytes aren't UTF-8 asks for nothing, nor does one whose value has more than 1,048,578 bytes.
pub fn row_asked(
    alloc: Global,
    settings: &Settings,
    user: &str,
    row: ByteRecord,
) -> Result<Update, RowEnd>
    ensures judged { IsGivenOrStarved
        (row_asked (space_for settings.now user.now) (fields_of row)) result }
    ensures short { IfOk result (λ update. IsShortData update.value) }
{
    match StringRecord::from_byte_record(row) {
        Ok(row) => row_judged(alloc, settings, user, &row),
        Err(_) => Err(RowEnd::NotText),
    }
}

// ---- what is done

/// The status of an update of one value: the value's, or that of an update that was refused as a whole.
fn code_of(told: &HistoryUpdateResult) -> Status
    ensures { result ≡ code_of told.now }
{
    match told.operation_results.as_slice().first() {
        Some(code) => *code,
        None => told.status,
    }
}

/// A list of one value.
fn list_of(alloc: Global, value: DataValue) -> Result<Listing<DataValue>, AllocError>
    ensures { IfOk result (λ list. list ≡ value ∷ []) }
{
    let mut values = Vec::with_capacity(alloc, 1)?;
    values.push(value)?;
    Ok(Listing::of(values))
}

/// Asks for an update, as a HistoryUpdate of this user would at this moment.
fn row_updated<A: Archive>(server: &mut Server<A>, asked: &Import<'_>, update: Update) -> RowEnd
    requires user { IsUserName asked.now.user.now }
    requires short { IsShortData update.value }
    ensures acts { (used : List StepResult)
        × Refines (A.state server.old.replica.archive) (A.state server.new.replica.archive) used
        (row_updated (A.state server.old.replica.archive).own
        (space_for server.old.settings asked.now.user.now) asked.now update) result }
    ensures settings { server.new.settings ≡ server.old.settings }
{
    let Update { node, value } = update;
    let Ok(values) = list_of(server.alloc, value) else {
        return STARVED;
    };
    let details = HistoryUpdateDetails::UpdateData(UpdateDataDetails {
        node_id: node.as_ref(),
        perform: asked.perform.number(),
        values,
    });
    let told = update_one(server, asked.user, asked.reading, &details);
    RowEnd::Answered(code_of(&told))
}

/// Does what the fields of a row ask for.
fn text_done<A: Archive>(server: &mut Server<A>, asked: &Import<'_>, row: &StringRecord) -> RowEnd
    requires user { IsUserName asked.now.user.now }
    ensures acts { (used : List StepResult)
        × Refines (A.state server.old.replica.archive) (A.state server.new.replica.archive) used
        (text_done (A.state server.old.replica.archive).own
        (space_for server.old.settings asked.now.user.now) asked.now (fields_of row.now)) result }
    ensures settings { server.new.settings ≡ server.old.settings }
{
    match row_judged(server.alloc, &server.settings, asked.user, row) {
        Ok(update) => row_updated(server, asked, update),
        Err(end) => end,
    }
}

/// Does what a row asks for; one whose bytes aren't UTF-8 asks for nothing.
pub(crate) fn do_row<A: Archive>(
    server: &mut Server<A>,
    asked: &Import<'_>,
    row: ByteRecord,
) -> RowEnd
    requires user { IsUserName asked.now.user.now }
    ensures acts { (used : List StepResult)
        × Refines (A.state server.old.replica.archive) (A.state server.new.replica.archive) used
        (row_done (A.state server.old.replica.archive).own
        (space_for server.old.settings asked.now.user.now) asked.now (fields_of row)) result }
    ensures settings { server.new.settings ≡ server.old.settings }
{
    match StringRecord::from_byte_record(row) {
        Ok(row) => text_done(server, asked, &row),
        Err(_) => RowEnd::NotText,
    }
}
