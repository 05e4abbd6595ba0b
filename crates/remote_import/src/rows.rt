//! One row is brought to a server.

ghost use Rattle.std.specs.Prelude.{◌≡◌, IfOk, OnErr};
ghost use Rattle.csv.specs.Records.{fields_of};
ghost use Rattle.historian.specs.UserSpaces.{space_for};
ghost use Rattle.remote_import.specs.Bringing.{BringsRow, IsAnswered, LeavesUnanswered, state_of, told_code, row_request};
ghost use Rattle.ua_client.specs.Answers.{update_in};
ghost use Rattle.ua_client.specs.Talking.{SendsPart, flow_of, message_of};

use crate::session::Session;
use csv::ByteRecord;
use history_import::{Import, RowEnd, Update, row_asked};
use std::io::{Read, Write};
use ua_binary::Status;
use ua_client::{ClientFault, UpdateAsked, UpdateResult, is_short_update};
use ua_settings::Settings;

/// The status of an update of one value: the value's, or that of an update that was refused as a whole.
fn told_code(told: &UpdateResult) -> Status
    ensures { result ≡ told_code (update_in told.now) }
{
    match told.operation_results.as_slice().first() {
        Some(code) => *code,
        None => told.status,
    }
}

/// Sends an update of one value, and answers what the server did with it.
fn send_update<R: Read, W: Write>(
    asked: &Import<'_>,
    session: &mut Session<R, W>,
    update: Update,
) -> Result<RowEnd, ClientFault>
    ensures answered { IfOk result (λ end. IsAnswered asked.now update end
        (state_of R.remaining W.contents session.old)
        (state_of R.remaining W.contents session.new)) }
    ensures part { OnErr result (SendsPart (flow_of R.remaining W.contents session.old.line)
        (flow_of R.remaining W.contents session.new.line)
        (message_of session.old.client (row_request session.old.client asked.now update))) }
{
    let values = [update.value];
    let details = UpdateAsked {
        node_id: &update.node,
        perform: asked.perform.number(),
        values: &values,
    };
    if !is_short_update(&details) {
        return Err(ClientFault::TooLarge);
    }
    let told = session
        .client
        .update_history(&mut session.line, asked.reading, details)?;
    Ok(RowEnd::Answered(told_code(&told)))
}

/// Brings a row to the server, which does what it asks for; nothing is sent of one that asks for nothing.
pub(crate) fn bring_row<R: Read, W: Write>(
    settings: &Settings,
    asked: &Import<'_>,
    session: &mut Session<R, W>,
    row: ByteRecord,
) -> Result<RowEnd, ClientFault>
    ensures brings { IfOk result (λ end. BringsRow (space_for settings.now asked.now.user.now)
        asked.now (fields_of row) end (state_of R.remaining W.contents session.old)
        (state_of R.remaining W.contents session.new)) }
    ensures part { OnErr result (LeavesUnanswered (space_for settings.now asked.now.user.now)
        asked.now (fields_of row) (state_of R.remaining W.contents session.old)
        (state_of R.remaining W.contents session.new)) }
{
    match row_asked(session.line.alloc, settings, asked.user, row) {
        Ok(update) => send_update(asked, session, update),
        Err(end) => Ok(end),
    }
}
