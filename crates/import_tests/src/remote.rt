//! Imports into a server whose answers are known.

use crate::plant::{by_ann, settings_of};
use counted_io::Counted;
use history_import::{Counts, ImportFault, Perform};
use remote_import::{RemoteFault, import_at};
use std::alloc::Global;
use ua_binary::{BinaryFault, NodeIdRef, Status, Ticks, put_i32, put_node_id_ref, put_u32};
use ua_channel::put_response_header;
use ua_client::{ChunkIds, ClientFault, Line, put_message};
use ua_settings::{Settings, SettingsFault};
use uacp::{Ack, put_ack};

/// What a server takes.
const ACK: Ack = Ack {
    receive_size: 8192,
    send_size: 65536,
};

/// The OPN chunk by which a server answers the first opening.
const OPENED: &[u8] =
    b"OPNF\x87\0\0\0\x01\0\0\0\x2f\0\0\0http://opcfoundation.org/UA/SecurityPolicy#None\xff\xff\xff\xff\xff\xff\xff\xff\x01\0\0\0\x01\0\0\0\x01\0\xc1\x01\x05\0\0\0\0\0\0\0\x01\0\0\0\0\0\0\0\0\xff\xff\xff\xff\0\0\0\0\0\0\0\x01\0\0\0\x01\0\0\0\x05\0\0\0\0\0\0\0\x80\xee\x36\0\xff\xff\xff\xff";

/// Behind the header of a CreateSession response: a session with the token 7.
const MADE: &[u8] =
    b"\0\x06\0\x07\0\0\0\0\0\0\xf0\x3f\xff\xff\xff\xff\xff\xff\xff\xff\0\0\0\0\xff\xff\xff\xff\xff\xff\xff\xff\xff\xff\xff\xff\0\0\0\0";

/// Behind the header of an ActivateSession response.
const ACTIVATED: &[u8] = b"\xff\xff\xff\xff\xff\xff\xff\xff\xff\xff\xff\xff";

/// A response: its type, its status, and what stands behind its header.
type Answer<'a> = (u16, Status, &'a [u8]);

/// Appends a response to the request of this handle, in a chunk of the same number.
fn put_answer(
    alloc: Global,
    out: &mut Vec<u8>,
    handle: u32,
    answer: Answer<'_>,
) -> Result<(), BinaryFault> {
    let (type_id, status, body) = answer;
    if handle < 2 || handle > 1000 {
        return Err(BinaryFault::BadLength);
    }
    let mut message = Vec::new(alloc);
    put_node_id_ref(&mut message, NodeIdRef::Numeric(0, u32::from(type_id)))?;
    put_response_header(Ticks(6), handle, status, &mut message)?;
    message.extend_from_slice(body)?;
    let ids = ChunkIds {
        token: 1,
        request_id: handle,
        number: handle,
    };
    put_message(out, 8192, ids, message.as_slice())?;
    Ok(())
}

/// Behind the header of a HistoryUpdate response: one result with this code.
fn result_of(alloc: Global, code: Status) -> Result<Vec<u8>, BinaryFault> {
    let mut out = Vec::new(alloc);
    put_i32(&mut out, 1)?;
    put_u32(&mut out, 0)?;
    put_i32(&mut out, 1)?;
    put_u32(&mut out, code.0)?;
    put_i32(&mut out, -1)?;
    put_i32(&mut out, -1)?;
    Ok(out)
}

/// What a server sends that lets a client in by this status, answers updates by these codes, and then a close.
fn answers_of(alloc: Global, login: Status, codes: &[Status]) -> Result<Vec<u8>, BinaryFault> {
    let mut out = Vec::new(alloc);
    match put_ack(&mut out, &ACK) {
        Ok(()) => {}
        Err(_) => return Err(BinaryFault::OutOfMemory),
    }
    out.extend_from_slice(OPENED)?;
    put_answer(alloc, &mut out, 2, (464, Status::GOOD, MADE))?;
    put_answer(alloc, &mut out, 3, (470, login, ACTIVATED))?;
    let mut handle = 4u32;
    for code in codes {
        let body = result_of(alloc, *code)?;
        put_answer(
            alloc,
            &mut out,
            handle,
            (703, Status::GOOD, body.as_slice()),
        )?;
        handle = handle.saturating_add(1u32);
    }
    put_answer(alloc, &mut out, handle, (476, Status::GOOD, b""))?;
    Ok(out)
}

/// A run: how the server lets the client in, its codes, the text, how the run ends, and what it tells. Of the counts: all rows,
/// inserted, replaced, exist, refused.
type Run = (
    Status,
    &'static [Status],
    &'static [u8],
    Result<(u64, u64, u64, u64, u64), RemoteFault>,
    &'static str,
);

/// Five rows, of which the second has no time, and the fourth a node that the settings lack: three are sent.
const FIVE: &[u8] = b"node,time,value,status\n\
    ns=1;s=T,2026-03-01T12:00:01Z,5,\n\
    ns=1;s=T,noon,5,\n\
    ns=1;s=S,2026-03-01T12:00:01Z,\"a,b\",80320000\n\
    ns=1;s=X,@5,5,\n\
    ns=1;s=T,2026-03-01T12:00:02.5Z,-6,Good\n";

/// Runs, each into a server of its own.
static RUNS: [Run; 8] = [
    (
        Status::GOOD,
        &[
            Status::GOOD_ENTRY_INSERTED,
            Status::BAD_ENTRY_EXISTS,
            Status::GOOD_ENTRY_REPLACED,
        ],
        FIVE,
        Ok((5, 1, 1, 1, 2)),
        "row 2: time: expected a time, as 2026-03-01T12:00:00.5Z or @134168400000000000\n\
         row 4: 80340000 Bad_NodeIdUnknown\n\
         5 rows: 1 inserted, 1 replaced, 1 exist, 2 refused\n",
    ),
    (
        Status::GOOD,
        &[Status::BAD_USER_ACCESS_DENIED],
        b"node,time,value,status\nns=1;s=T,@5,5,\n",
        Ok((1, 0, 0, 0, 1)),
        "row 1: 801F0000 Bad_UserAccessDenied\n1 row: 1 refused\n",
    ),
    (
        Status::GOOD,
        &[
            Status::BAD_OUT_OF_MEMORY,
            Status::BAD_RESOURCE_UNAVAILABLE,
            Status::BAD_ENCODING_LIMITS_EXCEEDED,
            Status::BAD_TYPE_MISMATCH,
            Status::BAD_NO_ENTRY_EXISTS,
            Status::BAD_SERVICE_UNSUPPORTED,
        ],
        b"node,time,value,status\nns=1;s=T,@1,5,\nns=1;s=T,@2,5,\nns=1;s=T,@3,5,\nns=1;s=T,@4,5,\nns=1;s=T,@5,5,\nns=1;s=T,@6,5,\n",
        Ok((6, 0, 0, 0, 6)),
        "row 1: 80030000 Bad_OutOfMemory\n\
         row 2: 80040000 Bad_ResourceUnavailable\n\
         row 3: 80080000 Bad_EncodingLimitsExceeded\n\
         row 4: 80740000 Bad_TypeMismatch\n\
         row 5: 80A00000 Bad_NoEntryExists\n\
         row 6: 800B0000\n\
         6 rows: 6 refused\n",
    ),
    (
        Status::GOOD,
        &[],
        b"node,time,value,status\n",
        Ok((0, 0, 0, 0, 0)),
        "0 rows\n",
    ),
    (
        Status::GOOD,
        &[],
        b"ns=1;s=T,@5,5,\n",
        Err(RemoteFault::Rows(ImportFault::Header)),
        "",
    ),
    (
        Status::BAD_IDENTITY_TOKEN_REJECTED,
        &[],
        FIVE,
        Err(RemoteFault::Server(ClientFault::Refused(Status::BAD_IDENTITY_TOKEN_REJECTED))),
        "",
    ),
    (
        Status::GOOD,
        &[Status::GOOD_ENTRY_INSERTED],
        FIVE,
        Err(RemoteFault::Server(ClientFault::Format)),
        "row 2: time: expected a time, as 2026-03-01T12:00:00.5Z or @134168400000000000\n",
    ),
    (
        Status::GOOD,
        &[
            Status::GOOD_ENTRY_INSERTED,
            Status::GOOD_ENTRY_INSERTED,
            Status::GOOD_ENTRY_INSERTED,
        ],
        b"node,time,value,status\nns=1;s=T,@5,5,\nns=1;s=T,@6,5,\nns=1;s=T,@7,5,\nns=1;s=T,@8,5,\n",
        Err(RemoteFault::Server(ClientFault::Format)),
        "",
    ),
];

/// The counts of a run that came to its end.
fn counted(counts: Counts) -> (u64, u64, u64, u64, u64) {
    let Counts {
        rows,
        inserted,
        replaced,
        exist,
        refused,
    } = counts;
    (rows, inserted, replaced, exist, refused)
}

/// Whether a run ends and tells what it should.
fn goes_so(alloc: Global, settings: &Settings, run: &Run) -> Result<bool, BinaryFault> {
    let (login, codes, text, end, told) = *run;
    let answers = answers_of(alloc, login, codes)?;
    let mut input = Counted::new(text);
    let mut output = Counted::new(Vec::new(alloc));
    let line = Line::new(
        alloc,
        Counted::new(answers.as_slice()),
        Counted::new(Vec::new(alloc)),
    );
    let asked = by_ann(Perform::Insert);
    let done = import_at(settings, &asked, line, &mut input, &mut output);
    let printed = output.into_inner();
    Ok(done.ended.map(counted) == end && printed.as_slice() == told.as_bytes())
}

/// The first run that goes otherwise.
fn wrong_run(alloc: Global) -> Result<Option<usize>, SettingsFault> {
    let settings = settings_of(alloc)?;
    let mut place = 0;
    for run in &RUNS {
        if goes_so(alloc, &settings, run) != Ok(true) {
            return Ok(Some(place));
        }
        place = place.saturating_add(1usize);
    }
    Ok(None)
}

#[test]
fn rows_are_brought_and_told(rt: HostRuntime) {
    let wrong = wrong_run(rt.alloc());
    assert!(rt; wrong == Ok(None), "{wrong:?}");
}
