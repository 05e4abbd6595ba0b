//! Two machines, each with an archive in memory, what is asked of them and what that leaves. Where memory was wanting a step
//! is made again: behind what changed nothing it comes to what it comes to with ample memory.

use archive::{Archive, Failure, LearnFault, ScriptedArchive, StoreFault};
use exchange::{Batch, ExchangeFault, Replica, converse};
use hist_update::{Request, delete_at, update_data};
use historian::{ClientMessage, Server, answer_message};
use history_rows::exchanges::merge;
use history_rows::updates::{INT32, are_short, code_of, int, is_request, value};
use records::{HistoryUpdateType, Moment, Record, put_record, read_record};
use server_rows::plant::plant_of;
use stamp::{ReplicaNo, Vector};
use std::alloc::Global;
use ua_binary::{Listing, NodeId, NodeIdRef, Status, Text, Ticks};
use ua_session::{SessionFault, Sessions};
use uuid::Uuid;

/// An insert of replica 2 at source time 20: origin, number, tick, and the value.
pub(crate) type Row = (u8, u64, i64, i32);

/// What a message leaves.
#[derive(Clone, Copy, Debug)]
pub(crate) enum Left {
    /// All as it was.
    Same,
    /// So many records more.
    Records(u64),
    /// A session with this token.
    Session(u32),
}

/// What is asked of a machine.
pub(crate) enum Step {
    /// A message at a reading of the clock, in hex digits, its answer, and what it leaves.
    Ask(i64, &'static str, &'static str, Left),
    /// An operation of ann at `ns=1;s=T`: the reading, the number of the update (4 for a delete), the source time, the value and
    /// the code.
    Operate(i64, i32, i64, i32, Status),
    /// A batch of records of replica 2, and what it comes to.
    Merge(&'static [Row], Result<u32, ExchangeFault>),
    /// What the other machine holds beside, which is so many records.
    Pull(u32),
    /// A dialog with the other machine, of so many frames.
    Converse(u32),
    /// The store is read anew.
    Reload,
    /// How many records of replica 1 and of replica 2 are held, and the greatest tick.
    Holds([u64; 2], i64),
    /// The bytes of the first record of all, in hex digits.
    First(&'static str),
}

/// A machine between two requests of one client.
#[derive(Drop)]
struct Machine<A> {
    server: Server<A>,
    sessions: Sessions,
}

/// An archive that holds nothing, and whose store refuses its `call`-th call for want of memory.
pub(crate) fn archive_of(alloc: Global, number: u8, call: u64) -> Option<ScriptedArchive> {
    let number = ReplicaNo::new(number)?;
    Some(ScriptedArchive::new(alloc, Uuid::nil(), number, call, Failure::OutOfMemory))
}

/// The machine of this number over an archive.
fn machine_over<A: Archive + Drop>(alloc: Global, number: u8, archive: A) -> Option<Machine<A>> {
    let settings = plant_of(alloc, number)?;
    Some(Machine {
        server: Server::new(alloc, settings, archive),
        sessions: Sessions::new(alloc),
    })
}

/// The vector of what a replica holds, asked for again where memory was wanting.
fn vector<A: Archive>(replica: &mut Replica<A>) -> Option<Vector> {
    match replica.archive.vector() {
        Ok(vector) => Some(vector),
        Err(_) => replica.archive.vector().ok(),
    }
}

/// The greatest tick that a replica holds.
fn top<A: Archive>(replica: &mut Replica<A>) -> Option<i64> {
    match replica.archive.top() {
        Ok(top) => Some(top),
        Err(_) => replica.archive.top().ok(),
    }
}

/// How many records of replica 1 and of replica 2 are held, and the greatest tick.
pub(crate) fn held<A: Archive>(replica: &mut Replica<A>) -> Option<([u64; 2], i64)> {
    let vector = vector(replica)?;
    let (one, two) = (ReplicaNo::new(1)?, ReplicaNo::new(2)?);
    Some(([vector.get(one), vector.get(two)], top(replica)?))
}

/// How many records of its own a replica holds.
fn own<A: Archive>(replica: &mut Replica<A>) -> Option<u64> {
    let number = replica.archive.number();
    let vector = vector(replica)?;
    Some(vector.get(number))
}

// ---- messages

/// What a message is answered; nothing where there was no memory for it.
fn told<A: Archive>(
    alloc: Global,
    machine: &mut Machine<A>,
    now: i64,
    message: &[u8],
) -> Option<Vec<u8>> {
    let mut body = Vec::new(alloc);
    let answered = answer_message(
        &mut machine.server,
        &mut machine.sessions,
        Ticks(now),
        ClientMessage::read(message),
        &mut body,
    );
    answered.is_ok().then_some(body)
}

/// Whether want of memory is told somewhere in these bytes.
fn is_want_told(bytes: &[u8]) -> bool {
    for at in 0..bytes.len() {
        if bytes[at..].starts_with(&[0, 0, 3, 0x80]) {
            return true;
        }
    }
    false
}

/// How an answer is.
#[derive(Clone, Copy, Debug, PartialEq, Eq)]
enum Telling {
    /// As it is with ample memory.
    Wanted,
    /// Want of memory is told, or there was none for it.
    Starved,
    /// Anything else.
    Other,
}

/// How a message is answered.
fn judged<A: Archive>(
    alloc: Global,
    machine: &mut Machine<A>,
    now: i64,
    message: &[u8],
    want: &[u8],
) -> Telling {
    let Some(body) = told(alloc, machine, now, message) else {
        return Telling::Starved;
    };
    if body.as_slice() == want {
        Telling::Wanted
    } else if is_want_told(body.as_slice()) {
        Telling::Starved
    } else {
        Telling::Other
    }
}

/// Whether a session that is to be left is there.
fn is_made(sessions: &Sessions, left: Left) -> bool {
    match left {
        Left::Session(token) => {
            sessions.user_of(NodeIdRef::Numeric(1, token)) != Err(SessionFault::IdInvalid)
        }
        _ => true,
    }
}

/// How many records are held behind so many before.
fn count_left(before: Option<u64>, left: Left) -> Option<u64> {
    match left {
        Left::Records(more) => before.map(|number| number.saturating_add(more)),
        _ => before,
    }
}

/// Whether that is left where so many records were held before.
fn is_left<A: Archive>(machine: &mut Machine<A>, before: Option<u64>, left: Left) -> bool {
    is_made(&machine.sessions, left) && own(&mut machine.server.replica) == count_left(before, left)
}

/// Whether a message leaves something that wasn't there.
fn changes(left: Left) -> bool {
    match left {
        Left::Same => false,
        _ => true,
    }
}

/// A message is answered so and leaves that. Where want of memory is told it may have been done, and only its answer is wanting;
/// else the same message is answered so where nothing was changed, and behind a part of it does the rest.
fn is_asked<A: Archive>(
    alloc: Global,
    machine: &mut Machine<A>,
    now: i64,
    message: &[u8],
    want: &[u8],
    left: Left,
) -> bool {
    let before = own(&mut machine.server.replica);
    match judged(alloc, machine, now, message, want) {
        Telling::Wanted => return is_left(machine, before, left),
        Telling::Starved => {}
        Telling::Other => return false,
    }
    if changes(left) && is_left(machine, before, left) {
        return true;
    }
    let unchanged = own(&mut machine.server.replica) == before;
    let second = judged(alloc, machine, now, message, want) == Telling::Wanted;
    (second || (changes(left) && !unchanged)) && is_left(machine, before, left)
}

// ---- updates

/// The number of an update (4 for a delete), the source time and the value.
type Operation = (i32, i64, i32);

fn request(alloc: Global, reading: i64) -> Option<Request> {
    let node = NodeId::Named(1, Text::from_str(alloc, "T").ok()?);
    let user = Text::from_str(alloc, "ann").ok()?;
    Some(Request {
        node,
        user,
        reading,
    })
}

/// Updates one value; nothing where there was no memory for it.
fn update<A: Archive>(
    alloc: Global,
    archive: &mut A,
    request: &Request,
    perform: i32,
    time: i64,
    written: i32,
) -> Option<Status> {
    let values = [value(int(written), Some(time))];
    if !is_request(request) || !are_short(&values) {
        return None;
    }
    Some(code_of(&update_data(alloc, archive, request, INT32, perform, &values)))
}

/// Deletes what there is at a time.
fn delete<A: Archive>(
    alloc: Global,
    archive: &mut A,
    request: &Request,
    time: i64,
) -> Option<Status> {
    if !is_request(request) {
        return None;
    }
    Some(code_of(&delete_at(alloc, archive, request, &[Ticks(time)])))
}

fn operate<A: Archive>(
    alloc: Global,
    replica: &mut Replica<A>,
    request: &Request,
    operation: Operation,
) -> Option<Status> {
    let (perform, time, written) = operation;
    if perform == 4 {
        delete(alloc, &mut replica.archive, request, time)
    } else {
        update(alloc, &mut replica.archive, request, perform, time, written)
    }
}

/// An operation has this code; where it was told want of memory nothing was changed, and then it has this code.
fn is_operated<A: Archive>(
    alloc: Global,
    replica: &mut Replica<A>,
    request: &Request,
    operation: Operation,
    code: Status,
) -> bool {
    let before = held(replica);
    let first = operate(alloc, replica, request, operation);
    if first == Some(code) {
        return true;
    }
    first == Some(Status::BAD_OUT_OF_MEMORY)
        && held(replica) == before
        && operate(alloc, replica, request, operation) == Some(code)
}

// ---- exchange

fn insert_of(alloc: Global, row: &Row) -> Option<Record> {
    let (origin, number, tick, written) = *row;
    let origin = ReplicaNo::new(origin)?;
    let node = NodeId::Named(1, Text::from_str(alloc, "T").ok()?);
    let user = Text::from_str(alloc, "ann").ok()?;
    Some(Record {
        origin,
        number,
        tick,
        node,
        time: Moment::at(20),
        asked: HistoryUpdateType::Insert,
        user,
        value: value(int(written), None),
    })
}

fn batch_of(alloc: Global, rows: &[Row]) -> Option<Batch> {
    let mut records = Vec::new(alloc);
    for row in rows {
        records.push(insert_of(alloc, row)?).ok()?;
    }
    Some(Batch {
        records: Listing::of(records),
    })
}

/// Whether a fault tells want of memory.
fn is_want(fault: ExchangeFault) -> bool {
    match fault {
        ExchangeFault::OutOfMemory => true,
        ExchangeFault::Store(cause) => cause == StoreFault::OutOfMemory,
        ExchangeFault::Learn { cause, .. } => cause == LearnFault::Store(StoreFault::OutOfMemory),
        _ => false,
    }
}

fn is_wanting(told: Result<u32, ExchangeFault>) -> bool {
    match told {
        Ok(_) => false,
        Err(fault) => is_want(fault),
    }
}

/// A batch comes to this; where memory was wanting it does so then, in case nothing was learned of it, and else to what is left.
fn is_merged<A: Archive>(
    replica: &mut Replica<A>,
    batch: &Batch,
    want: Result<u32, ExchangeFault>,
) -> bool {
    let before = held(replica);
    let first = merge(replica, batch);
    if first == want {
        return true;
    }
    if !is_wanting(first) {
        return false;
    }
    let unchanged = held(replica) == before;
    let second = merge(replica, batch);
    second == want || (!unchanged && second.is_ok() && want.is_ok())
}

/// What the other replica holds beside these, asked for again where memory was wanting.
fn answer<A: Archive>(alloc: Global, there: &mut Replica<A>, theirs: &Vector) -> Option<Batch> {
    let before = held(there);
    match there.answer(alloc, theirs) {
        Ok(batch) => Some(batch),
        Err(fault) if is_want(fault) && held(there) == before => there.answer(alloc, theirs).ok(),
        Err(_) => None,
    }
}

fn is_pulled<A: Archive>(
    alloc: Global,
    here: &mut Replica<A>,
    there: &mut Replica<A>,
    count: u32,
) -> bool {
    let Some(theirs) = vector(here) else {
        return false;
    };
    match answer(alloc, there, &theirs) {
        Some(batch) => is_merged(here, &batch, Ok(count)),
        None => false,
    }
}

/// A dialog has so many frames; where memory was wanting it has them then, in case neither end learned anything.
fn is_conversed<A: Archive>(
    alloc: Global,
    here: &mut Replica<A>,
    there: &mut Replica<A>,
    frames: u32,
) -> bool {
    let before = (held(here), held(there));
    let first = converse(alloc, here, there);
    if first == Ok(frames) {
        return true;
    }
    if !is_wanting(first) {
        return false;
    }
    let unchanged = (held(here), held(there)) == before;
    let second = converse(alloc, here, there);
    second == Ok(frames) || (!unchanged && second.is_ok())
}

// ---- what is held

fn is_reloaded<A: Archive>(replica: &mut Replica<A>) -> bool {
    let before = held(replica);
    (replica.archive.reload().is_ok() || replica.archive.reload().is_ok())
        && held(replica) == before
}

/// The first record of all, asked for again where memory was wanting.
fn first_record<A: Archive>(alloc: Global, archive: &mut A) -> Option<Record> {
    let none = Vector::new();
    let mut records = match archive.since(alloc, &none, 1) {
        Ok(records) => records,
        Err(StoreFault::OutOfMemory) => archive.since(alloc, &none, 1).ok()?,
        Err(_) => return None,
    };
    records.pop()
}

/// Whether something was found, which is this.
fn is_found<T: PartialEq + Drop>(found: Option<T>, wanted: &T) -> bool {
    match found {
        Some(found) => found == *wanted,
        None => false,
    }
}

/// Whether the record in these bytes is written so; where memory was wanting what was written
/// before stands. Nothing where there was no memory to read it.
fn is_written(alloc: Global, bytes: &[u8]) -> Option<bool> {
    let Ok(record) = read_record(alloc, bytes) else {
        return None;
    };
    let mut out = Vec::new(alloc);
    let written = put_record(&mut out, &record).is_ok()
        || (out.is_empty() && put_record(&mut out, &record).is_ok());
    Some(written && out.as_slice() == bytes)
}

/// Whether the record in these bytes is the first of all; nothing where there was no memory to read
/// it.
fn is_first<A: Archive>(alloc: Global, archive: &mut A, bytes: &[u8]) -> Option<bool> {
    match read_record(alloc, bytes) {
        Ok(wanted) => Some(is_found(first_record(alloc, archive), &wanted)),
        Err(_) => None,
    }
}

// ---- scripts

/// A message in hex digits is answered so and leaves that.
fn is_asked_in_hex<A: Archive>(
    alloc: Global,
    machine: &mut Machine<A>,
    now: i64,
    digits: (&str, &str),
    left: Left,
) -> Option<bool> {
    let message = hex::decode(alloc, digits.0.as_bytes()).ok()?;
    let want = hex::decode(alloc, digits.1.as_bytes()).ok()?;
    Some(is_asked(
        alloc,
        machine,
        now,
        message.as_slice(),
        want.as_slice(),
        left,
    ))
}

/// An operation of ann at a reading has this code.
fn is_operated_at<A: Archive>(
    alloc: Global,
    replica: &mut Replica<A>,
    reading: i64,
    operation: Operation,
    code: Status,
) -> Option<bool> {
    let request = request(alloc, reading)?;
    Some(is_operated(alloc, replica, &request, operation, code))
}

/// A batch of these records comes to this.
fn are_merged<A: Archive>(
    alloc: Global,
    replica: &mut Replica<A>,
    rows: &[Row],
    want: Result<u32, ExchangeFault>,
) -> Option<bool> {
    let batch = batch_of(alloc, rows)?;
    Some(is_merged(replica, &batch, want))
}

/// The record in these hex digits is written so, and is the first of all.
fn is_first_in_hex<A: Archive>(
    alloc: Global,
    replica: &mut Replica<A>,
    digits: &str,
) -> Option<bool> {
    let bytes = hex::decode(alloc, digits.as_bytes()).ok()?;
    let written = is_written(alloc, bytes.as_slice())?;
    Some(is_first(alloc, &mut replica.archive, bytes.as_slice())? && written)
}

fn is_taken<A: Archive>(
    alloc: Global,
    here: &mut Machine<A>,
    there: &mut Machine<A>,
    step: &Step,
) -> Option<bool> {
    let replica = &mut here.server.replica;
    match step {
        Step::Ask(now, message, want, left) => {
            is_asked_in_hex(alloc, here, *now, (*message, *want), *left)
        }
        Step::Operate(reading, perform, time, written, code) => {
            is_operated_at(alloc, replica, *reading, (*perform, *time, *written), *code)
        }
        Step::Merge(rows, want) => are_merged(alloc, replica, rows, *want),
        Step::Pull(count) => { Some(is_pulled(alloc, replica, &mut there.server.replica, *count)) }
        Step::Converse(frames) => {
            Some(is_conversed(alloc, replica, &mut there.server.replica, *frames))
        }
        Step::Reload => Some(is_reloaded(replica)),
        Step::Holds(numbers, tick) => Some(held(replica) == Some((*numbers, *tick))),
        Step::First(digits) => is_first_in_hex(alloc, replica, digits),
    }
}

fn are_taken<A: Archive>(
    alloc: Global,
    here: &mut Machine<A>,
    there: &mut Machine<A>,
    steps: &[Step],
) -> Option<bool> {
    for step in steps {
        if !is_taken(alloc, here, there, step)? {
            return Some(false);
        }
    }
    Some(true)
}

/// Whether each step of a script comes to what it says, at these machines.
fn are_played<A: Archive>(
    alloc: Global,
    one: &mut Machine<A>,
    two: &mut Machine<A>,
    script: &[(u8, &[Step])],
) -> Option<bool> {
    for (at, steps) in script {
        let same = if *at == 1 {
            are_taken(alloc, one, two, steps)?
        } else {
            are_taken(alloc, two, one, steps)?
        };
        if !same {
            return Some(false);
        }
    }
    Some(true)
}

/// The same, besides how many calls of their stores were refused.
fn are_played_to_the_end<A: Archive>(
    alloc: Global,
    one: &mut Machine<A>,
    two: &mut Machine<A>,
    script: &[(u8, &[Step])],
) -> Option<(bool, u64)> {
    if !are_played(alloc, one, two, script)? {
        return Some((false, 0));
    }
    let faults = one.server.replica.archive.faults();
    Some((
        true,
        faults.saturating_add(two.server.replica.archive.faults()),
    ))
}

/// The same at a machine over each of two archives.
fn is_script_over<A: Archive + Drop>(
    alloc: Global,
    one: A,
    two: A,
    script: &[(u8, &[Step])],
) -> Option<(bool, u64)> {
    let mut one = machine_over(alloc, 1, one)?;
    let mut two = machine_over(alloc, 2, two)?;
    are_played_to_the_end(alloc, &mut one, &mut two, script)
}

/// Whether each step of a script comes to what it says, at two machines that hold nothing, where
/// the `call`-th call of a machine's store is refused. Besides how many were.
pub(crate) fn is_script(
    alloc: Global,
    script: &[(u8, &[Step])],
    calls: (u64, u64),
) -> Option<(bool, u64)> {
    let one = archive_of(alloc, 1, calls.0)?;
    let two = archive_of(alloc, 2, calls.1)?;
    is_script_over(alloc, one, two, script)
}
