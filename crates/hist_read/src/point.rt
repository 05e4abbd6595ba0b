//! Continuation points (Part 4, 7.9): what was asked, and the place where a page ended. Nothing is kept
//! on the server.

ghost use Rattle.std.specs.Prelude.{◌≡◌, ◌⊎◌, ◌↔◌, IsTrue, IfOk, IfSome, length, pos, ◌≤ℤ◌, option_map, Ok, Err, if◌then◌else◌};
ghost use Rattle.hist_read.specs.Asking.{first_time};
ghost use Rattle.ua_binary.specs.Format.{block, canonical, raised, Reads, Puts, PutsPart};
ghost use Rattle.ua_binary.specs.Binary.{boolean, node_of, IsNodeId};
ghost use Rattle.ua_binary.specs.declared.fault.BinaryFault.TheVariants as fault;
ghost use Rattle.hist_read.specs.Point.{suits, phase, point_time, stamp, details, position, IsStamp, IsPosition, IsPoint, point_of, point_in, point};
ghost use Rattle.hist_read.specs.PointReading.{short_form, short_node, short_point, is_phase_for, is_stamp_for, is_given_for, are_stamp, stamp_of, number_of_phase};
ghost use Rattle.stamp.specs.Numbers.{IsVector};
ghost use Rattle.stamp.specs.Vector.{vector};

use records::Moment;
use stamp::{GREATEST_TICK, ReplicaNo, Stamp, Vector};
use ua_binary::{
    BinaryFault, Cursor, NodeIdRef, Ticks, or_undone, put_block, put_boolean, put_i64,
    put_node_id_ref, put_ticks, put_u8, put_u16, put_u32,
};
use ua_services::ReadRawModifiedDetails;
use uuid::Uuid;

/// What the last item of a page was.
#[derive(Clone, Copy, Debug, PartialEq, Eq)]
pub enum Phase {
    /// The near bound.
    Near,
    /// An item behind it.
    Body,
}

/// Where a page ended.
#[derive(Clone, Copy, Debug, PartialEq, Eq)]
pub struct Position {
    pub phase: Phase,
    /// The moment of the last item, of a time of at least 1.
    pub time: Moment,
    /// Of a modification the stamp of its record, of a raw value none.
    pub stamp: Option<Stamp>,
    /// How many items were given so far, in case a time is open; else 0.
    pub given: u32,
}

/// A continuation point, in the bytes that it was read from.
#[derive(Clone, Copy, Debug, Drop)]
pub struct PagePoint<'a> {
    /// The archive's id.
    pub archive: Uuid,
    pub node: NodeIdRef<'a>,
    /// As the request had them.
    pub details: ReadRawModifiedDetails,
    pub position: Position,
    /// The vector of the first page: later pages are of what it covers.
    pub vector: Vector,
}

/// A Boolean whose byte is 0 or 1.
#[tactic(auto, using(crate::proofs::Tight::boolean_read))]
fn read_flag(cursor: &mut Cursor<'_>) -> Result<bool, BinaryFault>
    ensures { Reads (λ v. v) result cursor.old cursor.new
        (canonical fault.BadEncodingByte boolean).read }
{
    let mut next = cursor.fork();
    let byte = next.u8()?;
    if byte > 1 {
        return Err(BinaryFault::BadEncodingByte);
    }
    *cursor = next;
    Ok(byte == 1)
}

/// A numeric node id behind its first byte, 1 or 2, where that is the shortest form.
fn read_numeric<'a>(cursor: &mut Cursor<'a>, form: u8) -> Result<NodeIdRef<'a>, BinaryFault>
    requires { (form ≡ 1) ⊎ (form ≡ 2) }
    ensures { Reads node_of result cursor.old cursor.new (short_form form).read }
{
    let mut next = cursor.fork();
    let (namespace, id) = if form == 1 {
        let namespace = next.u8()? as u16;
        (namespace, next.u16()? as u32)
    } else {
        let namespace = next.u16()?;
        (namespace, next.u32()?)
    };
    let is_short = if form == 1 {
        namespace > 0 || id > 255
    } else {
        namespace > 255 || id > 65535
    };
    if !is_short {
        return Err(BinaryFault::BadEncodingByte);
    }
    *cursor = next;
    Ok(NodeIdRef::Numeric(namespace, id))
}

/// A text id of a node behind its first byte, where it isn't null.
fn read_named<'a>(cursor: &mut Cursor<'a>) -> Result<NodeIdRef<'a>, BinaryFault>
    ensures { Reads node_of result cursor.old cursor.new (short_form 3).read }
{
    let mut next = cursor.fork();
    let namespace = next.u16()?;
    let Some(name) = next.text()? else {
        return Err(BinaryFault::BadLength);
    };
    *cursor = next;
    Ok(NodeIdRef::Named(namespace, name))
}

/// A byte id of a node behind its first byte, where it isn't null.
fn read_opaque<'a>(cursor: &mut Cursor<'a>) -> Result<NodeIdRef<'a>, BinaryFault>
    ensures { Reads node_of result cursor.old cursor.new (short_form 5).read }
{
    let mut next = cursor.fork();
    let namespace = next.u16()?;
    let Some(id) = next.bytes()? else {
        return Err(BinaryFault::BadLength);
    };
    *cursor = next;
    Ok(NodeIdRef::Opaque(namespace, id))
}

/// A node id in its shortest form, whose text or byte id isn't null.
#[tactic(auto, unfolding(crate::specs::PointReading::short_node))]
fn read_node<'a>(cursor: &mut Cursor<'a>) -> Result<NodeIdRef<'a>, BinaryFault>
    ensures { Reads node_of result cursor.old cursor.new short_node.read }
{
    let mut next = cursor.fork();
    let form = next.u8()?;
    let node = match form {
        0 => NodeIdRef::Numeric(0, next.u8()? as u32),
        1 | 2 => read_numeric(&mut next, form)?,
        3 => read_named(&mut next)?,
        4 => {
            let namespace = next.u16()?;
            NodeIdRef::Global(namespace, next.guid()?)
        }
        5 => read_opaque(&mut next)?,
        _ => return Err(BinaryFault::BadEncodingByte),
    };
    *cursor = next;
    Ok(node)
}

/// What was asked.
#[tactic(auto, unfolding(crate::specs::Point::details))]
fn read_details(cursor: &mut Cursor<'_>) -> Result<ReadRawModifiedDetails, BinaryFault>
    ensures { Reads (λ v. v) result cursor.old cursor.new details.read }
{
    let mut next = cursor.fork();
    let is_read_modified = read_flag(&mut next)?;
    let start_time = next.ticks()?;
    let end_time = next.ticks()?;
    let num_values_per_node = next.u32()?;
    let return_bounds = read_flag(&mut next)?;
    *cursor = next;
    Ok(ReadRawModifiedDetails {
        is_read_modified,
        start_time,
        end_time,
        num_values_per_node,
        return_bounds,
    })
}

#[tactic(auto, unfolding(crate::specs::Point::phase))]
fn read_phase(cursor: &mut Cursor<'_>) -> Result<Phase, BinaryFault>
    ensures { Reads (λ v. v) result cursor.old cursor.new phase.read }
{
    let mut next = cursor.fork();
    let phase = match next.u8()? {
        1 => Phase::Near,
        2 => Phase::Body,
        _ => return Err(BinaryFault::BadEncodingByte),
    };
    *cursor = next;
    Ok(phase)
}

#[tactic(auto, unfolding(crate::specs::Point::point_time))]
fn read_time(cursor: &mut Cursor<'_>) -> Result<Moment, BinaryFault>
    ensures reads { Reads (λ v. v) result cursor.old cursor.new point_time.read }
    ensures late { IfOk result (λ v. first_time ≤ℤ v) }
{
    let mut next = cursor.fork();
    let ticks = next.i64()?;
    if ticks < 1 {
        return Err(BinaryFault::BadEncodingByte);
    }
    let pico = next.u16()?;
    if pico > 9999 {
        return Err(BinaryFault::BadEncodingByte);
    }
    *cursor = next;
    Ok(Moment { ticks, pico })
}

/// The stamp of these parts: none of zeros, and else what a record may have.
fn stamp_of(tick: i64, origin: u8) -> Result<Option<Stamp>, BinaryFault>
    ensures { result
        ≡ (if are_stamp (tick, origin) then Ok (stamp_of (tick, origin))
        else Err fault.BadEncodingByte) }
{
    if origin == 0 && tick == 0 {
        return Ok(None);
    }
    let Some(origin) = ReplicaNo::new(origin) else {
        return Err(BinaryFault::BadEncodingByte);
    };
    if tick < 1 || tick > GREATEST_TICK {
        return Err(BinaryFault::BadEncodingByte);
    }
    Ok(Some(Stamp { tick, origin }))
}

#[tactic(auto, unfolding(crate::specs::Point::stamp))]
fn read_stamp(cursor: &mut Cursor<'_>) -> Result<Option<Stamp>, BinaryFault>
    ensures { Reads (λ v. v) result cursor.old cursor.new stamp.read }
{
    let mut next = cursor.fork();
    let tick = next.i64()?;
    let origin = next.u8()?;
    let stamp = stamp_of(tick, origin)?;
    *cursor = next;
    Ok(stamp)
}

/// Where the page ended.
#[tactic(auto, unfolding(crate::specs::Point::position))]
fn read_position(cursor: &mut Cursor<'_>) -> Result<Position, BinaryFault>
    ensures reads { Reads (λ v. v) result cursor.old cursor.new position.read }
    ensures late { IfOk result (λ v. first_time ≤ℤ v.time) }
{
    let mut next = cursor.fork();
    let phase = read_phase(&mut next)?;
    let time = read_time(&mut next)?;
    let stamp = read_stamp(&mut next)?;
    let given = next.u32()?;
    *cursor = next;
    Ok(Position {
        phase,
        time,
        stamp,
        given,
    })
}

/// Whether a page of what was asked may have ended in this phase.
fn is_phase_for(details: &ReadRawModifiedDetails, phase: Phase) -> bool
    ensures { result ≡ is_phase_for details.now phase }
{
    match phase {
        Phase::Near => details.return_bounds && !details.is_read_modified,
        Phase::Body => true,
    }
}

/// Whether a stamp is there just where modifications were asked for.
fn is_stamp_for(details: &ReadRawModifiedDetails, stamp: Option<Stamp>) -> bool
    ensures { result ≡ is_stamp_for details.now stamp }
{
    match stamp {
        None => !details.is_read_modified,
        Some(_) => details.is_read_modified,
    }
}

/// Whether so many items may have been given of what was asked.
fn is_given_for(details: &ReadRawModifiedDetails, given: u32) -> bool
    ensures { result ≡ is_given_for details.now given }
{
    if details.start_time.0 >= 1 && details.end_time.0 >= 1 {
        return given == 0;
    }
    0 < given && given < details.num_values_per_node
}

/// Whether a position is one of a page of what was asked.
fn suits(details: &ReadRawModifiedDetails, position: &Position) -> bool
    ensures { result ≡ suits details.now position.now }
{
    is_phase_for(details, position.phase)
        && is_stamp_for(details, position.stamp)
        && is_given_for(details, position.given)
}

/// Whether a node's id has a spelling.
#[tactic(auto, using(ua_binary::proofs::Utf8::tested))]
fn is_spelled(node: NodeIdRef<'_>) -> bool
    ensures { IsTrue result ↔ IsNodeId (node_of node.entry) }
{
    match node {
        NodeIdRef::Numeric(..) => true,
        NodeIdRef::Named(_, name) => name.as_bytes().len() < 0x8000_0000,
        NodeIdRef::Global(..) => true,
        NodeIdRef::Opaque(_, id) => id.len() < 0x8000_0000,
    }
}

/// Whether a stamp's tick is within its limits.
fn is_stamp(stamp: Option<Stamp>) -> bool
    ensures { IsTrue result ↔ IsStamp stamp }
{
    match stamp {
        None => true,
        Some(stamp) => 1 <= stamp.tick && stamp.tick <= GREATEST_TICK,
    }
}

/// Whether a position's numbers are within their limits.
fn is_position(position: &Position) -> bool
    ensures judged { IsTrue result ↔ IsPosition position.now }
    ensures next { first_time ≤ℤ position.now.time → IsStamp position.now.stamp → IsTrue result }
{
    let (_ticks, _given) = (position.time.ticks(), position.given);
    Moment::at(1) <= position.time && is_stamp(position.stamp)
}

/// How many bytes an id has: 16.
fn id_length(id: &[u8; 16]) -> usize
    ensures bytes { result ≡ length id.now }
    ensures all { result ≡ 16 }
{
    id.len()
}

/// The number of replica 1. A vector has a number for each replica.
pub(crate) fn first_number(vector: &Vector) -> u64
    ensures { IsVector vector.now }
{
    match ReplicaNo::new(1) {
        Some(first) => vector.get(first),
        None => 0,
    }
}

impl PagePoint<'_> {
    ghost use Rattle.std.specs.Prelude.{IsTrue, ◌↔◌};
    ghost use Rattle.ua_binary.specs.Binary.{node_of, IsNodeId};
    ghost use Rattle.hist_read.specs.Point.{IsPoint, IsNext, point_of};

    /// Whether it can be written and read again: its numbers are within their limits, its stamp is there
    /// just where modifications were asked for, its phase is the near bound's only where raw values were
    /// asked for with bounds, and its count of items is 0 where both times are given, else at least 1 and
    /// below the count.
    pub fn is_well_formed(&self) -> bool
        ensures judged { IsTrue result ↔ IsPoint (point_of self.now) }
        ensures next { IsNodeId (node_of self.now.node) → IsNext self.now.details self.now.position
            → IsTrue result }
    {
        let PagePoint { details, .. } = self;
        let ReadRawModifiedDetails {
            start_time: Ticks(start),
            end_time: Ticks(end),
            num_values_per_node,
            ..
        } = details;
        let _numbers = (*start, *end, *num_values_per_node);
        let _first = first_number(&self.vector);
        if id_length(self.archive.as_bytes()) != 16 {
            return false;
        }
        if !is_spelled(self.node) {
            return false;
        }
        if !is_position(&self.position) {
            return false;
        }
        suits(&self.details, &self.position)
    }
}

/// Reads a continuation point's fields, in front of whatever follows.
#[tactic(auto, unfolding(crate::specs::PointReading::short_point))]
fn read_place<'a>(cursor: &mut Cursor<'a>) -> Result<PagePoint<'a>, BinaryFault>
    ensures reads { Reads point_of result cursor.old cursor.new short_point.read }
    ensures late { IfOk result (λ v. first_time ≤ℤ v.position.time) }
{
    let mut next = cursor.fork();
    if next.u8()? != 3 {
        return Err(BinaryFault::BadEncodingByte);
    }
    let archive = read_archive(&mut next)?;
    let node = read_node(&mut next)?;
    let details = read_details(&mut next)?;
    let position = read_position(&mut next)?;
    let vector = read_vector(&mut next)?;
    if !suits(&details, &position) {
        return Err(BinaryFault::BadEncodingByte);
    }
    *cursor = next;
    Ok(PagePoint {
        archive,
        node,
        details,
        position,
        vector,
    })
}

/// The vector of the first page.
fn read_vector(cursor: &mut Cursor<'_>) -> Result<Vector, BinaryFault>
    ensures { Reads (λ v. v) result cursor.old cursor.new
        (raised (λ _. fault.BadEncodingByte) vector).read }
{
    match Vector::read(cursor) {
        Ok(vector) => Ok(vector),
        Err(_) => Err(BinaryFault::BadEncodingByte),
    }
}

/// An archive's id.
fn read_archive(cursor: &mut Cursor<'_>) -> Result<Uuid, BinaryFault>
    ensures { Reads (λ v. v) result cursor.old cursor.new (block 16).read }
{
    let mut next = cursor.fork();
    let Ok(archive) = Uuid::from_slice(next.block(16)?) else {
        return Err(BinaryFault::Short);
    };
    *cursor = next;
    Ok(archive)
}

/// The continuation point that all of the bytes spell, format 3; `None` where they spell none. It takes
/// no memory: the node stays in the bytes, and the vector is held inline.
pub fn read_continuation(bytes: &[u8]) -> Option<PagePoint<'_>>
    ensures told { option_map point_of result ≡ point_in bytes.now }
    ensures late { IfSome result (λ p. first_time ≤ℤ p.position.time) }
{
    let mut cursor = Cursor::new(bytes);
    let Ok(place) = read_place(&mut cursor) else {
        return None;
    };
    if !cursor.rest().is_empty() {
        return None;
    }
    Some(place)
}

#[tactic(auto, using(ua_binary::proofs::Kept::kept), unfolding(crate::specs::Point::details, ua_binary::specs::Binary::boolean))]
fn put_details_parts(out: &mut Vec<u8>, v: &ReadRawModifiedDetails) -> Result<(), BinaryFault>
    ensures { PutsPart fault.OutOfMemory result out.old.items out.new.items (details.canon v.now) }
{
    put_boolean(out, v.is_read_modified)?;
    put_ticks(out, v.start_time)?;
    put_ticks(out, v.end_time)?;
    put_u32(out, v.num_values_per_node)?;
    put_boolean(out, v.return_bounds)?;
    Ok(())
}

fn put_details(out: &mut Vec<u8>, v: &ReadRawModifiedDetails) -> Result<(), BinaryFault>
    ensures { Puts fault.OutOfMemory result out.old.items out.new.items (details.canon v.now) }
{
    let len = out.len();
    let put = put_details_parts(out, v);
    or_undone(put, out, len)
}

/// A phase's number.
fn number_of_phase(phase: Phase) -> u8
    ensures { result ≡ number_of_phase phase }
{
    match phase {
        Phase::Near => 1,
        Phase::Body => 2,
    }
}

#[tactic(auto, using(ua_binary::proofs::Kept::kept), unfolding(crate::specs::Point::stamp))]
fn put_stamp_parts(out: &mut Vec<u8>, v: Option<Stamp>) -> Result<(), BinaryFault>
    ensures { PutsPart fault.OutOfMemory result out.old.items out.new.items (stamp.canon v) }
{
    let (tick, origin) = match v {
        None => (0, 0),
        Some(stamp) => (stamp.tick, stamp.origin.get()),
    };
    put_i64(out, tick)?;
    put_u8(out, origin)?;
    Ok(())
}

fn put_stamp(out: &mut Vec<u8>, v: Option<Stamp>) -> Result<(), BinaryFault>
    ensures { Puts fault.OutOfMemory result out.old.items out.new.items (stamp.canon v) }
{
    let len = out.len();
    let put = put_stamp_parts(out, v);
    or_undone(put, out, len)
}

#[tactic(auto, using(ua_binary::proofs::Kept::kept), unfolding(crate::specs::Point::point_time))]
fn put_time_parts(out: &mut Vec<u8>, v: Moment) -> Result<(), BinaryFault>
    ensures { PutsPart fault.OutOfMemory result out.old.items out.new.items (point_time.canon v) }
{
    put_i64(out, v.ticks())?;
    put_u16(out, v.pico())
}

fn put_time(out: &mut Vec<u8>, v: Moment) -> Result<(), BinaryFault>
    ensures { Puts fault.OutOfMemory result out.old.items out.new.items (point_time.canon v) }
{
    let len = out.len();
    let put = put_time_parts(out, v);
    or_undone(put, out, len)
}

#[tactic(auto, using(ua_binary::proofs::Kept::kept), unfolding(crate::specs::Point::position, crate::specs::Point::phase))]
fn put_position_parts(out: &mut Vec<u8>, v: &Position) -> Result<(), BinaryFault>
    ensures { PutsPart fault.OutOfMemory result out.old.items out.new.items (position.canon v.now) }
{
    put_u8(out, number_of_phase(v.phase))?;
    put_time(out, v.time)?;
    put_stamp(out, v.stamp)?;
    put_u32(out, v.given)?;
    Ok(())
}

fn put_position(out: &mut Vec<u8>, v: &Position) -> Result<(), BinaryFault>
    ensures { Puts fault.OutOfMemory result out.old.items out.new.items (position.canon v.now) }
{
    let len = out.len();
    let put = put_position_parts(out, v);
    or_undone(put, out, len)
}

/// The vector of the first page.
fn put_vector(out: &mut Vec<u8>, v: &Vector) -> Result<(), BinaryFault>
    ensures { Puts fault.OutOfMemory result out.old.items out.new.items (vector.canon v.now) }
{
    match v.put(out) {
        Ok(()) => Ok(()),
        Err(_) => Err(BinaryFault::OutOfMemory),
    }
}

#[tactic(auto, using(ua_binary::proofs::Kept::kept, crate::proofs::Lawful::written), unfolding(crate::specs::Point::point))]
fn put_place_parts(out: &mut Vec<u8>, v: &PagePoint<'_>) -> Result<(), BinaryFault>
    requires { IsPoint (point_of v.now) }
    ensures { PutsPart fault.OutOfMemory result out.old.items out.new.items
        (point.canon (point_of v.now)) }
{
    put_u8(out, 3)?;
    put_block(out, v.archive.as_bytes())?;
    put_node_id_ref(out, v.node)?;
    put_details(out, &v.details)?;
    put_position(out, &v.position)?;
    put_vector(out, &v.vector)?;
    Ok(())
}

/// Writes a continuation point, format 3. It has to be one that can be read again: its numbers within
/// their limits, the stamp there just where modifications were asked for, the near bound as its phase
/// only where raw values were asked for with bounds, and its count of items 0 where both times are
/// given, else at least 1 and below the count. Its one error is `OutOfMemory`, and then the vector is as
/// it was.
pub fn put_continuation(out: &mut Vec<u8>, v: &PagePoint<'_>) -> Result<(), BinaryFault>
    requires { IsPoint (point_of v.now) }
    ensures { Puts fault.OutOfMemory result out.old.items out.new.items
        (point.canon (point_of v.now)) }
{
    let len = out.len();
    let put = put_place_parts(out, v);
    or_undone(put, out, len)
}
