//! What a Read asks and answers (Part 4, 5.11.2).

ghost use Rattle.std.specs.Prelude.{◌≡◌, length, map, IfOk};
ghost use Rattle.ua_binary.specs.Format.{Puts, PutsPart, Reads, ReadsUnless, saturated};
ghost use Rattle.ua_variant.specs.DataValue.{data_value};
ghost use Rattle.ua_services.specs.Unkept.{AreFew};
ghost use Rattle.ua_services.specs.Attributes.{timestamps_of, timestamps, ReadFields, read_fields, read_value_id, read_asked, read_request, data_values, read_response, AreShortValues};

use crate::first::{OF_A_THOUSAND, read_first};
use crate::many::put_null_array;
use std::alloc::Global;
use ua_binary::{BinaryFault, Cursor, Decode, NodeIdRef, QualifiedRef, or_undone, put_count};
use ua_variant::{DataValue, put_data_value};

/// Which moments a client wants of a data value (Part 4, 7.40).
#[derive(Clone, Copy, Debug, PartialEq, Eq)]
pub enum TimestampsToReturn {
    Source,
    Server,
    Both,
    Neither,
}

/// The moments of a number; another than 0 to 3 has none.
fn timestamps_of(number: i32) -> Option<TimestampsToReturn>
    ensures { result ≡ timestamps_of number }
{
    match number {
        0 => Some(TimestampsToReturn::Source),
        1 => Some(TimestampsToReturn::Server),
        2 => Some(TimestampsToReturn::Both),
        3 => Some(TimestampsToReturn::Neither),
        _ => None,
    }
}

/// What is read (Part 4, 7.29), in the bytes that it was read from.
#[derive(Clone, Copy, Debug, Drop)]
pub struct ReadValueId<'a> {
    pub node_id: NodeIdRef<'a>,
    pub attribute_id: u32,
    /// The items of an array that are wanted; null or empty stands for the whole.
    pub index_range: Option<&'a str>,
    /// The name of the encoding that is wanted of a structure.
    pub data_encoding: QualifiedRef<'a>,
}

/// What a Read asks (Part 4, 5.11.2).
#[derive(Debug, Drop)]
pub struct ReadRequest<'a> {
    /// None where the number says none of the four.
    pub timestamps: Option<TimestampsToReturn>,
    /// The first 1,001 at most.
    pub nodes: Vec<ReadValueId<'a>>,
}

/// Which moments are wanted: an Int32.
#[tactic(auto, unfolding(crate::specs::Attributes::timestamps))]
pub(crate) fn read_timestamps(
    cursor: &mut Cursor<'_>,
) -> Result<Option<TimestampsToReturn>, BinaryFault>
    ensures { Reads (λ x. x) result cursor.old cursor.new timestamps.read }
{
    Ok(timestamps_of(cursor.i32()?))
}

impl<'a> Decode<'a> for ReadValueId<'a> {
    type Fault = BinaryFault;

    ghost Value = { ReadFields };

    ghost view = { read_fields };

    ghost format = { read_value_id };

    #[tactic(auto, unfolding(crate::specs::Attributes::read_value_id))]
    fn decode(alloc: Global, cursor: &mut Cursor<'a>) -> Result<ReadValueId<'a>, BinaryFault> {
        let mut next = cursor.fork();
        let node_id = next.node_id()?;
        let attribute_id = next.u32()?;
        let index_range = next.text()?;
        let data_encoding = next.qualified()?;
        *cursor = next;
        Ok(ReadValueId {
            node_id,
            attribute_id,
            index_range,
            data_encoding,
        })
    }
}

/// Reads a Read request (Part 4, 5.11.2) behind its header: a Double, the greatest age, which isn't
/// kept, the moments that are wanted, and an array of what is read, of which at most 1,001 items are
/// kept; every item is read and judged. A fault is that of the leftmost field that has no spelling, or
/// `OutOfMemory`, and leaves the cursor where it was.
#[tactic(auto, unfolding(crate::specs::Attributes::read_request))]
pub fn read_read_request<'a>(
    alloc: Global,
    cursor: &mut Cursor<'a>,
) -> Result<ReadRequest<'a>, BinaryFault>
    ensures { ReadsUnless BinaryFault.OutOfMemory read_asked result cursor.old cursor.new
        read_request.read }
{
    let mut next = cursor.fork();
    let _max_age = next.eight()?;
    let timestamps = read_timestamps(&mut next)?;
    let nodes = read_first(alloc, &mut next, OF_A_THOUSAND)?;
    *cursor = next;
    Ok(ReadRequest { timestamps, nodes })
}

#[tactic(auto, using(ua_binary::proofs::Kept::kept), unfolding(ua_binary::specs::Binary::array))]
fn put_data_values_parts(out: &mut Vec<u8>, values: &[DataValue]) -> Result<(), BinaryFault>
    requires { AreShortValues values.now }
    ensures puts { PutsPart BinaryFault.OutOfMemory result out.old.items out.new.items
        (data_values.canon values.now) }
    ensures spelled { IfOk result (λ _. AreFew data_value values.now) }
{
    put_count(out, values.len())?;
    for value in values {
        put_data_value(out, value)?;
    }
    Ok(())
}

/// An array of data values. Where memory runs out, the vector is as it was.
pub(crate) fn put_data_values(out: &mut Vec<u8>, values: &[DataValue]) -> Result<(), BinaryFault>
    requires { AreShortValues values.now }
    ensures puts { Puts BinaryFault.OutOfMemory result out.old.items out.new.items
        (data_values.canon values.now) }
    ensures spelled { IfOk result (λ _. AreFew data_value values.now) }
{
    let len = out.len();
    let put = put_data_values_parts(out, values);
    or_undone(put, out, len)
}

/// How many bytes of that array are written, or 2^64 - 1 where there are more. It takes no memory.
#[tactic(auto, using(crate::proofs::Fits::lengths))]
pub(crate) fn data_values_size(values: &[DataValue]) -> usize
    ensures { result ≡ saturated (length (data_values.canon values.now)) }
{
    let mut size = 4usize;
    for value in values {
        size = size.saturating_add(value.size());
    }
    size
}

#[tactic(auto, using(ua_binary::proofs::Kept::kept), unfolding(crate::specs::Attributes::read_response))]
fn put_read_parts(out: &mut Vec<u8>, values: &[DataValue]) -> Result<(), BinaryFault>
    requires { AreShortValues values.now }
    ensures puts { PutsPart BinaryFault.OutOfMemory result out.old.items out.new.items
        (read_response.canon values.now) }
    ensures spelled { IfOk result (λ _. AreFew data_value values.now) }
{
    put_data_values(out, values)?;
    put_null_array(out)?;
    Ok(())
}

/// Writes a Read response (Part 4, 5.11.2) behind its header: the array of the values, and a null one of
/// diagnostics. Its one error is `OutOfMemory`, and then the vector is as it was. What was written has a
/// spelling.
pub fn put_read_response(out: &mut Vec<u8>, values: &[DataValue]) -> Result<(), BinaryFault>
    requires { AreShortValues values.now }
    ensures puts { Puts BinaryFault.OutOfMemory result out.old.items out.new.items
        (read_response.canon values.now) }
    ensures spelled { IfOk result (λ _. AreFew data_value values.now) }
{
    let len = out.len();
    let put = put_read_parts(out, values);
    or_undone(put, out, len)
}
