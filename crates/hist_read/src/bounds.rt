//! The values at the bounds of a read.

ghost use Rattle.std.specs.Prelude.{◌≡◌, slice_get};
ghost use Rattle.stamp.specs.Numbers.{number_of};
ghost use Rattle.records.specs.Contents.{cut};
ghost use Rattle.records.specs.Records.{live_value};
ghost use Rattle.archive.specs.Store.{Asks, IsAskedWithin};
ghost use Rattle.hist_read.specs.Asking.{end_time};
ghost use Rattle.hist_read.specs.Reads.{near, nearest_from, far_value};

use crate::asked::{direction, origin};
use crate::item::Item;
use archive::{Archive, Direction, StoreFault};
use records::{Held, Moment};
use stamp::Vector;
use std::alloc::Global;
use ua_binary::NodeId;
use ua_services::ReadRawModifiedDetails;

/// The first of some values.
fn first_of(mut found: Vec<Held>) -> Option<Held>
    ensures { result ≡ slice_get found.items 0 }
{
    found.truncate(1);
    found.pop()
}

/// The live value at a time.
fn value_at<A: Archive>(
    alloc: Global,
    archive: &mut A,
    node: &NodeId,
    time: Moment,
    within: &Vector,
) -> Result<Option<Held>, StoreFault>
    ensures asks { Asks (A.state archive.old) (A.state archive.new) result
        (λ h. h
        ≡ live_value (cut (A.state archive.old).content (number_of within.now)) node.now time) }
    ensures asked { IsAskedWithin 1 (A.asked archive.old) (A.asked archive.new) }
{
    let found = archive.range(alloc, node, time, time, Direction::Forward, 1, within)?;
    Ok(first_of(found))
}

/// The live value at a time, else the nearest one beyond it in the direction.
fn nearest_from<A: Archive>(
    alloc: Global,
    archive: &mut A,
    node: &NodeId,
    direction: Direction,
    time: Moment,
    within: &Vector,
) -> Result<Option<Held>, StoreFault>
    ensures asks { Asks (A.state archive.old) (A.state archive.new) result
        (λ h. h
        ≡ nearest_from
        (cut (A.state archive.old).content (number_of within.now)) node.now direction time) }
    ensures asked { IsAskedWithin 1 (A.asked archive.old) (A.asked archive.new) }
{
    if let Some(held) = value_at(alloc, archive, node, time, within)? {
        return Ok(Some(held));
    }
    archive.next_outside(alloc, node, time, direction, within)
}

/// The near bound: the value at the origin, else the nearest one against the direction, else none there.
pub(crate) fn near<A: Archive>(
    alloc: Global,
    archive: &mut A,
    node: &NodeId,
    details: &ReadRawModifiedDetails,
    within: &Vector,
) -> Result<Item, StoreFault>
    ensures asks { Asks (A.state archive.old) (A.state archive.new) result
        (λ i. i
        ≡ near (cut (A.state archive.old).content (number_of within.now)) node.now details.now) }
    ensures asked { IsAskedWithin 1 (A.asked archive.old) (A.asked archive.new) }
{
    let back = direction(details).opposite();
    let start = origin(details);
    match nearest_from(alloc, archive, node, back, start, within)? {
        Some(held) => Ok(Item::Value(held)),
        None => Ok(Item::Missing(start)),
    }
}

/// The value at the far bound, where both times are given: the one at the end, else the nearest beyond
/// it; where both times are equal, the nearest beyond it.
pub(crate) fn far_value<A: Archive>(
    alloc: Global,
    archive: &mut A,
    node: &NodeId,
    details: &ReadRawModifiedDetails,
    within: &Vector,
) -> Result<Option<Held>, StoreFault>
    ensures asks { Asks (A.state archive.old) (A.state archive.new) result
        (λ h. h
        ≡ far_value (cut (A.state archive.old).content (number_of within.now)) node.now details.now
        (end_time details.now)) }
    ensures asked { IsAskedWithin 1 (A.asked archive.old) (A.asked archive.new) }
{
    let onward = direction(details);
    let end = Moment::at(details.end_time.0);
    if origin(details) == end {
        let last = Moment {
            ticks: details.end_time.0,
            pico: 9999,
        };
        return archive.next_outside(alloc, node, last, onward, within);
    }
    nearest_from(alloc, archive, node, onward, end, within)
}
