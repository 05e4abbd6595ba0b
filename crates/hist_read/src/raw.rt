//! Pages of raw values.

ghost use Rattle.std.specs.Prelude.{◌≡◌, ◌≤◌, ◌+◌, ◌-◌, ◌<◌, ◌||◌, ◌++◌, IsTrue, IfOk, IfSome, ℤ, ◌≤ℤ◌, true, false, min, map, take, length, Option};
ghost use Rattle.std.specs.Option.{option_to_list};
ghost use Rattle.ua_binary.specs.Format.{saturated};
ghost use Rattle.stamp.specs.Numbers.{number_of};
ghost use Rattle.records.specs.Contents.{cut};
ghost use Rattle.archive.specs.Store.{IsAskedWithin};
ghost use Rattle.hist_read.specs.Asking.{is_given, first_time};
ghost use Rattle.hist_read.specs.Reads.{is_near_alone, values_beyond, body_part, value_items, last_time, time_before, open_bound, page_size, page, is_spent, next_place, raw_position};
ghost use Rattle.hist_read.specs.Pages.{portion, IsFound, IsFoundBehind, body_limit, has_far, far_item, far_of, row_of, IsRawPage};
ghost use Rattle.hist_read.specs.Carrying.{values_length};
ghost use Rattle.hist_read.specs.Gathering.{IsGathered, GathersOn, AreTooLong, IsBodyTooLong};
ghost use Rattle.hist_read.specs.Finding.{Finds};

use crate::asked::{
    direction, given_after, goes_on, has_both, limit_at, origin, page_size, span_beyond,
};
use crate::bounds::{far_value, near};
use crate::fault::PageFault;
use crate::item::Item;
use crate::point::{Phase, Position};
use crate::scope::{PORTION, Scope, value_size};
use archive::{Archive, Direction};
use records::{Held, Moment};
use std::alloc::{AllocError, Global};
use ua_binary::NodeId;
use ua_services::ReadRawModifiedDetails;

/// What the archive has of a page of raw values.
#[derive(Drop)]
pub(crate) struct Found {
    /// The near bound, where it is due.
    near: Option<Item>,
    /// The values behind it, one more than the page has at most.
    body: Vec<Held>,
    /// The value at the far limit, where it is due and there is one.
    far: Option<Held>,
}

/// Whether the near bound is all that is asked for.
fn is_near_alone(details: &ReadRawModifiedDetails) -> bool
    ensures { result ≡ is_near_alone details.now }
{
    details.return_bounds && details.num_values_per_node == 1
}

/// Whether the far bound is asked for.
fn has_far(details: &ReadRawModifiedDetails) -> bool
    ensures { result ≡ has_far details.now }
{
    details.return_bounds && !is_near_alone(details)
}

/// How many values are asked for.
fn body_limit(details: &ReadRawModifiedDetails, position: &Option<Position>) -> usize
    ensures value { result ≡ body_limit details.now position.now }
    ensures few { result ≤ page_size details.now position.now + 1 }
{
    if is_near_alone(details) {
        return 0;
    }
    page_size(details, position) + 1
}

/// Values that stand one behind the other, as far as the archive was asked for them.
#[derive(Drop)]
struct Gathered {
    values: Vec<Held>,
    /// How many are wanted.
    wanted: usize,
    /// How many bytes the values have, or 2^64 - 1 where there are more.
    size: usize,
    /// The moment that the others are beyond.
    reached: Option<Moment>,
}

/// How many bytes values have, without their status and times, or 2^64 - 1 where there are more.
fn size_of(values: &[Held]) -> usize
    ensures { result ≡ saturated (values_length (map (λ h. h.value) values.now)) }
{
    let mut size: usize = 0;
    for held in values {
        size = size.saturating_add(value_size(&held.value));
    }
    size
}

/// Gathers the next values, and tells whether more are wanted. `TooLong` where all that were gathered have more bytes than may
/// be carried, and the page shows each of them, also behind a bound: they are fewer than are wanted by two.
fn gather<A: Archive>(
    archive: &mut A,
    node: &NodeId,
    details: &ReadRawModifiedDetails,
    scope: &Scope,
    gathered: &mut Gathered,
) -> Result<bool, PageFault>
    requires given { IsTrue (is_given details.now.start_time.0 || is_given details.now.end_time.0) }
    requires size { gathered.old.size
        ≡ saturated (values_length (map (λ h. h.value) gathered.old.values.items)) }
    ensures finds { (start : Option ℤ)
        → Finds (A.state archive.old) (A.state archive.new) scope.now.longest result
        (λ more.
        IsGathered (cut (A.state archive.old).content (number_of scope.now.within)) node.now
        details.now start gathered.old
        → GathersOn (cut (A.state archive.old).content (number_of scope.now.within)) node.now
        details.now start more gathered.new)
        (λ limit.
        IsGathered (cut (A.state archive.old).content (number_of scope.now.within)) node.now
        details.now start gathered.old
        → AreTooLong (λ h. h.value) (gathered.old.wanted - 1)
        (values_beyond (cut (A.state archive.old).content (number_of scope.now.within)) node.now
        details.now start) limit) }
    ensures asked { IsAskedWithin (min portion gathered.old.wanted) (A.asked archive.old)
        (A.asked archive.new) }
    ensures size { IfOk result
        (λ _. gathered.new.size
        ≡ saturated (values_length (map (λ h. h.value) gathered.new.values.items))) }
    ensures wanted { gathered.new.wanted ≡ gathered.old.wanted }
    ensures grows { IfOk result
        (λ more.
        more ≡ true → (length gathered.old.values.items < length gathered.new.values.items)
        × (length gathered.new.values.items < gathered.new.wanted)) }
{
    let span = span_beyond(details, gathered.reached);
    let limit = PORTION.min(gathered.wanted.saturating_sub(gathered.values.len()));
    let onward = direction(details);
    let mut next = archive.range(
        scope.alloc,
        node,
        span.from,
        span.to,
        onward,
        limit,
        &scope.within,
    )?;
    let is_full = limit <= next.len();
    if let Some(last) = next.last() {
        gathered.reached = Some(last.time);
    }
    gathered.size = gathered.size.saturating_add(size_of(&next));
    gathered.values.append(&mut next)?;
    let count = gathered.values.len();
    if count + 1 < gathered.wanted && scope.is_exceeded(gathered.size) {
        return Err(PageFault::TooLong);
    }
    Ok(is_full && count < gathered.wanted)
}

/// The values behind the near bound, one more than the page has at most. They are asked for 32 at a time, and no longer than
/// what was found may be carried.
fn find_body<A: Archive>(
    archive: &mut A,
    node: &NodeId,
    details: &ReadRawModifiedDetails,
    position: &Option<Position>,
    scope: &Scope,
) -> Result<Vec<Held>, PageFault>
    requires given { IsTrue (is_given details.now.start_time.0 || is_given details.now.end_time.0) }
    requires place { IfSome position.now (λ p. first_time ≤ℤ p.time) }
    ensures finds { Finds (A.state archive.old) (A.state archive.new) scope.now.longest result
        (λ v. v.items
        ≡ take (page_size details.now position.now + 1)
        (body_part
        (cut (A.state archive.old).content (number_of scope.now.within)) node.now details.now
        position.now))
        (IsBodyTooLong
        (cut (A.state archive.old).content (number_of scope.now.within)) node.now details.now
        position.now) }
    ensures asked { IsAskedWithin (min portion (page_size details.now position.now + 1))
        (A.asked archive.old) (A.asked archive.new) }
{
    let mut gathered = Gathered {
        values: Vec::new(scope.alloc),
        wanted: body_limit(details, position),
        size: 0,
        reached: limit_at(details, position),
    };
    let mut more = gather(archive, node, details, scope, &mut gathered)?;
    while more {
        more = gather(archive, node, details, scope, &mut gathered)?;
    }
    Ok(gathered.values)
}

/// The values behind the near bound, and the one at the far limit.
fn find_values<A: Archive>(
    archive: &mut A,
    node: &NodeId,
    details: &ReadRawModifiedDetails,
    position: &Option<Position>,
    scope: &Scope,
) -> Result<(Vec<Held>, Option<Held>), PageFault>
    requires given { IsTrue (is_given details.now.start_time.0 || is_given details.now.end_time.0) }
    requires place { IfSome position.now (λ p. first_time ≤ℤ p.time) }
    ensures finds { Finds (A.state archive.old) (A.state archive.new) scope.now.longest result
        (IsFoundBehind
        (cut (A.state archive.old).content (number_of scope.now.within)) node.now details.now
        position.now)
        (IsBodyTooLong
        (cut (A.state archive.old).content (number_of scope.now.within)) node.now details.now
        position.now) }
    ensures asked { IsAskedWithin (min portion (page_size details.now position.now + 1))
        (A.asked archive.old) (A.asked archive.new) }
{
    let body = find_body(archive, node, details, position, scope)?;
    if !has_far(details) || !has_both(details) {
        return Ok((body, None));
    }
    let far = far_value(scope.alloc, archive, node, details, &scope.within)?;
    Ok((body, far))
}

/// What the archive has of a page.
pub(crate) fn find<A: Archive>(
    archive: &mut A,
    node: &NodeId,
    details: &ReadRawModifiedDetails,
    position: &Option<Position>,
    scope: &Scope,
) -> Result<Found, PageFault>
    requires given { IsTrue (is_given details.now.start_time.0 || is_given details.now.end_time.0) }
    requires place { IfSome position.now (λ p. first_time ≤ℤ p.time) }
    ensures finds { Finds (A.state archive.old) (A.state archive.new) scope.now.longest result
        (IsFound
        (cut (A.state archive.old).content (number_of scope.now.within)) node.now details.now
        position.now)
        (IsBodyTooLong
        (cut (A.state archive.old).content (number_of scope.now.within)) node.now details.now
        position.now) }
    ensures asked { IsAskedWithin (min portion (page_size details.now position.now + 1))
        (A.asked archive.old) (A.asked archive.new) }
{
    if position.is_some() || !details.return_bounds {
        let (body, far) = find_values(archive, node, details, position, scope)?;
        return Ok(Found {
            near: None,
            body,
            far,
        });
    }
    let near = near(scope.alloc, archive, node, details, &scope.within)?;
    let (body, far) = find_values(archive, node, details, position, scope)?;
    Ok(Found {
        near: Some(near),
        body,
        far,
    })
}

/// The far bound of an open limit, one second beyond the item before it.
fn open_bound(direction: Direction, before: Moment) -> Item
    ensures { result ≡ open_bound direction before }
{
    match direction {
        Direction::Forward => {
            Item::Missing(Moment::at(before.ticks().saturating_add(10_000_000)))
        },
        Direction::Backward => {
            Item::Missing(Moment::at(before.ticks().saturating_sub(10_000_000)))
        },
    }
}

/// The far bound of the value at the far limit, behind an item of this time.
fn far_item(details: &ReadRawModifiedDetails, far: Option<Held>, before: Moment) -> Item
    ensures { result ≡ far_item details.now far before }
{
    if !has_both(details) {
        return open_bound(direction(details), before);
    }
    match far {
        Some(held) => Item::Value(held),
        None => Item::Missing(Moment::at(details.end_time.0)),
    }
}

/// Adds values as items.
fn push_values(items: &mut Vec<Item>, body: Vec<Held>) -> Result<(), AllocError>
    ensures { IfOk result (λ _. items.new.items ≡ items.old.items ++ value_items body.items) }
{
    for held in body.into_iter() {
        items.push(Item::Value(held))?;
    }
    Ok(())
}

/// The time of the item that was given last.
fn time_before(details: &ReadRawModifiedDetails, position: &Option<Position>) -> Moment
    ensures { result ≡ time_before details.now position.now }
{
    match position {
        None => origin(details),
        Some(p) => p.time,
    }
}

/// The time of the last item, else this one.
fn last_time(items: &[Item], before: Moment) -> Moment
    ensures { result ≡ last_time before items.now }
{
    match items.last() {
        Some(item) => item.time(),
        None => before,
    }
}

/// The near bound, where it is due, and the values behind it.
fn front(alloc: Global, near: Option<Item>, body: Vec<Held>) -> Result<Vec<Item>, AllocError>
    ensures { IfOk result (λ v. v.items ≡ option_to_list near ++ value_items body.items) }
{
    let mut items = Vec::with_capacity(alloc, body.len())?;
    if let Some(near) = near {
        items.push(near)?;
    }
    push_values(&mut items, body)?;
    Ok(items)
}

/// Adds the far bound, where it is due.
fn push_far(
    items: &mut Vec<Item>,
    far: Option<Held>,
    is_due: bool,
    details: &ReadRawModifiedDetails,
    position: &Option<Position>,
) -> Result<(), AllocError>
    ensures { IfOk result
        (λ _. items.new.items ≡ items.old.items
        ++ far_of details.now position.now is_due items.old.items far) }
{
    if !is_due {
        return Ok(());
    }
    let before = last_time(items, time_before(details, position));
    items.push(far_item(details, far, before))?;
    Ok(())
}

/// What was found, in a row; the far bound where the values end within the page.
pub(crate) fn row(
    alloc: Global,
    found: Found,
    details: &ReadRawModifiedDetails,
    position: &Option<Position>,
) -> Result<Vec<Item>, AllocError>
    ensures { IfOk result
        (λ v. v.items
        ≡ row_of details.now position.now (option_to_list found.near) found.body.items found.far) }
{
    let Found { near, body, far } = found;
    let is_due = has_far(details) && body.len() <= page_size(details, position);
    let mut items = front(alloc, near, body)?;
    push_far(&mut items, far, is_due, details, position)?;
    Ok(items)
}

/// A page of raw values.
#[derive(Drop)]
pub(crate) struct RawPage {
    pub(crate) items: Vec<Item>,
    /// Where it ends, in case another page follows.
    pub(crate) next: Option<Position>,
}

/// The place behind an item, where reading goes on.
fn raw_position(
    details: &ReadRawModifiedDetails,
    position: &Option<Position>,
    item: &Item,
) -> Position
    requires { is_spent details.now position.now ≡ false }
    ensures { result ≡ raw_position details.now position.now item.now }
{
    Position {
        phase: Phase::Body,
        time: item.time(),
        stamp: None,
        given: given_after(details, position),
    }
}

/// The page that a row begins with.
fn page(
    mut items: Vec<Item>,
    details: &ReadRawModifiedDetails,
    position: &Option<Position>,
) -> RawPage
    ensures items { result.items.items ≡ page details.now position.now items.items }
    ensures next { result.next
        ≡ next_place (raw_position details.now position.now) details.now position.now items.items }
{
    let goes_on = goes_on(details, position, items.len());
    items.truncate(page_size(details, position));
    if !goes_on {
        return RawPage { items, next: None };
    }
    let next = match items.last() {
        Some(item) => Some(raw_position(details, position, item)),
        None => None,
    };
    RawPage { items, next }
}

/// Reads a page of raw values.
pub(crate) fn read_raw<A: Archive>(
    archive: &mut A,
    node: &NodeId,
    details: &ReadRawModifiedDetails,
    position: &Option<Position>,
    scope: &Scope,
) -> Result<RawPage, PageFault>
    requires given { IsTrue (is_given details.now.start_time.0 || is_given details.now.end_time.0) }
    requires place { IfSome position.now (λ p. first_time ≤ℤ p.time) }
    ensures finds { Finds (A.state archive.old) (A.state archive.new) scope.now.longest result
        (IsRawPage
        (cut (A.state archive.old).content (number_of scope.now.within)) node.now details.now
        position.now)
        (IsBodyTooLong
        (cut (A.state archive.old).content (number_of scope.now.within)) node.now details.now
        position.now) }
    ensures asked { IsAskedWithin (min portion (page_size details.now position.now + 1))
        (A.asked archive.old) (A.asked archive.new) }
{
    let found = find(archive, node, details, position, scope)?;
    let items = row(scope.alloc, found, details, position)?;
    Ok(page(items, details, position))
}
