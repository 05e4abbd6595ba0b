//! Pages of modifications.

ghost use Rattle.std.specs.Prelude.{◌≡◌, ◌+◌, ◌<◌, ◌||◌, IsTrue, IfOk, true, false, map, take, length, Option};
ghost use Rattle.ua_binary.specs.Format.{saturated};
ghost use Rattle.stamp.specs.Numbers.{number_of};
ghost use Rattle.records.specs.Contents.{cut};
ghost use Rattle.archive.specs.Reading.{place_of};
ghost use Rattle.archive.specs.Store.{IsAskedWithin};
ghost use Rattle.archive.specs.declared.reading.LogPlace.{LogPlace};
ghost use Rattle.hist_read.specs.Asking.{is_given};
ghost use Rattle.hist_read.specs.Reads.{page, page_size, is_spent, next_place, place_at, entries_behind, modified, modified_position};
ghost use Rattle.hist_read.specs.Pages.{IsModifiedPage};
ghost use Rattle.hist_read.specs.Carrying.{value_length, values_length};
ghost use Rattle.hist_read.specs.Gathering.{value_in, AreGathered, EntriesGatherOn, AreTooLong, AreModifiedTooLong};
ghost use Rattle.hist_read.specs.Finding.{Finds};

use crate::asked::{body, direction, given_after, goes_on, page_size};
use crate::fault::PageFault;
use crate::point::{Phase, Position};
use crate::scope::{PORTION, Scope, value_size};
use archive::{Archive, LogPlace};
use records::Entry;
use stamp::Stamp;
use ua_binary::NodeId;
use ua_services::ReadRawModifiedDetails;

/// A page of modifications.
#[derive(Drop)]
pub(crate) struct ModifiedPage {
    pub(crate) entries: Vec<Entry>,
    /// Where it ends, in case another page follows.
    pub(crate) next: Option<Position>,
}

/// The modification behind which reading goes on.
fn place_at(position: &Option<Position>) -> Option<LogPlace>
    ensures { result ≡ place_at position.now }
{
    let Some(p) = position else {
        return None;
    };
    match p.stamp {
        Some(stamp) => Some(LogPlace {
            time: p.time,
            stamp,
        }),
        None => None,
    }
}

/// The place behind a modification, where reading goes on.
fn modified_position(
    details: &ReadRawModifiedDetails,
    position: &Option<Position>,
    entry: &Entry,
) -> Position
    requires { is_spent details.now position.now ≡ false }
    ensures { result ≡ modified_position details.now position.now entry.now }
{
    let place = place_of(entry);
    Position {
        phase: Phase::Body,
        time: place.time,
        stamp: Some(place.stamp),
        given: given_after(details, position),
    }
}

/// The page that some modifications begin with.
fn page(
    mut entries: Vec<Entry>,
    details: &ReadRawModifiedDetails,
    position: &Option<Position>,
) -> ModifiedPage
    ensures items { result.entries.items ≡ page details.now position.now entries.items }
    ensures next { result.next
        ≡ next_place
        (modified_position details.now position.now) details.now position.now entries.items }
{
    let goes_on = goes_on(details, position, entries.len());
    entries.truncate(page_size(details, position));
    if !goes_on {
        return ModifiedPage {
            entries,
            next: None,
        };
    }
    let next = match entries.last() {
        Some(entry) => Some(modified_position(details, position, entry)),
        None => None,
    };
    ModifiedPage { entries, next }
}

/// Modifications that stand one behind the other, as far as the archive was asked for them.
#[derive(Drop)]
struct GatheredEntries {
    entries: Vec<Entry>,
    /// How many are wanted.
    wanted: usize,
    /// How many bytes their values have, or 2^64 - 1 where there are more.
    size: usize,
    /// The place that the others stand behind.
    reached: Option<LogPlace>,
    /// How many are asked for next.
    portion: usize,
}

/// How many bytes the value of a modification has, without its status and times, or 2^64 - 1 where there are more.
fn entry_size(entry: &Entry) -> usize
    ensures { result ≡ saturated (value_length (value_in entry.now)) }
{
    match &entry.value {
        None => 0,
        Some(value) => value_size(value),
    }
}

/// And of several.
fn size_of(entries: &[Entry]) -> usize
    ensures { result ≡ saturated (values_length (map value_in entries.now)) }
{
    let mut size: usize = 0;
    for entry in entries {
        size = size.saturating_add(entry_size(entry));
    }
    size
}

/// The place of a modification.
fn place_of(entry: &Entry) -> LogPlace
    ensures { result ≡ place_of entry.now }
{
    LogPlace {
        time: entry.time,
        stamp: Stamp {
            tick: entry.tick,
            origin: entry.origin,
        },
    }
}

/// How many modifications are asked for behind these. Each question reads the whole of the moment where it begins: so where
/// these are all of one moment, twice as many as they were asked for, and else as many as at first.
fn portion_behind(found: &[Entry], portion: usize) -> usize
    requires { 0 < portion }
    ensures { 0 < result }
{
    let Some(first) = found.first() else {
        return PORTION;
    };
    let Some(last) = found.last() else {
        return PORTION;
    };
    if first.time == last.time {
        portion.saturating_mul(2)
    } else {
        PORTION
    }
}

/// Gathers the next modifications, and tells whether more are wanted. `TooLong` where all that were gathered have values of
/// more bytes than may be carried, and the page shows each of them: they are fewer than are wanted.
fn gather<A: Archive>(
    archive: &mut A,
    node: &NodeId,
    details: &ReadRawModifiedDetails,
    scope: &Scope,
    gathered: &mut GatheredEntries,
) -> Result<bool, PageFault>
    requires given { IsTrue (is_given details.now.start_time.0 || is_given details.now.end_time.0) }
    requires size { gathered.old.size
        ≡ saturated (values_length (map value_in gathered.old.entries.items)) }
    requires portion { 0 < gathered.old.portion }
    ensures finds { (start : Option LogPlace)
        → Finds (A.state archive.old) (A.state archive.new) scope.now.longest result
        (λ more.
        AreGathered (cut (A.state archive.old).content (number_of scope.now.within)) node.now
        details.now start gathered.old
        → EntriesGatherOn (cut (A.state archive.old).content (number_of scope.now.within)) node.now
        details.now start more gathered.new)
        (λ limit.
        AreGathered (cut (A.state archive.old).content (number_of scope.now.within)) node.now
        details.now start gathered.old
        → AreTooLong value_in gathered.old.wanted
        (entries_behind (cut (A.state archive.old).content (number_of scope.now.within)) node.now
        details.now start) limit) }
    ensures asked { IsAskedWithin gathered.old.wanted (A.asked archive.old)
        (A.asked archive.new) }
    ensures size { IfOk result
        (λ _. gathered.new.size
        ≡ saturated (values_length (map value_in gathered.new.entries.items))) }
    ensures portion { IfOk result (λ _. 0 < gathered.new.portion) }
    ensures wanted { gathered.new.wanted ≡ gathered.old.wanted }
    ensures grows { IfOk result
        (λ more.
        more ≡ true → (length gathered.old.entries.items < length gathered.new.entries.items)
        × (length gathered.new.entries.items < gathered.new.wanted)) }
{
    let span = body(details);
    let limit = gathered
        .portion
        .min(gathered.wanted.saturating_sub(gathered.entries.len()));
    let onward = direction(details);
    let mut next = archive.log(
        scope.alloc,
        node,
        span.from,
        span.to,
        gathered.reached,
        onward,
        limit,
        &scope.within,
    )?;
    let is_full = limit <= next.len();
    if let Some(last) = next.last() {
        gathered.reached = Some(place_of(last));
    }
    gathered.size = gathered.size.saturating_add(size_of(&next));
    gathered.portion = portion_behind(&next, gathered.portion);
    gathered.entries.append(&mut next)?;
    let count = gathered.entries.len();
    if count < gathered.wanted && scope.is_exceeded(gathered.size) {
        return Err(PageFault::TooLong);
    }
    Ok(is_full && count < gathered.wanted)
}

/// The modifications that follow a place, one more than the page has at most. They are asked for a few at a time, and no longer
/// than what was found may be carried: 32, and twice as many as before where all that one question gave are of one moment.
fn find_entries<A: Archive>(
    archive: &mut A,
    node: &NodeId,
    details: &ReadRawModifiedDetails,
    position: &Option<Position>,
    scope: &Scope,
) -> Result<Vec<Entry>, PageFault>
    requires { IsTrue (is_given details.now.start_time.0 || is_given details.now.end_time.0) }
    ensures finds { Finds (A.state archive.old) (A.state archive.new) scope.now.longest result
        (λ v. v.items
        ≡ take (page_size details.now position.now + 1)
        (modified
        (cut (A.state archive.old).content (number_of scope.now.within)) node.now details.now
        position.now))
        (AreModifiedTooLong
        (cut (A.state archive.old).content (number_of scope.now.within)) node.now details.now
        position.now) }
    ensures asked { IsAskedWithin (page_size details.now position.now + 1) (A.asked archive.old)
        (A.asked archive.new) }
{
    let mut gathered = GatheredEntries {
        entries: Vec::new(scope.alloc),
        wanted: page_size(details, position) + 1,
        size: 0,
        reached: place_at(position),
        portion: PORTION,
    };
    let mut more = gather(archive, node, details, scope, &mut gathered)?;
    while more {
        more = gather(archive, node, details, scope, &mut gathered)?;
    }
    Ok(gathered.entries)
}

/// Reads a page of modifications.
pub(crate) fn read_modified<A: Archive>(
    archive: &mut A,
    node: &NodeId,
    details: &ReadRawModifiedDetails,
    position: &Option<Position>,
    scope: &Scope,
) -> Result<ModifiedPage, PageFault>
    requires { IsTrue (is_given details.now.start_time.0 || is_given details.now.end_time.0) }
    ensures finds { Finds (A.state archive.old) (A.state archive.new) scope.now.longest result
        (IsModifiedPage
        (cut (A.state archive.old).content (number_of scope.now.within)) node.now details.now
        position.now)
        (AreModifiedTooLong
        (cut (A.state archive.old).content (number_of scope.now.within)) node.now details.now
        position.now) }
    ensures asked { IsAskedWithin (page_size details.now position.now + 1) (A.asked archive.old)
        (A.asked archive.new) }
{
    let entries = find_entries(archive, node, details, position, scope)?;
    Ok(page(entries, details, position))
}
