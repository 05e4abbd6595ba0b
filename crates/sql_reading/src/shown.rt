//! What a story shows.

ghost use Rattle.std.specs.Prelude.{◌≡◌, ◌++◌, ◌∷◌, [], None, Some, if◌then◌else◌, filter, reverse, IfOk, IfErr};
ghost use Rattle.std.specs.List.{cons_option};
ghost use Rattle.records.specs.Records.{held, entries_after, is_delete, kind};
ghost use Rattle.archive.specs.Reading.{in_direction, follows};
ghost use Rattle.archive.specs.declared.fault.StoreFault.TheVariants as store;

use archive::{Direction, LogPlace, StoreFault};
use records::{Entry, Held, Record, entries_in, held_of};
use stamp::Stamp;
use std::alloc::Global;
use ua_variant::{DataValue, HistoryUpdateType};

/// Puts what a story leaves behind other values.
pub(crate) fn push_value(found: &mut Vec<Held>, records: Vec<Record>) -> Result<(), StoreFault>
    ensures value { IfOk result
        (λ _. found.new.items ≡ found.old.items ++ cons_option (held records.items) []) }
    ensures memory { IfErr result (λ e. e ≡ store.OutOfMemory) }
{
    let Some(held) = held_of(records) else {
        return Ok(());
    };
    match found.push(held) {
        Ok(()) => Ok(()),
        Err(_) => Err(StoreFault::OutOfMemory),
    }
}

/// Whether a modification stands behind a place, where one is given.
fn follows(direction: Direction, after: &Option<LogPlace>, entry: &Entry) -> bool
    ensures { result ≡ follows direction after.now entry.now }
{
    let Some(place) = *after else {
        return true;
    };
    let stamp = Stamp {
        tick: entry.tick,
        origin: entry.origin,
    };
    match direction {
        Direction::Forward => (place.time, stamp) < (entry.time, place.stamp),
        Direction::Backward => (entry.time, place.stamp) < (place.time, stamp),
    }
}

fn keep_after(found: &mut Vec<Entry>, direction: Direction, after: &Option<LogPlace>)
    ensures { found.new.items ≡ filter (follows direction after.now) found.old.items }
{
    found.retain(|e| follows(direction, after, e));
}

/// The newest first, forward.
fn turn(entries: &mut Vec<Entry>, direction: Direction)
    ensures { entries.new.items ≡ in_direction direction (reverse entries.old.items) }
{
    if direction == Direction::Forward {
        entries.reverse();
    }
}

/// What a record did without one before it.
fn kind_alone(asked: HistoryUpdateType) -> HistoryUpdateType
    ensures { result ≡ kind None asked }
{
    match asked {
        HistoryUpdateType::Delete => HistoryUpdateType::Delete,
        _ => HistoryUpdateType::Insert,
    }
}

/// The value that a record shows without one before it: its own, unless it deletes.
fn value_alone(asked: HistoryUpdateType, value: DataValue) -> Option<DataValue>
    ensures { result ≡ (if is_delete asked then None else Some value) }
{
    match asked {
        HistoryUpdateType::Delete => None,
        _ => Some(value),
    }
}

/// The modification that a record shows which stands alone at its moment.
fn entry_alone(r: Record) -> Entry
    ensures { result ∷ [] ≡ entries_after None (r ∷ []) }
{
    Entry {
        time: r.time,
        value: value_alone(r.asked, r.value),
        kind: kind_alone(r.asked),
        tick: r.tick,
        origin: r.origin,
        user: r.user,
    }
}

/// Puts it behind others, where it stands behind a place, where one is given.
fn push_alone(
    found: &mut Vec<Entry>,
    r: Record,
    direction: Direction,
    after: &Option<LogPlace>,
) -> Result<(), StoreFault>
    ensures value { IfOk result (λ _. found.new.items ≡ found.old.items ++ filter (follows direction
        after.now) (in_direction direction (reverse (entries_after None (r ∷ []))))) }
    ensures memory { IfErr result (λ e. e ≡ store.OutOfMemory) }
{
    let entry = entry_alone(r);
    if !follows(direction, after, &entry) {
        return Ok(());
    }
    match found.push(entry) {
        Ok(()) => Ok(()),
        Err(_) => Err(StoreFault::OutOfMemory),
    }
}

/// Puts the modifications of a story that stand behind a place, where one is given, behind others.
fn push_all(
    alloc: Global,
    found: &mut Vec<Entry>,
    story: &[Record],
    direction: Direction,
    after: &Option<LogPlace>,
) -> Result<(), StoreFault>
    ensures value { IfOk result (λ _. found.new.items ≡ found.old.items ++ filter (follows direction
        after.now) (in_direction direction (reverse (entries_after None story.now)))) }
    ensures memory { IfErr result (λ e. e ≡ store.OutOfMemory) }
{
    let mut shown = entries_in(alloc, story)?;
    turn(&mut shown, direction);
    keep_after(&mut shown, direction, after);
    match found.append(&mut shown) {
        Ok(()) => Ok(()),
        Err(_) => Err(StoreFault::OutOfMemory),
    }
}

/// The same of a story that is used up: what stands alone isn't copied.
pub(crate) fn push_entries(
    alloc: Global,
    found: &mut Vec<Entry>,
    mut story: Vec<Record>,
    direction: Direction,
    after: &Option<LogPlace>,
) -> Result<(), StoreFault>
    ensures value { IfOk result (λ _. found.new.items ≡ found.old.items ++ filter (follows direction
        after.now) (in_direction direction (reverse (entries_after None story.items)))) }
    ensures memory { IfErr result (λ e. e ≡ store.OutOfMemory) }
{
    if story.len() != 1 {
        return push_all(alloc, found, &story, direction, after);
    }
    match story.pop() {
        Some(r) => push_alone(found, r, direction, after),
        None => Ok(()),
    }
}
