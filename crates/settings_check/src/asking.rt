//! What an archive is asked of variables.

ghost use Rattle.std.specs.Prelude.{◌≡◌, [], ◌∷◌, ⊤, pos, slice_get, MatchResult};
ghost use Rattle.std.specs.Option.{option_map};
ghost use Rattle.archive.specs.Reading.{in_direction, lives};
ghost use Rattle.archive.specs.Store.{IsAskedWithin};
ghost use Rattle.history_report.specs.Paging.{greatest_time};
ghost use Rattle.ua_space.specs.Space.{value_type_at};
ghost use Rattle.settings_check.specs.Stored.{IsVectorOf, is_other, seen_of, ends_of, Reads};

use archive::{Archive, Direction, StoreFault};
use records::{Held, Moment};
use stamp::Vector;
use std::alloc::Global;
use ua_binary::NodeId;
use ua_space::Space;
use ua_variant::{ValueType, same_type};

/// What is told of a live value: its time, and whether it isn't of the type that the settings say.
#[derive(Clone, Copy, Debug)]
pub(crate) struct Seen {
    pub(crate) time: Moment,
    pub(crate) other: bool,
}

/// What is told of the first and the last live value of a variable.
#[derive(Clone, Copy, Debug)]
pub(crate) struct Ends {
    pub(crate) first: Option<Seen>,
    pub(crate) last: Option<Seen>,
}

/// The moment before all that a record may have.
fn first_moment() -> Moment
    ensures { result ≡ pos 0 }
{
    Moment::at(0)
}

/// The last moment that a record may have.
fn last_moment() -> Moment
    ensures { result ≡ greatest_time }
{
    Moment {
        ticks: i64::MAX,
        pico: 9999,
    }
}

/// The type that the settings say of a variable.
fn type_of(space: &Space, node: &NodeId) -> Option<ValueType>
    ensures { result ≡ value_type_at space.now node.now }
{
    match space.variable(node.as_ref()) {
        None => None,
        Some(info) => Some(info.value_type),
    }
}

/// Whether a value isn't of the type that is wanted.
fn is_other(wanted: Option<ValueType>, held: &Held) -> bool
    ensures { result ≡ is_other wanted held.now }
{
    match wanted {
        None => false,
        Some(value_type) => match &held.value.value {
            None => false,
            Some(value) => !same_type(value, value_type),
        },
    }
}

/// What is told of a live value.
fn seen_of(wanted: Option<ValueType>, held: &Held) -> Seen
    ensures { result ≡ seen_of wanted held.now }
{
    Seen {
        time: held.time,
        other: is_other(wanted, held),
    }
}

/// What is told of the first of some live values.
fn first_seen(wanted: Option<ValueType>, values: &[Held]) -> Option<Seen>
    ensures { result ≡ option_map (seen_of wanted) (slice_get values.now 0) }
{
    match values.first() {
        None => None,
        Some(held) => Some(seen_of(wanted, held)),
    }
}

/// The live value of a node that comes first in a direction, if it has any.
fn first_value<A: Archive>(
    alloc: Global,
    archive: &mut A,
    node: &NodeId,
    way: Direction,
    within: &Vector,
) -> Result<Vec<Held>, StoreFault>
    ensures answers { MatchResult result
        (λ values. Reads (A.state archive.old) (A.state archive.new) []
        (λ R. IsVectorOf within.now R
        → slice_get values.items 0 ≡ slice_get (in_direction way (lives R node.now)) 0))
        (λ why. Reads (A.state archive.old) (A.state archive.new) (why ∷ []) (λ R. ⊤)) }
    ensures asked { IsAskedWithin 1 (A.asked archive.old) (A.asked archive.new) }
{
    let from = first_moment();
    let to = last_moment();
    archive.range(alloc, node, from, to, way, 1, within)
}

/// What is told of the first and the last live value of a variable.
pub(crate) fn ends_of<A: Archive>(
    alloc: Global,
    archive: &mut A,
    space: &Space,
    node: &NodeId,
    within: &Vector,
) -> Result<Ends, StoreFault>
    ensures answers { MatchResult result
        (λ ends. Reads (A.state archive.old) (A.state archive.new) []
        (λ R. IsVectorOf within.now R → ends ≡ ends_of space.now R node.now))
        (λ why. Reads (A.state archive.old) (A.state archive.new) (why ∷ []) (λ R. ⊤)) }
    ensures asked { IsAskedWithin 1 (A.asked archive.old) (A.asked archive.new) }
{
    let wanted = type_of(space, node);
    let first = match first_value(alloc, archive, node, Direction::Forward, within) {
        Ok(first) => first,
        Err(fault) => return Err(fault),
    };
    let last = match first_value(alloc, archive, node, Direction::Backward, within) {
        Ok(last) => last,
        Err(fault) => return Err(fault),
    };
    Ok(Ends {
        first: first_seen(wanted, first.as_slice()),
        last: first_seen(wanted, last.as_slice()),
    })
}
