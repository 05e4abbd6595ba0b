//! What an archive is asked of a variable.

ghost use Rattle.std.specs.Prelude.{◌≡◌, [], ◌∷◌, ⊤, pos, slice_get, MatchResult};
ghost use Rattle.archive.specs.Store.{IsAskedWithin};
ghost use Rattle.history_report.specs.Paging.{greatest_time};
ghost use Rattle.settings_check.specs.Stored.{IsVectorOf, Reads};
ghost use Rattle.web_page.specs.Front.{latest_value};

use archive::{Archive, Direction, StoreFault};
use records::{Held, Moment};
use stamp::Vector;
use std::alloc::Global;
use ua_binary::NodeId;

/// The moment before all that a record may have.
fn first_moment() -> Moment
    ensures { result ≡ pos 0 }
{
    Moment::at(0)
}

/// The last moment that a record may have.
fn last_moment() -> Moment
    ensures { result ≡ greatest_time }
{
    Moment {
        ticks: i64::MAX,
        pico: 9999,
    }
}

/// The latest live value of a node, if it has any.
pub(crate) fn latest_of<A: Archive>(
    alloc: Global,
    archive: &mut A,
    node: &NodeId,
    within: &Vector,
) -> Result<Vec<Held>, StoreFault>
    ensures answers { MatchResult result
        (λ values. Reads (A.state archive.old) (A.state archive.new) []
        (λ R. IsVectorOf within.now R → slice_get values.items 0 ≡ latest_value R node.now))
        (λ why. Reads (A.state archive.old) (A.state archive.new) (why ∷ []) (λ R. ⊤)) }
    ensures asked { IsAskedWithin 1 (A.asked archive.old) (A.asked archive.new) }
{
    let from = first_moment();
    let to = last_moment();
    archive.range(alloc, node, from, to, Direction::Backward, 1, within)
}
