//! What holds of continuation points, and of pages that follow one another.

ghost use Rattle.std.specs.Prelude.{◌≡◌, ◌||◌, ◌++◌, IsTrue, Option, Some};
ghost use Rattle.ua_binary.specs.declared.values.NodeId.{NodeId as Node};
ghost use Rattle.records.specs.Contents.{Content, IsWithin, learned};
ghost use Rattle.records.specs.Spelling.{IsLawfulRecord};
ghost use Rattle.records.specs.declared.record.Record.{Record};
ghost use Rattle.archive.specs.Store.{IsLawfulContent};
ghost use Rattle.ua_binary.specs.Format.{IsLawful, IsPrefixFree};
ghost use Rattle.hist_read.specs.declared.point.Position.{Position};
ghost use Rattle.hist_read.specs.Asking.{is_given};
ghost use Rattle.hist_read.specs.Point.{point};
ghost use Rattle.hist_read.specs.Reads.{raw, raw_position, modified, modified_position, next_place, page};
ghost use Rattle.std.specs.Prelude.{ℕ, List, ◌∷◌, None, Ok, map};
ghost use Rattle.std.specs.List.{AllByRecursion};
ghost use Rattle.ua_services.specs.declared.attributes.TimestampsToReturn.{TimestampsToReturn};
ghost use Rattle.hist_read.specs.Node.{checked_read};
ghost use Rattle.hist_read.specs.Chains.{whole_read, values_in, infos_in, Page, Chain, joined_values, joined_infos, IsLater, IsAsked, contents_from};
ghost use Rattle.hist_read.specs.Wholes.{whole_raw, whole_modified};

use crate::asked::body;
use ua_services::ReadRawModifiedDetails;

/// What is read is spelled there, what is spelled is read whatever follows, and what is written is a
/// spelling; no spelling begins another, and no two points have one spelling.
#[tactic(auto, using(ua_binary::proofs::Spelled::prefix_free, crate::proofs::Lawful::lawful))]
pub fn continuation_points_are_told_by_their_bytes()
    ensures lawful { IsLawful point }
    ensures free { IsPrefixFree point }
{}

/// A page of modifications, and what follows the place where it ends, are together what was to come: over
/// an unchanged content each modification comes once, and none is missed.
pub fn pages_of_modifications_join(details: ReadRawModifiedDetails)
    requires { IsTrue (is_given details.start_time.0 || is_given details.end_time.0) }
    ensures { (R : Content) → IsLawfulContent R → (node : Node) → (p : Option Position)
        → (next : Position)
        → next_place (modified_position details p) details p (modified R node details p) ≡ Some next
        → modified R node details p ≡ page details p (modified R node details p)
        ++ modified R node details (Some next) }
{
    let _span = body(&details);
}

/// A page of raw values, and what follows the place where it ends, are together what was to come: over an
/// unchanged content each item comes once, and none is missed.
pub fn pages_of_raw_values_join(details: ReadRawModifiedDetails)
    requires { IsTrue (is_given details.start_time.0 || is_given details.end_time.0) }
    ensures { (R : Content) → IsLawfulContent R → (node : Node) → (p : Option Position)
        → (next : Position)
        → next_place (raw_position details p) details p (raw R node details p) ≡ Some next
        → raw R node details p ≡ page details p (raw R node details p)
        ++ raw R node details (Some next) }
{
    let _span = body(&details);
}

/// What a read without a continuation point is to show, in words of its own: the values of the stretch without bounds; with
/// bounds the near one, the values behind the origin, and the far one, or the near one alone where one value is asked for;
/// and of modifications those of the times of the stretch.
pub fn a_whole_read_is_its_stretch_and_bounds(details: ReadRawModifiedDetails)
    ensures raw { (R : Content) (node : Node) → raw R node details None ≡ whole_raw R node details }
    ensures modified { (R : Content) (node : Node)
        → modified R node details None ≡ whole_modified R node details }
{}

/// Pages that are read one after the other, from the continuation points that they answer until there is none,
/// show together the whole read of the content that the first one was of, cut at the count where a time is open:
/// whatever is learned or updated in between, and at whichever replica that covers the first one's vector each
/// is read. And wherever a read isn't refused, such pages come to an end.
pub fn pages_show_the_whole_read(details: ReadRawModifiedDetails)
    requires { IsTrue (is_given details.start_time.0 || is_given details.end_time.0) }
    ensures shows { (id : List ℕ) (node : Node) (stamps : TimestampsToReturn) (first : Page)
        (pages : List Page) → IsAsked id node details → IsLawfulContent first.content
        → AllByRecursion (λ page. IsLater first.content page.content) pages
        → Chain id node (record { details = details; stamps = stamps }) None (first ∷ pages)
        → (joined_values (first ∷ pages)
        ≡ values_in (whole_read first.content node (record { details = details; stamps = stamps })))
        × (joined_infos (first ∷ pages)
        ≡ infos_in
        (whole_read first.content node (record { details = details; stamps = stamps }))) }
    ensures ends { (id : List ℕ) (node : Node) (stamps : TimestampsToReturn)
        (contents : ℕ → Content)
        → IsAsked id node details → checked_read id node details None ≡ Ok None
        → IsLawfulContent (contents 0) → ((n : ℕ) → IsLater (contents 0) (contents n))
        → (pages : List Page) × (count : ℕ)
        × (map (λ page. page.content) pages ≡ contents_from contents 0 count)
        × Chain id node (record { details = details; stamps = stamps }) None pages }
{
    let _span = body(&details);
}

/// A content covers the vector of another one where it holds all of its records, and still does when one more is
/// learned: so pages may go on at an archive whatever it learns or updates in between.
pub fn what_grows_goes_on()
    ensures held { (R S : Content) → IsLawfulContent R → IsLawfulContent S → IsWithin R S
        → IsLater R S }
    ensures learned { (R S T : Content) (r : Record) → IsLawfulContent R → IsLater R S
        → IsLawfulRecord r
        → learned S r ≡ Some T → IsLater R T }
{}
