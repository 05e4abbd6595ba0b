//! Laws of the queries. Each function's contract is a law, and its body is empty.

ghost use Rattle.std.specs.Prelude.{◌≡◌, ◌⊎◌, ◌↔◌, ℕ, ◌+◌, ℤ, true, false, drop, slice_get, List, Bool, Option, Some, None, unwrap_or, Result};
ghost use Rattle.ua_binary.specs.declared.values.NodeId.{NodeId};
ghost use Rattle.records.specs.Lists.{Has, IsPairwise};
ghost use Rattle.records.specs.Contents.{Content, IsClosed, Adds, finding, learned, put};
ghost use Rattle.records.specs.declared.record.Record.{Record};
ghost use Rattle.records.specs.declared.shown.Held.{Held};
ghost use Rattle.records.specs.declared.shown.Entry.{Entry};
ghost use Rattle.archive.specs.Reading.{is_past, follows, place_of, range_of, log_of, outside_of};
ghost use Rattle.archive.specs.Queries.{IsInRange, IsInLog, IsNearest, HasNonePast};
ghost use Rattle.archive.specs.declared.reading.Direction.{Direction};
ghost use Rattle.archive.specs.declared.reading.LogPlace.{LogPlace};
ghost use Rattle.archive.specs.declared.fault.StoreFault.{StoreFault};
ghost use Rattle.archive.specs.declared.fault.StoreFault.TheVariants as store;
ghost use Rattle.archive.specs.declared.fault.LearnFault.{LearnFault};
ghost use Rattle.archive.specs.Store.{IsQuiescent, KeepsContent, CountsFaults, Learns, store_fault_in, answer_to, IsLeft};
ghost use Rattle.archive.specs.Listed.{Listed};
ghost use Rattle.archive.specs.Scripted.{Scripted};

use crate::archive::Archive;
use crate::list_archive::ListArchive;
use crate::scripted::ScriptedArchive;

/// A range has the live values between its two times and no others, each once: in its direction, each
/// is strictly beyond those before it.
#[tactic(auto, using(crate::proofs::Ranges::ranges))]
pub fn ranges_have_the_live_values()
    ensures members { (R : Content) (node : NodeId) (from to : ℤ) (d : Direction) (h : Held)
        → Has (range_of R node from to d) h ↔ IsInRange R node from to h }
    ensures order { (R : Content) (node : NodeId) (from to : ℤ) (d : Direction)
        → IsPairwise (λ a b. is_past d a.time b.time ≡ true) (range_of R node from to d) }
{}

/// A log has the modifications between its two times that stand behind the place given, and no others.
/// Of a closed content it has each once: each stands behind the places of those before it. What is
/// behind the place of one of them is what follows it, so that a reading goes on where it stopped.
pub fn logs_have_the_modifications()
    ensures members { (R : Content) (node : NodeId) (from to : ℤ) (after : Option LogPlace) (d : Direction)
        (e : Entry) → Has (log_of R node from to after d) e ↔ IsInLog R node from to after d e }
    ensures order { (R : Content) (node : NodeId) (from to : ℤ) (after : Option LogPlace) (d : Direction)
        → IsClosed R
        → IsPairwise (λ a b. follows d (Some (place_of a)) b ≡ true)
        (log_of R node from to after d) }
    ensures resumes { (R : Content) (node : NodeId) (from to : ℤ) (after : Option LogPlace) (d : Direction)
        (k : ℕ) (e : Entry) → IsClosed R
        → slice_get (log_of R node from to after d) k ≡ Some e
        → log_of R node from to (Some (place_of e)) d
        ≡ drop (k + 1) (log_of R node from to after d) }
{}

/// The value outside is the live value nearest to a time among those strictly beyond it, and there is
/// none exactly where no live value is beyond it.
#[tactic(auto, using(crate::proofs::Ranges::outside_none))]
pub fn outside_is_the_nearest()
    ensures nearest { (R : Content) (node : NodeId) (time : ℤ) (d : Direction) (h : Held)
        → (outside_of R node time d ≡ Some h) ↔ IsNearest R node time d h }
    ensures none { (R : Content) (node : NodeId) (time : ℤ) (d : Direction)
        → (outside_of R node time d ≡ None) ↔ HasNonePast R node time d }
{}

/// An archive in memory returns what was written to it, in every state, and its one fault is want of
/// memory; it is never broken. A script breaks it, and doesn't make it lie.
pub fn memory_is_honest()
    ensures listed { (a : Listed) → (⟦<ListArchive as Archive>⟧.state a).honest }
    ensures unbroken { (a : Listed) → (⟦<ListArchive as Archive>⟧.state a).broken ≡ false }
    ensures memory { (a : Listed) (f : StoreFault) → (⟦<ListArchive as Archive>⟧.state a).meets f
        → f ≡ store.OutOfMemory }
    ensures scripted { (a : Scripted) → (⟦<ScriptedArchive as Archive>⟧.state a).honest }
{}

/// An archive in use is left with its content and with nothing else. Whatever a call that leaves the content as it is leaves was left
/// before; and whatever a call of `learn` leaves is of something that was left before: it answered what the record meets there, and
/// added it there or nothing. Where a fault of the store came it is what was left before, or, where it broke the store, that with the one record, which it takes in.
pub fn what_is_held_goes_on<A: Archive>()
    ensures alone { (a : A) (R : Content) → IsQuiescent (A.state a) → (A.state a).honest
        → (A.state a).broken ≡ false → IsLeft (A.state a) R ↔ (R ≡ (A.state a).content) }
    ensures stays { (a b : A) (faults : List StoreFault) (S : Content) → KeepsContent (A.state a) (A.state b)
        → CountsFaults (A.state a) (A.state b) faults → (A.state b).honest
        → IsLeft (A.state b) S → IsLeft (A.state a) S }
    ensures learned { (a b : A) (r : Record) (result : Result Bool LearnFault) (S : Content)
        → Learns (A.state a) (A.state b) r result → store_fault_in result ≡ None
        → (A.state b).honest
        → IsLeft (A.state b) S
        → (R : Content) × IsLeft (A.state a) R × (result ≡ answer_to (finding R r))
        × (S ≡ unwrap_or (learned R r) R) }
    ensures unlearned { (a b : A) (r : Record) (result : Result Bool LearnFault) (fault : StoreFault)
        (S : Content) → Learns (A.state a) (A.state b) r result → store_fault_in result ≡ Some fault
        → (A.state b).honest
        → IsLeft (A.state b) S
        → (R : Content) × IsLeft (A.state a) R
        × ((S ≡ R)
        ⊎
        (((A.state a).broken ≡ false) × (fault ≡ store.Broken) × (finding R r ≡ Adds)
        × (S ≡ put r R))) }
{}
