//! Laws of contents and of records. Each function's contract is a law, and its body is empty.

ghost use Rattle.std.specs.Prelude.{◌≡◌, ◌↔◌, IsTrue, true, false, Result, Ok, ℕ, ◌+◌, ◌≤◌, ◌<◌, max, min, ℤ, pos, ◌≤ℤ◌, ◌<ℤ◌, List, length, filter, take, Option, Some, None, ◌⊎◌};
ghost use Rattle.std.specs.Int.{int_max};
ghost use Rattle.std.specs.declared.cmp.Ordering.TheVariants.{Less};
ghost use Rattle.stamp.specs.Limits.{greatest};
ghost use Rattle.records.specs.Lists.{Has, Rises};
ghost use Rattle.records.specs.Contents.{Content, IsClosed, AreCompatible, IsWithin, IsNext, AreNextInTurn, IsFound, IsLatest, HasName, HasOther, Finding, Adds, Holds, Clash, Gap, TickTooFar, TickNotRising, finding, learned, put, join, cut, vec, top, last_tick, merged};
ghost use Rattle.records.specs.Records.{name_cmp, record_stamp_cmp, missing, is_beyond, is_delete, versions, live_value, modifications_at};
ghost use Rattle.stamp.specs.Stamp as stamps;
ghost use Rattle.records.specs.Lists.{IsApart};
ghost use Rattle.records.specs.Spelling.{record_form, record_at};
ghost use Rattle.ua_binary.specs.Format.{IsLawful, IsPrefixFree};
ghost use Rattle.records.specs.declared.shown.Held.{Held};
ghost use Rattle.ua_binary.specs.declared.values.NodeId.{NodeId};
ghost use Rattle.records.specs.declared.record.Record.{Record};
ghost use Rattle.records.specs.Same.{same_record};
ghost use Rattle.records.specs.Moments.{moment, ticks_of, pico_of};

use crate::record::Record as OwnRecord;

/// Merging is a join: on closed contents that are compatible it commutes, associates, repeats without
/// change, and is the least content above both; its vector is the greater of both in each origin.
#[tactic(auto, using(crate::proofs::ContentLemmas::joins))]
pub fn merging_is_a_join()
    ensures commutes { (R S : Content) → IsClosed R → IsClosed S → AreCompatible R S → join R S ≡ join S R }
    ensures associates { (R S T : Content) → IsClosed R → IsClosed S → IsClosed T
        → AreCompatible R S → AreCompatible R T → AreCompatible S T
        → join (join R S) T ≡ join R (join S T) }
    ensures repeats { (R : Content) → IsClosed R → join R R ≡ R }
    ensures closed { (R S : Content) → IsClosed R → IsClosed S → AreCompatible R S → IsClosed (join R S) }
    ensures members { (R S : Content) (r : Record) → AreCompatible R S
        → Has (join R S) r ↔ (Has R r ⊎ Has S r) }
    ensures above_left { (R S : Content) → AreCompatible R S → IsWithin R (join R S) }
    ensures above_right { (R S : Content) → AreCompatible R S → IsWithin S (join R S) }
    ensures least { (R S T : Content) → IsWithin R T → IsWithin S T → IsWithin (join R S) T }
    ensures vectors { (R S : Content) → AreCompatible R S → (origin : ℕ)
        → vec (join R S) origin ≡ max (vec R origin) (vec S origin) }
{}

/// Where contents are compatible, equal vectors mean equal contents: a closed content holds of each
/// origin exactly its first records, as many as its vector says.
#[tactic(auto, using(crate::proofs::ContentLemmas::same_content))]
pub fn equal_vectors_mean_equal_contents()
    ensures { (R S : Content) → IsClosed R → IsClosed S → AreCompatible R S
        → ((origin : ℕ) → vec R origin ≡ vec S origin) → R ≡ S }
{}

/// No record is lost from view: a write is the live value, or the next record's entry shows it; a
/// delete stands as an entry of its kind, with its tick, origin and user.
#[tactic(auto, using(crate::proofs::FoundLemmas::found))]
pub fn each_record_is_found()
    ensures { (R : Content) (r : Record) → Has R r → IsFound R r }
{}

/// Learning, in order, all that a peer has beyond one's vector gives the join of both.
#[tactic(auto, using(crate::proofs::MissingLemmas::merged_missing))]
pub fn learning_what_is_missing_joins()
    ensures { (R S : Content) (k : ℕ) → IsClosed R → IsClosed S → AreCompatible R S
        → length (filter (is_beyond (vec R)) S) ≤ k → merged (missing S (vec R) k) R ≡ join R S }
{}

/// The part of a content that a vector covers: it is closed, and its vector is the lesser of both in
/// each origin; the content's own vector covers all of it; of what two contents cover both, they hold
/// the same; it goes through merging, so that what was held before is found again.
#[tactic(auto, using(crate::proofs::CutLemmas::cuts))]
pub fn vectors_cut_contents()
    ensures vector { (R : Content) (v : ℕ → ℕ) → IsClosed R → (origin : ℕ)
        → vec (cut R v) origin ≡ min (vec R origin) (v origin) }
    ensures closed { (R : Content) (v : ℕ → ℕ) → IsClosed R → IsClosed (cut R v) }
    ensures whole { (R : Content) → IsClosed R → cut R (vec R) ≡ R }
    ensures same { (R S : Content) (v : ℕ → ℕ) → IsClosed R → IsClosed S → AreCompatible R S
        → ((origin : ℕ) → v origin ≤ vec R origin) → ((origin : ℕ) → v origin ≤ vec S origin)
        → cut R v ≡ cut S v }
    ensures joined { (R S : Content) (v : ℕ → ℕ) → IsClosed R → IsClosed S → AreCompatible R S
        → cut (join R S) v ≡ join (cut R v) (cut S v) }
    ensures back { (R S : Content) → IsClosed R → IsClosed S → AreCompatible R S
        → cut (join R S) (vec R) ≡ R }
{}

/// The live value is that of the greatest stamp: none where that is a delete, or where no record
/// stands; and it is told apart whether another record stands there.
#[tactic(auto, using(crate::proofs::LatestLemmas::latest))]
pub fn current_is_the_latest()
    ensures deleted { (R : Content) (r : Record) → IsApart record_stamp_cmp R → IsLatest R r
        → is_delete r.asked ≡ true → live_value R r.node r.time ≡ None }
    ensures written { (R : Content) (r : Record) → IsApart record_stamp_cmp R → IsLatest R r
        → is_delete r.asked ≡ false
        → (h : Held) × (live_value R r.node r.time ≡ Some h) × (h.value ≡ r.value) × (h.time ≡ r.time)
        × ((h.extra ≡ true) ↔ HasOther R r) }
    ensures none { (R : Content) (node : NodeId) (time : ℤ)
        → ((s : Record) → Has R s → s.node ≡ node → s.time ≡ time → ⊥)
        → live_value R node time ≡ None }
{}

/// The order of a list is free: a story rises by stamp and has exactly the records of its node and
/// source time, so lists with the same records show the same live value and the same modifications;
/// and what a vector lacks of them is the same.
#[tactic(auto, using(crate::proofs::LatestLemmas::free))]
pub fn the_order_of_records_is_free()
    ensures rises { (R : List Record) (node : NodeId) (time : ℤ) → IsApart record_stamp_cmp R
        → Rises record_stamp_cmp (versions R node time) }
    ensures story { (R : List Record) (node : NodeId) (time : ℤ) (r : Record)
        → Has (versions R node time) r ↔ (Has R r × (r.node ≡ node) × (r.time ≡ time)) }
    ensures current { (R S : List Record) (node : NodeId) (time : ℤ) → IsApart record_stamp_cmp R
        → IsApart record_stamp_cmp S
        → ((r : Record) → Has R r ↔ Has S r) → live_value R node time ≡ live_value S node time }
    ensures entries { (R S : List Record) (node : NodeId) (time : ℤ) → IsApart record_stamp_cmp R
        → IsApart record_stamp_cmp S
        → ((r : Record) → Has R r ↔ Has S r)
        → modifications_at R node time ≡ modifications_at S node time }
    ensures missing { (R S : List Record) (v : ℕ → ℕ) (limit : ℕ) → IsApart name_cmp R → IsApart name_cmp S
        → ((r : Record) → Has R r ↔ Has S r) → missing R v limit ≡ missing S v limit }
    ensures stamps { (r s : Record)
        → record_stamp_cmp r s
        ≡ stamps.stamp_cmp (record { tick = r.tick; origin = r.origin })
        (record { tick = s.tick; origin = s.origin }) }
{}

/// Of a closed content no two records have one name or one stamp, and no number passes 2^62 - 1.
#[tactic(auto, using(crate::proofs::CloseLemmas::closeness))]
pub fn closed_contents_are_told_apart()
    ensures names { (R : Content) → IsClosed R → IsApart name_cmp R }
    ensures stamps { (R : Content) → IsClosed R → IsApart record_stamp_cmp R }
    ensures numbers { (R : Content) (origin : ℕ) → IsClosed R → vec R origin ≤ greatest }
{}

/// What a record meets: it is added exactly where it is its origin's next with a lawful tick; where it
/// is said to be held, it is; what a content has learned is closed, and holds what it held.
#[tactic(auto, using(crate::proofs::LearnLemmas::learning))]
pub fn learning_keeps_contents_closed()
    ensures adds { (R : Content) (r : Record) → (finding R r ≡ Adds) ↔ IsNext R r }
    ensures holds { (R : Content) (r : Record) → finding R r ≡ Holds → Has R r }
    ensures held { (R : Content) (r : Record) → Has R r → finding R r ≡ Holds }
    ensures closed { (R : Content) (r : Record) (S : Content) → IsClosed R → learned R r ≡ Some S
        → IsClosed S }
    ensures within { (R : Content) (r : Record) (S : Content) → learned R r ≡ Some S → IsWithin R S × Has S r }
    ensures only { (R : Content) (r : Record) (S : Content) (z : Record) → learned R r ≡ Some S → Has S z
        → Has R z ⊎ (r ≡ z) }
{}

/// What one more record changes: the content has it and what it had; where it is its origin's next,
/// its number and its tick are its origin's last, and the content stays closed. No other origin's last
/// number or tick changes, and the greatest tick is the greater of both.
#[tactic(auto, using(crate::proofs::ChangeLemmas::changes))]
pub fn one_more_record_changes_its_origin_alone()
    ensures members { (R : Content) (r z : Record) → Has (put r R) z ↔ ((r ≡ z) ⊎ Has R z) }
    ensures number { (R : Content) (r : Record) → IsNext R r → vec (put r R) r.origin ≡ r.number }
    ensures other_numbers { (R : Content) (r : Record) (origin : ℕ) → (r.origin ≡ origin → ⊥)
        → vec (put r R) origin ≡ vec R origin }
    ensures tick { (R : Content) (r : Record) → IsNext R r → last_tick (put r R) r.origin ≡ r.tick }
    ensures other_ticks { (R : Content) (r : Record) (origin : ℕ) → (r.origin ≡ origin → ⊥)
        → last_tick (put r R) origin ≡ last_tick R origin }
    ensures top { (R : Content) (r : Record) → top (put r R) ≡ int_max r.tick (top R) }
    ensures closed { (R : Content) (r : Record) → IsClosed R → IsNext R r → IsClosed (put r R) }
{}

/// An origin's last number and last tick, and the greatest tick of all, are greatest ones: no record
/// has a greater one, and where they aren't 0 a record has them. Of a closed content the record with
/// its origin's last number has its last tick, and no number passes the tick that goes with it.
#[tactic(auto, using(crate::proofs::GreatestLemmas::greatest_members))]
pub fn last_numbers_and_ticks_are_the_greatest()
    ensures numbers { (R : Content) (r : Record) → Has R r → r.number ≤ vec R r.origin }
    ensures number_held { (R : Content) (origin : ℕ) → (vec R origin ≡ 0) ⊎ HasName R origin (vec R origin) }
    ensures ticks { (R : Content) (r : Record) → Has R r → r.tick ≤ℤ top R }
    ensures tick_held { (R : Content) → (top R ≡ pos 0) ⊎ ((r : Record) × Has R r × (r.tick ≡ top R)) }
    ensures last_ticks { (R : Content) (r : Record) (origin : ℕ) → Has R r → r.origin ≡ origin
        → r.tick ≤ℤ last_tick R origin }
    ensures last_tick_held { (R : Content) (origin : ℕ)
        → (last_tick R origin ≡ pos 0)
        ⊎ ((r : Record) × Has R r × (r.origin ≡ origin) × (r.tick ≡ last_tick R origin)) }
    ensures last_of_last { (R : Content) (r : Record) → IsClosed R → Has R r → r.number ≡ vec R r.origin
        → r.tick ≡ last_tick R r.origin }
    ensures last_within { (R : Content) (origin : ℕ) → last_tick R origin ≤ℤ top R }
    ensures numbers_below_ticks { (R : Content) (origin : ℕ) → IsClosed R → pos (vec R origin) ≤ℤ last_tick R origin }
{}

/// What a vector lacks of a content: records of it that are beyond the vector, rising by name; all of
/// them where the limit allows, and else the first. It is empty only where nothing is beyond, or the
/// limit is 0.
#[tactic(auto, using(crate::proofs::LackLemmas::lacking))]
pub fn missing_is_what_a_vector_lacks()
    ensures within { (R : Content) (v : ℕ → ℕ) (k : ℕ) (r : Record) → Has (missing R v k) r
        → Has R r × (v r.origin < r.number) }
    ensures all { (R : Content) (v : ℕ → ℕ) (k : ℕ) (r : Record) → length (filter (is_beyond v) R) ≤ k
        → Has R r → v r.origin < r.number → Has (missing R v k) r }
    ensures rises { (R : Content) (v : ℕ → ℕ) (k : ℕ) → IsApart name_cmp R → Rises name_cmp (missing R v k) }
    ensures before { (R : Content) (v : ℕ → ℕ) (k : ℕ) (r s : Record) → IsApart name_cmp R
        → Has (missing R v k) r → Has R s → v s.origin < s.number
        → Has (missing R v k) s ⊎ (name_cmp r s ≡ Less) }
    ensures first { (R : Content) (v : ℕ → ℕ) (k n : ℕ) → k ≤ n → missing R v k ≡ take k (missing R v n) }
    ensures count { (R : Content) (v : ℕ → ℕ) (k : ℕ)
        → length (missing R v k) ≡ min k (length (filter (is_beyond v) R)) }
    ensures some { (R : Content) (v : ℕ → ℕ) (k : ℕ) (r : Record) → 0 < k → Has R r → v r.origin < r.number
        → 0 < length (missing R v k) }
{}

/// Learning a batch in order, up to the first record that is refused: what is held then is closed, and
/// is what was held and records of the batch alone. It stays compatible with what a content that the
/// batch is of is compatible with.
pub fn batches_keep_contents_closed()
    ensures closed { (R : Content) (batch : List Record) → IsClosed R → IsClosed (merged batch R) }
    ensures above { (R : Content) (batch : List Record) → IsWithin R (merged batch R) }
    ensures only { (R : Content) (batch : List Record) (r : Record) → Has (merged batch R) r
        → Has R r ⊎ Has batch r }
    ensures compatible { (R S T : Content) (batch : List Record) → AreCompatible R T → AreCompatible S T
        → IsWithin batch S → AreCompatible (merged batch R) T }
{}

/// Learning, in order, a first part of what a peer has beyond one's vector: each record of the part is
/// the next in its turn, so all of them are learned. What is held then (closed, as after any batch) is
/// within the join of both, and compatible with either.
#[tactic(auto, using(crate::proofs::PartLemmas::parts))]
pub fn a_first_part_of_what_is_missing_is_learned()
    ensures turn { (R S : Content) (k m : ℕ) → IsClosed R → IsClosed S → AreCompatible R S
        → AreNextInTurn R (take m (missing S (vec R) k)) }
    ensures members { (R S : Content) (k m : ℕ) (r : Record) → IsClosed R → IsClosed S → AreCompatible R S
        → Has (merged (take m (missing S (vec R) k)) R) r
        ↔ (Has R r ⊎ Has (take m (missing S (vec R) k)) r) }
    ensures count { (R S : Content) (k m : ℕ) → IsClosed R → IsClosed S → AreCompatible R S
        → length (merged (take m (missing S (vec R) k)) R)
        ≡ length R + length (take m (missing S (vec R) k)) }
    ensures within { (R S : Content) (k m : ℕ) → AreCompatible R S
        → IsWithin (merged (take m (missing S (vec R) k)) R) (join R S) }
    ensures compatible_left { (R S : Content) (k m : ℕ) → IsClosed R → AreCompatible R S
        → AreCompatible (merged (take m (missing S (vec R) k)) R) R }
    ensures compatible_right { (R S : Content) (k m : ℕ) → IsClosed S → AreCompatible R S
        → AreCompatible (merged (take m (missing S (vec R) k)) R) S }
{}

/// Inclusion is an order on contents that rise by name; on closed contents that are compatible it is the
/// order of their vectors.
#[tactic(auto, using(crate::proofs::InclusionLemmas::inclusion))]
pub fn inclusion_is_an_order()
    ensures reflexive { (R : Content) → IsWithin R R }
    ensures transitive { (R S T : Content) → IsWithin R S → IsWithin S T → IsWithin R T }
    ensures antisymmetric { (R S : Content) → Rises name_cmp R → Rises name_cmp S → IsWithin R S → IsWithin S R
        → R ≡ S }
    ensures vectors { (R S : Content) → IsClosed R → IsClosed S → AreCompatible R S
        → IsWithin R S ↔ ((origin : ℕ) → vec R origin ≤ vec S origin) }
{}

/// What a refusal means. A clash: of a closed content, the record's name is held and the record isn't.
/// A gap: its number is above the next one. The others come for its origin's next number alone: its
/// tick is beyond the greatest one, or it isn't, and is not above the origin's last.
#[tactic(auto, using(crate::proofs::RefusalLemmas::refusals))]
pub fn each_refusal_has_its_meaning()
    ensures clash { (R : Content) (r : Record) → IsClosed R → 1 ≤ r.number
        → (finding R r ≡ Clash) ↔ (HasName R r.origin r.number × (Has R r → ⊥)) }
    ensures gap { (R : Content) (r : Record) (held got : ℕ)
        → (finding R r ≡ Gap held got)
        ↔ ((held ≡ vec R r.origin) × (got ≡ r.number) × (held + 1 < got)) }
    ensures tick_too_far { (R : Content) (r : Record)
        → (finding R r ≡ TickTooFar)
        ↔ ((r.number ≡ vec R r.origin + 1) × (pos greatest <ℤ r.tick)) }
    ensures tick_not_rising { (R : Content) (r : Record) → (finding R r ≡ TickNotRising)
        ↔
        ((r.number ≡ vec R r.origin + 1) × (r.tick ≤ℤ pos greatest)
        × (r.tick ≤ℤ last_tick R r.origin)) }
{}

/// A moment is one integer, which tells its ticks and its picoseconds, and they tell it: moments are
/// ordered by ticks, and within a tick by picoseconds.
#[tactic(auto, using(crate::proofs::Moments::moments))]
pub fn moments_are_ticks_and_picoseconds()
    ensures ticks { (t : ℤ) (p : ℕ) → p ≤ 9999 → ticks_of (moment t p) ≡ t }
    ensures pico { (t : ℤ) (p : ℕ) → p ≤ 9999 → pico_of (moment t p) ≡ p }
    ensures whole { (m : ℤ) → moment (ticks_of m) (pico_of m) ≡ m }
    ensures within { (m : ℤ) → pico_of m ≤ 9999 }
    ensures order { (a b : ℤ) (p q : ℕ) → p ≤ 9999 → q ≤ 9999
        → (moment a p <ℤ moment b q) ↔ ((a <ℤ b) ⊎ ((a ≡ b) × (p < q))) }
{}

/// The bytes of a record: what is spelled is read and nothing else is, what is written is a spelling,
/// and the record that all of some bytes spell is the one that is read of them.
#[tactic(auto, using(crate::proofs::Spelled::spelled))]
pub fn formats_are_lawful()
    ensures record { IsLawful record_form }
    ensures found { (bytes : List ℕ) (r : Record) → record_at bytes ≡ Ok r → record_form.Spells bytes r }
    ensures only { (bytes : List ℕ) (r : Record) → record_form.Spells bytes r → record_at bytes ≡ Ok r }
{}

/// No spelling is the front of another, and no two records have one spelling.
#[tactic(auto, using(ua_binary::proofs::Spelled::prefix_free, crate::proofs::Spelled::record_lawful))]
pub fn formats_are_prefix_free()
    ensures record { IsPrefixFree record_form }
{}

/// `==` holds of two records where they are one, and nowhere else: it is the test by which contents
/// tell records apart.
#[tactic(auto, using(crate::proofs::Equal::exact))]
pub fn equality_is_exact()
    ensures records { (a b : Record) → IsTrue (⟦<OwnRecord as PartialEq>⟧.eq a b) ↔ (a ≡ b) }
    ensures tested { (a b : Record) → ⟦<OwnRecord as PartialEq>⟧.eq a b ≡ same_record a b }
{}
