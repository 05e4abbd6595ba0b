//! What holds of vectors and stamps.

ghost use Rattle.std.specs.Prelude.{◌≡◌, ℕ, List, length};
ghost use Rattle.std.specs.Cmp.{IsTotalOrder};
ghost use Rattle.ua_binary.specs.Format.{IsLawful, IsPrefixFree};
ghost use Rattle.stamp.specs.declared.stamps.Stamp.{Stamp as StampValue};
ghost use Rattle.stamp.specs.Stamp.{stamp_cmp};
ghost use Rattle.stamp.specs.Numbers.{number_of, IsVector};
ghost use Rattle.stamp.specs.Vector.{vector, entry_list, IsVectorOf};

use crate::stamps::Stamp;

/// What is read is spelled there; what is spelled is read, whatever follows; and what is written is
/// a spelling.
#[tactic(auto, using(crate::proofs::Lawful::vector_lawful))]
pub fn formats_are_lawful()
    ensures vector { IsLawful vector }
{}

/// No spelling is the front of another, and no two vectors have one spelling: so what was written
/// is read again, whatever follows.
#[tactic(auto, using(ua_binary::proofs::Spelled::prefix_free, crate::proofs::Lawful::vector_lawful))]
pub fn formats_are_prefix_free()
    ensures vector { IsPrefixFree vector }
{}

/// A vector is a map from replicas to numbers: two with the same number at each replica are equal.
#[tactic(auto, using(crate::proofs::Maps::same_vectors))]
pub fn vectors_are_maps()
    ensures { (a b : List ℕ) → IsVector a → IsVector b
        → ((replica : ℕ) → number_of a replica ≡ number_of b replica) → a ≡ b }
{}

/// Bytes spell a vector where they spell entries that tell its numbers: at each replica that they
/// name its number, and 0 at every other. What is spelled so is a vector.
#[tactic(auto, using(crate::proofs::Telling::tellings))]
pub fn vectors_are_told()
    ensures vector { (bytes numbers : List ℕ) → vector.Spells bytes numbers → IsVector numbers }
    ensures told { (bytes numbers : List ℕ) → vector.Spells bytes numbers
        → (es : List (ℕ × ℕ)) × entry_list.Spells bytes es × IsVectorOf es numbers }
    ensures spelled { (bytes numbers : List ℕ) (es : List (ℕ × ℕ)) → length numbers ≡ 64
        → entry_list.Spells bytes es → IsVectorOf es numbers → vector.Spells bytes numbers }
{}

/// Stamps are in a total order, and it is the one by which they compare: by tick, then origin.
#[tactic(auto, using(crate::proofs::Orders::stamp_total))]
pub fn stamps_are_ordered()
    ensures total { IsTotalOrder stamp_cmp }
    ensures derived { (a b : StampValue) → ⟦<Stamp as Ord>⟧.cmp a b ≡ stamp_cmp a b }
{}
