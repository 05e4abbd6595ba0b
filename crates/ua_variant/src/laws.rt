//! What holds of each format, and of `==`.

ghost use Rattle.std.specs.Prelude.{◌≡◌, ◌↔◌, IsTrue};
ghost use Rattle.ua_binary.specs.Format.{IsLawful, IsPrefixFree};
ghost use Rattle.ua_variant.specs.Variant.{variant};
ghost use Rattle.ua_variant.specs.DataValue.{data_value, picoseconds};
ghost use Rattle.ua_variant.specs.declared.value.Scalar.{Scalar as ScalarValue};
ghost use Rattle.ua_variant.specs.declared.value.Array.{Array as ArrayValue};
ghost use Rattle.ua_variant.specs.declared.value.Variant.{Variant as VariantValue};
ghost use Rattle.ua_variant.specs.declared.data.DataValue.{DataValue as Data};

use crate::data::DataValue;
use crate::value::{Array, Scalar, Variant};

/// What is read is spelled there; what is spelled is read, whatever follows; and what is written is a
/// spelling.
#[tactic(auto, using(crate::proofs::Masks::lawful))]
pub fn formats_are_lawful()
    ensures variant { IsLawful variant }
    ensures picoseconds { IsLawful picoseconds }
    ensures data_value { IsLawful data_value }
{}

/// No spelling is the front of another, and no two values have one spelling: so what was written is
/// read again, whatever follows.
#[tactic(auto, using(ua_binary::proofs::Spelled::prefix_free, crate::proofs::Masks::lawful))]
pub fn formats_are_prefix_free()
    ensures variant { IsPrefixFree variant }
    ensures data_value { IsPrefixFree data_value }
{}

/// `==` holds of two values where they are one, and nowhere else.
#[tactic(auto, using(crate::proofs::Equal::exact))]
pub fn equality_is_exact()
    ensures scalars { (a b : ScalarValue) → IsTrue (⟦<Scalar as PartialEq>⟧.eq a b) ↔ (a ≡ b) }
    ensures arrays { (a b : ArrayValue) → IsTrue (⟦<Array as PartialEq>⟧.eq a b) ↔ (a ≡ b) }
    ensures variants { (a b : VariantValue) → IsTrue (⟦<Variant as PartialEq>⟧.eq a b) ↔ (a ≡ b) }
    ensures data_values { (a b : Data) → IsTrue (⟦<DataValue as PartialEq>⟧.eq a b) ↔ (a ≡ b) }
{}
