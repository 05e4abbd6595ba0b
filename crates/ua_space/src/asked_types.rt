//! The types of references that a browse may ask for.

ghost use Rattle.std.specs.Prelude.{◌≡◌, ◌==◌, nat_eq, if◌then◌else◌, Some, None, ◌∷◌, []};
ghost use Rattle.std.specs.List.{list_any};
ghost use Rattle.ua_binary.specs.Binary.{node_of as id_of_lent};
ghost use Rattle.ua_binary.specs.declared.values.NodeId.TheVariants.{Numeric};
ghost use Rattle.ua_space.specs.References.{is_reference_type as is_reference_type_id};

use crate::node::STANDARD;
use ua_binary::NodeIdRef;

/// The number of an id of namespace 0.
pub(crate) fn standard_number(id: NodeIdRef<'_>) -> Option<u32>
    ensures { result
        ≡ (elim (id_of_lent id.entry)
        [ Numeric namespace number ↦ if namespace == 0 then Some number else None | _ ↦ None ]) }
{
    match id {
        NodeIdRef::Numeric(namespace, number) => {
            if namespace == STANDARD {
                Some(number)
            } else {
                None
            }
        }
        NodeIdRef::Named(..) | NodeIdRef::Global(..) | NodeIdRef::Opaque(..) => None,
    }
}

/// Whether a browse may ask for it: a type of Part 5, or no type at all.
pub(crate) fn is_reference_type(id: NodeIdRef<'_>) -> bool
    ensures { result ≡ is_reference_type_id (id_of_lent id.entry) }
{
    match standard_number(id) {
        None => false,
        Some(number) => is_asked(number),
    }
}

/// Whether a browse may ask for the type of this number.
fn is_asked(number: u32) -> bool
    ensures { result
        ≡ list_any (nat_eq number) (0 ∷ 31 ∷ 32 ∷ 33 ∷ 34 ∷ 35 ∷ 40 ∷ 44 ∷ 45 ∷ 46 ∷ 47 ∷ []) }
{
    matches!(number, 0 | 31 | 32 | 33 | 34 | 35 | 40 | 44 | 45 | 46 | 47)
}
