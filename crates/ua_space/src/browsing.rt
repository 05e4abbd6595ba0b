//! What a browse finds (Part 4, 5.9.2).

ghost use Rattle.ua_services.specs.declared.browsing.BrowseDirection.TheVariants.{Both, Forward, Inverse};
ghost use Rattle.ua_space.specs.declared.link.ReferenceType.TheVariants.{HasTypeDefinition, Organizes};
ghost use Rattle.ua_binary.specs.declared.values.NodeId.TheVariants.{Numeric};
ghost use Rattle.ua_space.specs.Nodes.{id_of};
ghost use Rattle.std.specs.Prelude.{◌≡◌, map, filter, Ok, if◌then◌else◌, None, Some, not, true, ◌==◌, ◌||◌, ◌∷◌, []};
ghost use Rattle.ua_binary.specs.Binary.{node_of as id_of_lent};
ghost use Rattle.ua_binary.specs.Format.{IsOrStarved};
ghost use Rattle.ua_variant.specs.DataValue.{has};
ghost use Rattle.ua_services.specs.Browsing.{browse_fields, class_number};
ghost use Rattle.ua_space.specs.References.{is_followed, shown_reference, link_of, type_definition, reference_type_number};

use crate::asked_types::standard_number;
use crate::link::{Link, ReferenceType};
use std::alloc::Global;
use ua_binary::{BinaryFault, Listing, LocalizedText, NodeId, NodeIdRef, QualifiedName, Status};
use ua_services::{BrowseDescription, BrowseDirection, NodeClass, ReferenceDescription};

/// The null id.
const NO_NODE: NodeId = NodeId::Numeric(0, 0);

/// The fields of a reference (Part 4, 5.9.2).
const REFERENCE_TYPE: u32 = 1;

const IS_FORWARD: u32 = 2;

const NODE_CLASS: u32 = 4;

const BROWSE_NAME: u32 = 8;

const DISPLAY_NAME: u32 = 16;

const TYPE_DEFINITION: u32 = 32;

/// Whether a bit of a mask is set.
fn has_bit(mask: u32, bit: u32) -> bool
    ensures { result ≡ has mask bit }
{
    mask & bit != 0
}

impl ReferenceType {
    ghost use Rattle.std.specs.Prelude.{nat_eq};
    ghost use Rattle.std.specs.List.{list_any};
    ghost use Rattle.ua_space.specs.References.{is_of_type};

    /// Whether it is the asked type, or a subtype of that where these count.
    fn is_of(self, id: NodeIdRef<'_>, include_subtypes: bool) -> bool
        ensures { result ≡ is_of_type (id_of_lent id.entry) include_subtypes self }
    {
        match standard_number(id) {
            None => false,
            Some(number) => {
                number == 0
                    || number == self.number()
                    || include_subtypes && self.is_subtype_of(number)
            }
        }
    }

    /// Whether it is a subtype of References (31), and of NonHierarchicalReferences (32) or
    /// HierarchicalReferences (33).
    fn is_subtype_of(self, number: u32) -> bool
        ensures { result
            ≡ list_any (nat_eq number)
            (elim self [ Organizes ↦ 33 ∷ 31 ∷ [] | HasTypeDefinition ↦ 32 ∷ 31 ∷ [] ]) }
    {
        match self {
            ReferenceType::Organizes => matches!(number, 33 | 31),
            ReferenceType::HasTypeDefinition => matches!(number, 32 | 31),
        }
    }
}

/// Whether a reference is followed.
fn is_along(direction: BrowseDirection, is_forward: bool) -> bool
    ensures { result
        ≡ (elim direction [ Forward ↦ is_forward | Inverse ↦ not is_forward | Both ↦ true ]) }
{
    match direction {
        BrowseDirection::Forward => is_forward,
        BrowseDirection::Inverse => !is_forward,
        BrowseDirection::Both => true,
    }
}

/// Whether nodes of this class are wanted: each class is a bit of the mask, and 0 asks for all.
fn wants_class(mask: u32, class: NodeClass) -> bool
    ensures { result ≡ (mask == 0 || has mask (class_number class)) }
{
    mask == 0 || has_bit(mask, u32::from(class.number()))
}

impl Link<'_> {
    ghost use Rattle.ua_space.specs.References.{is_followed, link_of};

    /// Whether a description asks for it.
    fn is_followed(self, direction: BrowseDirection, description: &BrowseDescription<'_>) -> bool
        ensures { result ≡ is_followed direction (browse_fields description.now) (link_of self.entry) }
    {
        is_along(direction, self.is_forward)
            && self.reference_type.is_of(
                description.reference_type_id,
                description.include_subtypes,
            )
            && wants_class(description.node_class_mask, self.target.class())
    }
}

/// The references that a description asks for, in their order.
pub(crate) fn tell(
    alloc: Global,
    direction: BrowseDirection,
    description: &BrowseDescription<'_>,
    links: &[Link<'_>],
) -> Result<Listing<ReferenceDescription>, Status>
    ensures { IsOrStarved Status.BAD_OUT_OF_MEMORY
        (Ok
        (map (shown_reference description.now.result_mask)
        (filter (is_followed direction (browse_fields description.now))
        (map link_of links.now)))) result }
{
    let mut references = Vec::new(alloc);
    for link in links {
        if link.is_followed(direction, description) {
            references.push(link.told(alloc, description.result_mask)?)?;
        }
    }
    Ok(Listing::of(references))
}

impl Link<'_> {
    ghost use Rattle.ua_services.specs.declared.browsing.NodeClass.TheVariants.{Unspecified};
    ghost use Rattle.ua_space.specs.Space.{node_of, browse_name_of, display_name_of};
    ghost use Rattle.ua_space.specs.Nodes.{class_of};
    ghost use Rattle.ua_space.specs.References.{shown_reference, link_of};

    /// The fields whose bits are set.
    fn told(self, alloc: Global, mask: u32) -> Result<ReferenceDescription, BinaryFault>
        ensures { IsOrStarved BinaryFault.OutOfMemory
            (Ok (shown_reference mask (link_of self.entry))) result }
    {
        let node_id = self.target.id().to_owned(alloc)?;
        let browse_name = self.wanted_name(alloc, has_bit(mask, BROWSE_NAME))?;
        let display_name = self.wanted_text(alloc, has_bit(mask, DISPLAY_NAME))?;
        let type_definition = self.wanted_definition(alloc, has_bit(mask, TYPE_DEFINITION))?;
        Ok(ReferenceDescription {
            reference_type_id: self.wanted_type(has_bit(mask, REFERENCE_TYPE)),
            is_forward: has_bit(mask, IS_FORWARD) && self.is_forward,
            node_id,
            browse_name,
            display_name,
            node_class: self.wanted_class(has_bit(mask, NODE_CLASS)),
            type_definition,
        })
    }

    /// The type, where it is wanted.
    fn wanted_type(self, wanted: bool) -> NodeId
        ensures { result
            ≡ (if wanted then Numeric 0 (reference_type_number self.entry.reference_type)
            else Numeric 0 0) }
    {
        if wanted {
            NodeId::Numeric(0, self.reference_type.number())
        } else {
            NO_NODE
        }
    }

    /// The class of the target, where it is wanted.
    fn wanted_class(self, wanted: bool) -> NodeClass
        ensures { result ≡ (if wanted then class_of (node_of self.entry.target) else Unspecified) }
    {
        if wanted {
            self.target.class()
        } else {
            NodeClass::Unspecified
        }
    }

    /// The browse name of the target, where it is wanted.
    fn wanted_name(self, alloc: Global, wanted: bool) -> Result<QualifiedName, BinaryFault>
        ensures { IsOrStarved BinaryFault.OutOfMemory
            (Ok
            (if wanted then browse_name_of (node_of self.entry.target)
            else record { namespace = 0; name = None })) result }
    {
        if wanted {
            self.target.browse_name().to_owned(alloc)
        } else {
            Ok(QualifiedName {
                namespace: 0,
                name: None,
            })
        }
    }

    /// The display name of the target, where it is wanted.
    fn wanted_text(self, alloc: Global, wanted: bool) -> Result<LocalizedText, BinaryFault>
        ensures { IsOrStarved BinaryFault.OutOfMemory
            (Ok
            (if wanted then display_name_of (node_of self.entry.target)
            else record { locale = None; text = None })) result }
    {
        if wanted {
            self.target.display_name().to_owned(alloc)
        } else {
            Ok(LocalizedText {
                locale: None,
                text: None,
            })
        }
    }

    /// The type definition of the target, where it is wanted and there is one.
    fn wanted_definition(self, alloc: Global, wanted: bool) -> Result<NodeId, BinaryFault>
        ensures { IsOrStarved BinaryFault.OutOfMemory
            (Ok
            (if wanted
            then
            (elim (type_definition (node_of self.entry.target))
            [ None ↦ Numeric 0 0 | Some type ↦ id_of type ]) else Numeric 0 0)) result }
    {
        match self.target.type_definition() {
            Some(definition) if wanted => definition.id().to_owned(alloc),
            _ => Ok(NO_NODE),
        }
    }
}
