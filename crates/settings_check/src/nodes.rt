//! The folders and variables of a space, as a client finds them.

ghost use Rattle.std.specs.Prelude.{◌≡◌, ◌++◌, Some, false, map, IfOk, OnOk};
ghost use Rattle.ua_binary.specs.Binary.{node_of as id_of_lent};
ghost use Rattle.ua_binary.specs.declared.values.NodeId.TheVariants.{Named, Numeric};
ghost use Rattle.ua_services.specs.Browsing.{browse_fields};
ghost use Rattle.ua_services.specs.declared.browsing.BrowseDirection.TheVariants.{Forward};
ghost use Rattle.ua_space.specs.Space.{Node, node_at};
ghost use Rattle.settings_check.specs.Nodes.{variables_below, variables_in_folders, variable_ids};

use std::alloc::{AllocError, Global};
use ua_binary::{Listing, NodeId, NodeIdRef};
use ua_services::{BrowseDescription, BrowseDirection, ReferenceDescription};
use ua_space::Space;

/// What is asked to find the nodes of some classes below a node: each class is a bit.
fn asked(node: NodeIdRef<'_>, classes: u32) -> BrowseDescription<'_>
    ensures { browse_fields result ≡ (
      id_of_lent node.entry,
      (Some Forward, (Numeric 0 35, (false, (classes, 0)))),
    ) }
{
    BrowseDescription {
        node_id: node,
        direction: Some(BrowseDirection::Forward),
        reference_type_id: NodeIdRef::Numeric(0, 35),
        include_subtypes: false,
        node_class_mask: classes,
        result_mask: 0,
    }
}

/// References to the folders of a space, in the order of the settings.
pub(crate) fn folders_of(space: &Space) -> Result<Listing<ReferenceDescription>, AllocError>
    ensures { IfOk result (λ found.
        map (λ r. r.node_id) found ≡ map (λ folder. Named 1 folder.id) space.now.folders) }
{
    match space.browse(&asked(NodeIdRef::Numeric(0, 85), 1)) {
        Ok(found) => Ok(found),
        Err(_) => Err(AllocError),
    }
}

/// References to the variables below a node, in the order of the settings.
fn variables_below(
    space: &Space,
    node: NodeIdRef<'_>,
) -> Result<Listing<ReferenceDescription>, AllocError>
    ensures { IfOk result (λ found. (n : Node) → node_at space.now (id_of_lent node.entry) ≡ Some n
        → map (λ r. r.node_id) found ≡ variables_below space.now n) }
{
    match space.browse(&asked(node, 2)) {
        Ok(found) => Ok(found),
        Err(_) => Err(AllocError),
    }
}

/// Appends the ids of the nodes that references lead to.
fn put_ids(
    out: &mut Vec<NodeId>,
    references: Listing<ReferenceDescription>,
) -> Result<(), AllocError>
    ensures { OnOk result (out.new.items ≡ out.old.items ++ map (λ r. r.node_id) references) }
{
    for reference in references.into_vec() {
        out.push(reference.node_id)?;
    }
    Ok(())
}

/// Appends the ids of the variables in the folders of a space.
fn put_foldered(
    out: &mut Vec<NodeId>,
    space: &Space,
    folders: &[ReferenceDescription],
) -> Result<(), AllocError>
    requires { map (λ r. r.node_id) folders.now
        ≡ map (λ folder. Named 1 folder.id) space.now.folders }
    ensures { OnOk result (out.new.items ≡ out.old.items ++ variables_in_folders space.now) }
{
    for folder in folders {
        put_ids(out, variables_below(space, folder.node_id.as_ref())?)?;
    }
    Ok(())
}

/// The ids of the variables of a space: those in no folder, then folder by folder.
pub(crate) fn variables_of(alloc: Global, space: &Space) -> Result<Vec<NodeId>, AllocError>
    ensures { IfOk result (λ ids. ids.items ≡ variable_ids space.now) }
{
    let mut ids = Vec::new(alloc);
    put_ids(&mut ids, variables_below(space, NodeIdRef::Numeric(0, 85))?)?;
    put_foldered(&mut ids, space, folders_of(space)?.as_slice())?;
    Ok(ids)
}
