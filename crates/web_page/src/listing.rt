//! The variables of a space, as the page lists them.

ghost use Rattle.std.specs.Prelude.{◌≡◌, ◌++◌, Some, None, false, map, unwrap_or, [], List, ℕ, Option, IfOk, OnOk};
ghost use Rattle.ua_binary.specs.Binary.{node_of as id_of_lent};
ghost use Rattle.ua_binary.specs.declared.values.NodeId.TheVariants.{Named, Numeric};
ghost use Rattle.ua_services.specs.Browsing.{browse_fields};
ghost use Rattle.ua_services.specs.declared.browsing.BrowseDirection.TheVariants.{Forward};
ghost use Rattle.ua_space.specs.Space.{Node, node_at};
ghost use Rattle.web_page.specs.Listing.{listed_below, listed_in_folders, listed_variables, told_in, named};

use std::alloc::{AllocError, Global};
use ua_binary::{Listing, NodeId, NodeIdRef, Text, TryClone};
use ua_services::{BrowseDescription, BrowseDirection, ReferenceDescription};
use ua_space::Space;

/// A variable as it is listed.
#[derive(Debug, Drop)]
pub(crate) struct Listed {
    /// The name of its folder; none: it is in none.
    pub(crate) folder: Option<Text>,
    pub(crate) name: Text,
    pub(crate) node: NodeId,
}

/// What is asked to find the nodes of some classes below a node, with their names: each class is a
/// bit.
fn asked(node: NodeIdRef<'_>, classes: u32) -> BrowseDescription<'_>
    ensures { browse_fields result ≡ (
      id_of_lent node.entry,
      (Some Forward, (Numeric 0 35, (false, (classes, 16)))),
    ) }
{
    BrowseDescription {
        node_id: node,
        direction: Some(BrowseDirection::Forward),
        reference_type_id: NodeIdRef::Numeric(0, 35),
        include_subtypes: false,
        node_class_mask: classes,
        result_mask: 16,
    }
}

/// References to the folders of a space, in the order of the settings.
fn folders_of(space: &Space) -> Result<Listing<ReferenceDescription>, AllocError>
    ensures { IfOk result (λ found. map named found
        ≡ map (λ folder. (Named 1 folder.id, Some folder.name)) space.now.folders) }
{
    match space.browse(&asked(NodeIdRef::Numeric(0, 85), 1)) {
        Ok(found) => Ok(found),
        Err(_) => Err(AllocError),
    }
}

/// References to the variables below a node, in the order of the settings.
fn variables_below(
    space: &Space,
    node: NodeIdRef<'_>,
) -> Result<Listing<ReferenceDescription>, AllocError>
    ensures { IfOk result (λ found. (n : Node) → (folder : Option (List ℕ))
        → node_at space.now (id_of_lent node.entry) ≡ Some n
        → map (told_in folder) found ≡ listed_below space.now folder n) }
{
    match space.browse(&asked(node, 2)) {
        Ok(found) => Ok(found),
        Err(_) => Err(AllocError),
    }
}

/// A text, an empty one where there is none.
fn text_or_empty(alloc: Global, text: Option<Text>) -> Text
    ensures { result ≡ unwrap_or text [] }
{
    match text {
        Some(text) => text,
        None => Text::new(String::new(alloc)),
    }
}

/// The variable that a reference leads to, as it is listed in a folder.
fn listed_of(
    alloc: Global,
    folder: &Option<Text>,
    reference: ReferenceDescription,
) -> Result<Listed, AllocError>
    ensures { IfOk result (λ one. one ≡ told_in folder.now reference) }
{
    let folder = folder.try_clone()?;
    let shown = reference.display_name;
    let name = text_or_empty(alloc, shown.text);
    Ok(Listed {
        folder,
        name,
        node: reference.node_id,
    })
}

/// Appends the variables that references lead to, as they are listed in a folder.
fn put_listed(
    alloc: Global,
    out: &mut Vec<Listed>,
    folder: &Option<Text>,
    references: Listing<ReferenceDescription>,
) -> Result<(), AllocError>
    ensures { OnOk result (out.new.items ≡ out.old.items ++ map (told_in folder.now) references) }
{
    for reference in references.into_vec() {
        out.push(listed_of(alloc, folder, reference)?)?;
    }
    Ok(())
}

/// Appends the variables in the folders of a space.
fn put_foldered(
    alloc: Global,
    out: &mut Vec<Listed>,
    space: &Space,
    folders: &[ReferenceDescription],
) -> Result<(), AllocError>
    requires { map named folders.now
        ≡ map (λ folder. (Named 1 folder.id, Some folder.name)) space.now.folders }
    ensures { OnOk result (out.new.items ≡ out.old.items ++ listed_in_folders space.now) }
{
    for folder in folders {
        let found = variables_below(space, folder.node_id.as_ref())?;
        put_listed(alloc, out, &folder.display_name.text, found)?;
    }
    Ok(())
}

/// The variables of a space: those in no folder, then folder by folder.
pub(crate) fn variables_of(alloc: Global, space: &Space) -> Result<Vec<Listed>, AllocError>
    ensures { IfOk result (λ listed. listed.items ≡ listed_variables space.now) }
{
    let mut listed = Vec::new(alloc);
    let loose = variables_below(space, NodeIdRef::Numeric(0, 85))?;
    put_listed(alloc, &mut listed, &None, loose)?;
    put_foldered(alloc, &mut listed, space, folders_of(space)?.as_slice())?;
    Ok(listed)
}
