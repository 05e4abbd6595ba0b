//! References, as they lie in a space (Part 3, 4.3.4).

ghost use Rattle.std.specs.Prelude.{◌≡◌, map, true, IfOk, option_map, ◌∷◌, []};
ghost use Rattle.ua_space.specs.declared.link.ReferenceType.TheVariants.{HasTypeDefinition, Organizes};

use crate::layout::Layout;
use crate::node::{Node, Variable};
use std::alloc::{AllocError, Global};

/// The types of references that there are in a space (Part 3, 7).
#[derive(Clone, Copy, Debug, PartialEq, Eq)]
pub(crate) enum ReferenceType {
    Organizes,
    HasTypeDefinition,
}

impl ReferenceType {
    ghost use Rattle.ua_space.specs.References.{reference_type_number};

    /// The number of its id in namespace 0.
    pub fn number(self) -> u32
        ensures { result ≡ reference_type_number self }
    {
        match self {
            ReferenceType::Organizes => 35,
            ReferenceType::HasTypeDefinition => 40,
        }
    }
}

/// A reference from a node, and the node that it leads to.
#[derive(Clone, Copy, Debug)]
pub(crate) struct Link<'a> {
    pub reference_type: ReferenceType,
    pub is_forward: bool,
    pub target: Node<'a>,
}

impl<'a> Link<'a> {
    ghost use Rattle.ua_space.specs.Space.{node_of};
    ghost use Rattle.ua_space.specs.References.{link_to, link_of};

    fn organizes(is_forward: bool, target: Node<'a>) -> Link<'a>
        ensures { link_of result ≡ link_to Organizes is_forward (node_of target.entry) }
    {
        Link {
            reference_type: ReferenceType::Organizes,
            is_forward,
            target,
        }
    }

    fn is_defined_by(target: Node<'a>) -> Link<'a>
        ensures { link_of result ≡ link_to HasTypeDefinition true (node_of target.entry) }
    {
        Link {
            reference_type: ReferenceType::HasTypeDefinition,
            is_forward: true,
            target,
        }
    }
}

impl<'a> Node<'a> {
    ghost use Rattle.ua_space.specs.Space.{node_of};
    ghost use Rattle.ua_space.specs.References.{type_definition, holds};

    /// The type of a node, where it has one.
    pub fn type_definition(self) -> Option<Node<'a>>
        ensures { option_map node_of result ≡ type_definition (node_of self.entry) }
    {
        match self {
            Node::Root | Node::Objects | Node::Folder(_) => Some(Node::FolderType),
            Node::Variable(_) => Some(Node::BaseDataVariableType),
            _ => None,
        }
    }

    /// Whether a variable hangs below it.
    fn holds(self, variable: &Variable) -> bool
        ensures { result ≡ holds (node_of self.entry) variable.now }
    {
        match self {
            Node::Objects => variable.folder.is_none(),
            Node::Folder(folder) => match &variable.folder {
                Some(id) => id.as_str() == folder.id.as_str(),
                None => false,
            },
            _ => false,
        }
    }
}

impl Layout {
    ghost use Rattle.ua_space.specs.Space.{Objects, OfFolder, Root, node_of};
    ghost use Rattle.ua_space.specs.References.{references, children, parent, link_of, link_to};

    /// The references of a node: to what hangs below it, to its type definition, back to what it hangs below.
    pub fn references<'a>(
        &'a self,
        alloc: Global,
        node: Node<'a>,
    ) -> Result<Vec<Link<'a>>, AllocError>
        ensures { IfOk result
            (λ links. map link_of links.items ≡ references self.now (node_of node.entry)) }
    {
        let mut links = self.children(alloc, node)?;
        if let Some(definition) = node.type_definition() {
            links.push(Link::is_defined_by(definition))?;
        }
        if let Some(parent) = self.parent(node) {
            links.push(Link::organizes(false, parent))?;
        }
        Ok(links)
    }

    /// The references to what hangs below a node.
    fn children<'a>(&'a self, alloc: Global, node: Node<'a>) -> Result<Vec<Link<'a>>, AllocError>
        ensures { IfOk result
            (λ links. map link_of links.items
            ≡ map (link_to Organizes true) (children self.now (node_of node.entry))) }
    {
        let mut links = self.objects_below(alloc, node)?;
        for variable in self.variables.as_slice() {
            if node.holds(variable) {
                links.push(Link::organizes(true, Node::Variable(variable)))?;
            }
        }
        Ok(links)
    }

    /// The references to the objects that hang below a node.
    fn objects_below<'a>(
        &'a self,
        alloc: Global,
        node: Node<'a>,
    ) -> Result<Vec<Link<'a>>, AllocError>
        ensures { IfOk result
            (λ links. map link_of links.items
            ≡ map (link_to Organizes true)
            (elim (node_of node.entry)
            [ Root ↦ Objects ∷ [] | Objects ↦ map OfFolder self.now.folders | _ ↦ [] ])) }
    {
        let mut links = Vec::new(alloc);
        match node {
            Node::Root => links.push(Link::organizes(true, Node::Objects))?,
            Node::Objects => {
                for folder in self.folders.as_slice() {
                    links.push(Link::organizes(true, Node::Folder(folder)))?;
                }
            }
            _ => {}
        }
        Ok(links)
    }

    /// What a node hangs below.
    fn parent<'a>(&'a self, node: Node<'a>) -> Option<Node<'a>>
        ensures { option_map node_of result ≡ parent self.now (node_of node.entry) }
    {
        match node {
            Node::Objects => Some(Node::Root),
            Node::Folder(_) => Some(Node::Objects),
            Node::Variable(variable) => match &variable.folder {
                None => Some(Node::Objects),
                Some(id) => match self.find_folder(id.as_str()) {
                    Some(folder) => Some(Node::Folder(folder)),
                    None => None,
                },
            },
            _ => None,
        }
    }
}
