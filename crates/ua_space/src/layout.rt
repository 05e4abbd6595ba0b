//! What a space is made of, and the node of an id.

ghost use Rattle.std.specs.Prelude.{◌≡◌, find, nat_eq, option_map, option_copied};
ghost use Rattle.std.specs.Cmp.Lexicographic.{pointwise};
ghost use Rattle.ua_binary.specs.Binary.{node_of as id_of_lent};

use crate::index::{Place, Places};
use crate::node::{Folder, NAMESPACE, Node, STANDARD, Variable};
use ua_binary::{Listing, NodeIdRef, Text};

/// The URI of namespace 1, and the folders and variables in the order of the plan.
#[derive(Debug, Drop)]
pub(crate) struct Layout {
    pub namespace: Text,
    pub folders: Listing<Folder>,
    pub variables: Listing<Variable>,
}

impl Layout {
    ghost use Rattle.ua_binary.specs.declared.values.NodeId.TheVariants.{Named};
    ghost use Rattle.ua_space.specs.Space.{node_at, node_of};
    ghost use Rattle.ua_space.specs.Index.{at_place, has_folder_id, IsIndexOf, node_in, planned_nodes};

    /// The node of this id.
    #[tactic(auto, using(crate::proofs::Nodes::anywhere))]
    pub fn find(&self, places: &Places, id: NodeIdRef<'_>) -> Option<Node<'_>>
        requires { IsIndexOf self.now places.now }
        ensures { option_map node_of result ≡ node_at self.now (id_of_lent id.entry) }
    {
        match id {
            NodeIdRef::Numeric(namespace, number) => {
                if namespace == STANDARD {
                    Node::standard(number)
                } else {
                    None
                }
            }
            NodeIdRef::Named(namespace, id) => {
                if namespace == NAMESPACE {
                    self.find_planned(places, id)
                } else {
                    None
                }
            }
            NodeIdRef::Global(..) | NodeIdRef::Opaque(..) => None,
        }
    }

    /// The folder or variable of this id.
    fn find_planned(&self, places: &Places, id: &str) -> Option<Node<'_>>
        requires { IsIndexOf self.now places.now }
        ensures { option_map node_of result ≡ node_in (planned_nodes self.now) (Named 1 id.now) }
    {
        match places.get(id) {
            Some(place) => self.at(*place),
            None => None,
        }
    }

    /// What stands at a place.
    fn at(&self, place: Place) -> Option<Node<'_>>
        ensures { option_map node_of result ≡ at_place self.now place }
    {
        match place {
            Place::Folder(i) => match self.folders.as_slice().get(i) {
                Some(folder) => Some(Node::Folder(folder)),
                None => None,
            },
            Place::Variable(i) => match self.variables.as_slice().get(i) {
                Some(variable) => Some(Node::Variable(variable)),
                None => None,
            },
        }
    }

    /// The folder of this id.
    pub fn find_folder(&self, id: &str) -> Option<&Folder>
        ensures { option_copied result ≡ find (has_folder_id id.now) self.now.folders }
    {
        self.folders.iter().find(|folder| folder.id.as_str() == id)
    }
}
