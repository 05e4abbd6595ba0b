//! The nodes of a space, and the types of these.

ghost use Rattle.ua_space.specs.Space.{NamespaceArray, Objects, Root, State, OfFolder, OfVariable};
ghost use Rattle.std.specs.Prelude.{◌≡◌, ◌∷◌, []};

use ua_binary::{LocalizedRef, NodeIdRef, QualifiedRef, Text};
use ua_services::NodeClass;
use ua_variant::ValueType;

/// The namespace of the standard.
pub(crate) const STANDARD: u16 = 0;

/// The namespace of the ids and names of folders and variables.
pub(crate) const NAMESPACE: u16 = 1;

/// A folder.
#[derive(Debug, Drop)]
pub(crate) struct Folder {
    pub id: Text,
    pub name: Text,
}

/// A variable whose values are archived.
#[derive(Debug, Drop)]
pub(crate) struct Variable {
    pub id: Text,
    pub name: Text,
    pub value_type: ValueType,
    /// The id of its folder; none: it is in Objects.
    pub folder: Option<Text>,
}

/// A node of a space, or a type of these. The types are no nodes of the space: references lead to them.
#[derive(Clone, Copy, Debug)]
pub(crate) enum Node<'a> {
    Root,
    Objects,
    NamespaceArray,
    State,
    Folder(&'a Folder),
    Variable(&'a Variable),
    /// The type of folders, and of Root and Objects.
    FolderType,
    /// The type of the variables of the plan.
    BaseDataVariableType,
}

impl<'a> Node<'a> {
    ghost use Rattle.std.specs.Prelude.{option_map};
    ghost use Rattle.ua_binary.specs.Binary.{node_of as id_of_lent, qualified_of, localized_of};
    ghost use Rattle.ua_binary.specs.declared.values.NodeId.TheVariants.{Numeric};
    ghost use Rattle.ua_space.specs.Space.{node_of, browse_name_of, display_name_of};
    ghost use Rattle.ua_space.specs.Nodes.{id_of, class_of, name_of};
    ghost use Rattle.ua_space.specs.Index.{node_in};

    /// The node of this number in namespace 0.
    pub fn standard(number: u32) -> Option<Node<'a>>
        ensures { option_map node_of result
            ≡ node_in (Root ∷ Objects ∷ NamespaceArray ∷ State ∷ []) (Numeric 0 number) }
    {
        match number {
            84 => Some(Node::Root),
            85 => Some(Node::Objects),
            2255 => Some(Node::NamespaceArray),
            2259 => Some(Node::State),
            _ => None,
        }
    }

    pub fn id(self) -> NodeIdRef<'a>
        ensures { id_of_lent result ≡ id_of (node_of self.entry) }
    {
        match self {
            Node::Root => NodeIdRef::Numeric(STANDARD, 84),
            Node::Objects => NodeIdRef::Numeric(STANDARD, 85),
            Node::NamespaceArray => NodeIdRef::Numeric(STANDARD, 2255),
            Node::State => NodeIdRef::Numeric(STANDARD, 2259),
            Node::Folder(folder) => NodeIdRef::Named(NAMESPACE, folder.id.as_str()),
            Node::Variable(variable) => NodeIdRef::Named(NAMESPACE, variable.id.as_str()),
            Node::FolderType => NodeIdRef::Numeric(STANDARD, 61),
            Node::BaseDataVariableType => NodeIdRef::Numeric(STANDARD, 63),
        }
    }

    pub fn class(self) -> NodeClass
        ensures { result ≡ class_of (node_of self.entry) }
    {
        match self {
            Node::Root | Node::Objects | Node::Folder(_) => NodeClass::Object,
            Node::NamespaceArray | Node::State | Node::Variable(_) => NodeClass::Variable,
            Node::FolderType => NodeClass::ObjectType,
            Node::BaseDataVariableType => NodeClass::VariableType,
        }
    }

    fn name(self) -> &'a str
        ensures { result.now ≡ name_of (node_of self.entry) }
    {
        match self {
            Node::Root => "Root",
            Node::Objects => "Objects",
            Node::NamespaceArray => "NamespaceArray",
            Node::State => "State",
            Node::Folder(folder) => folder.name.as_str(),
            Node::Variable(variable) => variable.name.as_str(),
            Node::FolderType => "FolderType",
            Node::BaseDataVariableType => "BaseDataVariableType",
        }
    }

    fn namespace(self) -> u16
        ensures { result
            ≡ (elim (node_of self.entry)
            [ OfFolder folder ↦ 1 | OfVariable variable ↦ 1 | _ ↦ 0 ]) }
    {
        match self {
            Node::Folder(_) | Node::Variable(_) => NAMESPACE,
            _ => STANDARD,
        }
    }

    pub fn browse_name(self) -> QualifiedRef<'a>
        ensures { qualified_of result ≡ browse_name_of (node_of self.entry) }
    {
        QualifiedRef {
            namespace: self.namespace(),
            name: Some(self.name()),
        }
    }

    /// The name, in no language.
    pub fn display_name(self) -> LocalizedRef<'a>
        ensures { localized_of result ≡ display_name_of (node_of self.entry) }
    {
        LocalizedRef {
            locale: None,
            text: Some(self.name()),
        }
    }
}
