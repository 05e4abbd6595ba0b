//! Attributes of nodes.

ghost use Rattle.ua_variant.specs.declared.value.Variant.TheVariants as variant;
ghost use Rattle.ua_variant.specs.declared.value.Array.TheVariants as array;
ghost use Rattle.ua_space.specs.declared.attributes.Answered.TheVariants.{Value};
ghost use Rattle.ua_variant.specs.declared.value.Scalar.TheVariants as scalar;
ghost use Rattle.std.specs.Map.{lookup};
ghost use Rattle.std.specs.Prelude.{◌≡◌, MatchResult, option_map, IfOk, Ok, Some, codes, nat_eq, ◌∷◌, []};

use crate::layout::Layout;
use crate::node::Node;
use std::alloc::{AllocError, Global};
use ua_binary::{Listing, NodeId, Status, Text};
use ua_session::Access;
use ua_variant::{Array, Scalar, ValueType, Variant};

/// What an attribute is answered (Part 4, 5.11.2).
#[derive(Debug, Drop, PartialEq, Eq)]
pub enum Answered {
    /// This value.
    Value(Variant),
    /// The archive gives the value.
    Archived,
}

/// The numbers of the attributes (Part 6, A.1).
const NODE_ID: u32 = 1;

const NODE_CLASS: u32 = 2;

const BROWSE_NAME: u32 = 3;

const DISPLAY_NAME: u32 = 4;

const EVENT_NOTIFIER: u32 = 12;

const VALUE: u32 = 13;

const DATA_TYPE: u32 = 14;

const VALUE_RANK: u32 = 15;

const ACCESS_LEVEL: u32 = 17;

const USER_ACCESS_LEVEL: u32 = 18;

const HISTORIZING: u32 = 20;

/// The level of access of a variable whose value alone is read (Part 3, 8.57).
const READ_ONLY: u8 = 0x01;

/// The level of access of a variable whose history is read too.
const READ_HISTORY: u8 = 0x05;

/// The level of access of a variable whose history is read and written too.
const READ_AND_HISTORY: u8 = 0x0D;

/// The data type String (Part 5).
const STRING: u32 = 12;

/// The data type ServerState, an enumeration.
const SERVER_STATE: u32 = 852;

/// The notifier of an object without events (Part 3, 8.59).
const NO_EVENTS: u8 = 0;

/// The state Running of a server.
const RUNNING: i32 = 0;

/// The URI of namespace 0.
const STANDARD_NAMESPACE: &str = "http://opcfoundation.org/UA/";

/// What a variable has, its value aside.
#[derive(Clone, Copy)]
struct VariableClass {
    data_type: u32,
    is_array: bool,
    /// What may be done with it, and what of that by this user.
    level: u8,
    user_level: u8,
    historizing: bool,
}

const NAMESPACE_ARRAY: VariableClass = VariableClass {
    data_type: STRING,
    is_array: true,
    level: READ_ONLY,
    user_level: READ_ONLY,
    historizing: false,
};

const STATE: VariableClass = VariableClass {
    data_type: SERVER_STATE,
    is_array: false,
    level: READ_ONLY,
    user_level: READ_ONLY,
    historizing: false,
};

impl VariableClass {
    ghost use Rattle.std.specs.Prelude.{true, ok_or};
    ghost use Rattle.ua_space.specs.Attributes.{variable_attributes, user_level};

    /// A variable of the plan, for a user who may do this.
    fn archived(value_type: ValueType, access: Access) -> VariableClass
        ensures { result
            ≡ record {
              data_type = value_type.number;
              is_array = value_type.array;
              level = 13;
              user_level = user_level access;
              historizing = true;
            } }
    {
        VariableClass {
            data_type: u32::from(value_type.number),
            is_array: value_type.array,
            level: READ_AND_HISTORY,
            user_level: match access {
                Access::Read => READ_HISTORY,
                Access::Write => READ_AND_HISTORY,
            },
            historizing: true,
        }
    }

    /// An attribute of a variable that isn't its value.
    fn attribute(self, attribute: u32) -> Result<Answered, Status>
        ensures { result
            ≡ ok_or
            (lookup (nat_eq attribute)
            (variable_attributes self.data_type self.is_array self.level self.user_level
            self.historizing)) Status.BAD_ATTRIBUTE_ID_INVALID }
    {
        let value = match attribute {
            DATA_TYPE => Scalar::NodeId(NodeId::Numeric(0, self.data_type)),
            VALUE_RANK => Scalar::Int32(if self.is_array { 1 } else { -1 }),
            ACCESS_LEVEL => Scalar::Byte(self.level),
            USER_ACCESS_LEVEL => Scalar::Byte(self.user_level),
            HISTORIZING => Scalar::Boolean(self.historizing),
            _ => return Err(Status::BAD_ATTRIBUTE_ID_INVALID),
        };
        Ok(Answered::one(value))
    }
}

impl Answered {
    ghost use Rattle.ua_space.specs.Attributes.{one};

    /// One value.
    fn one(value: Scalar) -> Answered
        ensures { result ≡ one value }
    {
        Answered::Value(Variant::Scalar(value))
    }
}

impl Layout {
    ghost use Rattle.std.specs.Prelude.{ok_or};
    ghost use Rattle.ua_space.specs.Space.{node_of};
    ghost use Rattle.ua_space.specs.Attributes.{attributes, own_attributes};
    ghost use Rattle.ua_binary.specs.Format.{IsOrStarved};

    /// An attribute of a node, for a user who may do this. `BAD_ATTRIBUTE_ID_INVALID` where the node has none of this number.
    pub fn attribute(
        &self,
        alloc: Global,
        access: Access,
        node: Node<'_>,
        attribute: u32,
    ) -> Result<Answered, Status>
        ensures { IsOrStarved Status.BAD_OUT_OF_MEMORY
            (ok_or
            (lookup (nat_eq attribute)
            (attributes self.now access
            (node_of node.entry))) Status.BAD_ATTRIBUTE_ID_INVALID) result }
    {
        let value = match attribute {
            NODE_ID => Scalar::NodeId(node.id().to_owned(alloc)?),
            NODE_CLASS => Scalar::Int32(i32::from(node.class().number())),
            BROWSE_NAME => Scalar::QualifiedName(node.browse_name().to_owned(alloc)?),
            DISPLAY_NAME => Scalar::LocalizedText(node.display_name().to_owned(alloc)?),
            _ => return self.own_attribute(alloc, access, node, attribute),
        };
        Ok(Answered::one(value))
    }

    /// An attribute that not all nodes have.
    fn own_attribute(
        &self,
        alloc: Global,
        access: Access,
        node: Node<'_>,
        attribute: u32,
    ) -> Result<Answered, Status>
        ensures { IsOrStarved Status.BAD_OUT_OF_MEMORY
            (ok_or
            (lookup (nat_eq attribute)
            (own_attributes self.now access
            (node_of node.entry))) Status.BAD_ATTRIBUTE_ID_INVALID) result }
    {
        match node {
            Node::Root | Node::Objects | Node::Folder(_) => Answered::of_object(attribute),
            Node::NamespaceArray if attribute == VALUE => self.namespace_array(alloc),
            Node::NamespaceArray => NAMESPACE_ARRAY.attribute(attribute),
            Node::State if attribute == VALUE => Ok(Answered::one(Scalar::Int32(RUNNING))),
            Node::State => STATE.attribute(attribute),
            Node::Variable(_) if attribute == VALUE => Ok(Answered::Archived),
            Node::Variable(variable) => {
                VariableClass::archived(variable.value_type, access).attribute(attribute)
            }
            Node::FolderType | Node::BaseDataVariableType => {
                Err(Status::BAD_ATTRIBUTE_ID_INVALID)
            }
        }
    }

    /// The URIs of the namespaces, in the order of their indices.
    fn namespace_array(&self, alloc: Global) -> Result<Answered, Status>
        ensures { IsOrStarved Status.BAD_OUT_OF_MEMORY
            (Ok
            (Value
            (variant.Array
            (array.String
            (Some (codes "http://opcfoundation.org/UA/") ∷ Some self.now.namespace
            ∷ []))))) result }
    {
        let mut uris = Vec::new(alloc);
        uris.push(Some(Text::from_str(alloc, STANDARD_NAMESPACE)?))?;
        uris.push(Some(Text::from_str(alloc, self.namespace.as_str())?))?;
        Ok(Answered::Value(Variant::Array(Array::String(Listing::of(uris)))))
    }
}

impl Answered {
    ghost use Rattle.std.specs.Prelude.{ok_or};
    ghost use Rattle.ua_space.specs.Attributes.{one};

    /// An attribute of an object.
    fn of_object(attribute: u32) -> Result<Answered, Status>
        ensures { result
            ≡ ok_or
            (lookup (nat_eq attribute)
            ((12, one (scalar.Byte 0)) ∷ [])) Status.BAD_ATTRIBUTE_ID_INVALID }
    {
        if attribute == EVENT_NOTIFIER {
            Ok(Answered::one(Scalar::Byte(NO_EVENTS)))
        } else {
            Err(Status::BAD_ATTRIBUTE_ID_INVALID)
        }
    }
}
