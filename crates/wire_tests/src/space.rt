//! An address space, browsed and read.

use std::alloc::Global;
use ua_binary::{NodeIdRef, Status};
use ua_services::{BrowseDescription, BrowseDirection};
use ua_session::Access;
use ua_space::{Answered, BuildFault, Plan, Space, VariablePlan};
use ua_variant::{Scalar, Variant};

/// The variable `T`, an Int32, in Objects.
const T: VariablePlan<'static> = VariablePlan {
    id: "T",
    name: "T",
    type_name: "Int32",
    array: false,
    folder: None,
};

/// The space with that variable alone.
fn space_of_one(alloc: Global) -> Result<Space, BuildFault> {
    Space::build(
        alloc,
        &Plan {
            namespace: "urn:uahist:archive",
            folders: &[],
            variables: &[T],
        },
    )
}

type Direction = Option<BrowseDirection>;

const FORWARD: Direction = Some(BrowseDirection::Forward);

/// What a browse with all fields is refused by, along a type of references and its subtypes.
fn refusal(space: &Space, node: u32, reference_type: u32, direction: Direction) -> Option<Status> {
    let asked = BrowseDescription {
        node_id: NodeIdRef::Numeric(0, node),
        direction,
        reference_type_id: NodeIdRef::Numeric(0, reference_type),
        include_subtypes: true,
        node_class_mask: 0,
        result_mask: 63,
    };
    space.browse(&asked).err()
}

/// A node, a type of references, a direction, and what a browse is refused by.
static REFUSED: [(u32, u32, Direction, Status); 3] = [
    (86, 33, FORWARD, Status::BAD_NODE_ID_UNKNOWN),
    (85, 36, FORWARD, Status::BAD_REFERENCE_TYPE_ID_INVALID),
    (85, 33, None, Status::BAD_BROWSE_DIRECTION_INVALID),
];

/// Whether each of them is refused so.
fn are_refused(space: &Space) -> bool {
    for (node, reference_type, direction, status) in &REFUSED {
        if refusal(space, *node, *reference_type, *direction) != Some(*status) {
            return false;
        }
    }
    true
}

/// Whether both are the same.
fn are_same<T: PartialEq + Drop>(told: T, wanted: T) -> bool {
    told == wanted
}

/// An attribute that is this byte.
fn byte(level: u8) -> Result<Answered, Status> {
    Ok(Answered::Value(Variant::Scalar(Scalar::Byte(level))))
}

/// Whether the value's attribute 17 says that it may be read and written, in history too.
fn is_writable(space: &Space) -> bool {
    are_same(space.read_attribute(NodeIdRef::Named(1, "T"), 17), byte(13))
}

/// The variable of the space, and the state of the server.
const VALUE: NodeIdRef<'static> = NodeIdRef::Named(1, "T");

const STATE: NodeIdRef<'static> = NodeIdRef::Numeric(0, 2259);

/// What a user may do, a node, and the bytes of its attributes 17 and 18.
static LEVELS: [(Access, NodeIdRef<'static>, u8, u8); 4] = [
    (Access::Read, VALUE, 13, 5),
    (Access::Write, VALUE, 13, 13),
    (Access::Read, STATE, 1, 1),
    (Access::Write, STATE, 1, 1),
];

/// Whether an attribute of a node is this byte, for a user who may do this.
fn is_level(space: &Space, access: Access, node: NodeIdRef<'_>, attribute: u32, level: u8) -> bool {
    are_same(
        space.read_attribute_for(access, node, attribute),
        byte(level),
    )
}

/// Whether each user is told these levels.
fn are_levels(space: &Space) -> bool {
    for (access, node, level, user_level) in &LEVELS {
        if !is_level(space, *access, *node, 17, *level)
            || !is_level(space, *access, *node, 18, *user_level)
        {
            return false;
        }
    }
    true
}

/// What is asked of the space.
#[derive(Clone, Copy)]
enum Asked {
    Browses,
    Attributes,
    Levels,
}

/// Whether a space answers it so.
fn answers(space: &Space, asked: Asked) -> bool {
    match asked {
        Asked::Browses => are_refused(space),
        Asked::Attributes => is_writable(space),
        Asked::Levels => are_levels(space),
    }
}

/// Whether the space with that variable alone answers it so.
fn is_answered(alloc: Global, asked: Asked) -> Result<bool, BuildFault> {
    let space = space_of_one(alloc)?;
    Ok(answers(&space, asked))
}

#[test]
fn browses_are_refused(rt: HostRuntime) {
    assert_eq!(rt; is_answered(rt.alloc(), Asked::Browses), Ok(true));
}

#[test]
fn attributes_are_told(rt: HostRuntime) {
    assert_eq!(rt; is_answered(rt.alloc(), Asked::Attributes), Ok(true));
}

#[test]
fn levels_are_told_to_each_user(rt: HostRuntime) {
    assert_eq!(rt; is_answered(rt.alloc(), Asked::Levels), Ok(true));
}
