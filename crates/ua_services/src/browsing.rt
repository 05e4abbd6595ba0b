//! What a Browse asks and answers (Part 4, 5.9.2).

ghost use Rattle.std.specs.Prelude.{◌≡◌, List, pos, map, IfOk};
ghost use Rattle.std.specs.Int.{w32};
ghost use Rattle.ua_binary.specs.Format.{Puts, PutsPart, Reads, ReadsUnless, ◌▸◌};
ghost use Rattle.ua_binary.specs.Binary.{node_id, ticks, unsigned};
ghost use Rattle.ua_binary.specs.declared.codes.Status.{Status};
ghost use Rattle.ua_binary.specs.declared.values.NodeId.TheVariants.{Numeric};
ghost use Rattle.ua_services.specs.Unkept.{unkept};
ghost use Rattle.ua_services.specs.Browsing.{direction_of, browse_direction, BrowseFields, browse_fields, browse_description, browse_request, ReferenceFields, reference_fields, reference_description, IsShortReference, browsed_fields, browse_result, IsShortBrowsed, AreShortBrowsed, AreBrowsed, browse_response};

use crate::first::{OF_A_THOUSAND, read_first};
use crate::many::{many_size, put_many, put_null_array};
use std::alloc::{AllocError, Global};
use ua_binary::{
    BinaryFault, Cursor, Decode, Encode, Listing, LocalizedText, NodeId, NodeIdRef, QualifiedName,
    Status, TryClone, or_undone, put_boolean, put_bytes, put_i32, put_localized, put_node_id,
    put_qualified, put_status,
};

/// Which references are followed (Part 4, 7.5).
#[derive(Clone, Copy, Debug, PartialEq, Eq)]
pub enum BrowseDirection {
    Forward,
    Inverse,
    Both,
}

/// The direction of a number; another than 0 to 2 has none.
fn direction_of(number: i32) -> Option<BrowseDirection>
    ensures { result ≡ direction_of number }
{
    match number {
        0 => Some(BrowseDirection::Forward),
        1 => Some(BrowseDirection::Inverse),
        2 => Some(BrowseDirection::Both),
        _ => None,
    }
}

/// What kind of node a node is (Part 3, 8.29).
#[derive(Clone, Copy, Debug, PartialEq, Eq)]
pub enum NodeClass {
    /// No class is told.
    Unspecified,
    Object,
    Variable,
    Method,
    ObjectType,
    VariableType,
    ReferenceType,
    DataType,
    View,
}

impl NodeClass {
    ghost use Rattle.ua_services.specs.Browsing.{class_number};

    /// Its number: 0, or a bit of a mask of classes.
    pub fn number(self) -> u8
        ensures { result ≡ class_number self }
    {
        match self {
            NodeClass::Unspecified => 0,
            NodeClass::Object => 1,
            NodeClass::Variable => 2,
            NodeClass::Method => 4,
            NodeClass::ObjectType => 8,
            NodeClass::VariableType => 16,
            NodeClass::ReferenceType => 32,
            NodeClass::DataType => 64,
            NodeClass::View => 128,
        }
    }
}

/// What is browsed (Part 4, 5.9.2), in the bytes that it was read from.
#[derive(Clone, Copy, Debug, Drop)]
pub struct BrowseDescription<'a> {
    pub node_id: NodeIdRef<'a>,
    /// None where the number is no direction.
    pub direction: Option<BrowseDirection>,
    /// The null id stands for all types.
    pub reference_type_id: NodeIdRef<'a>,
    pub include_subtypes: bool,
    /// The classes of the nodes that are wanted, a bit each; 0 stands for all.
    pub node_class_mask: u32,
    /// The fields of a reference that are wanted, a bit each.
    pub result_mask: u32,
}

/// What a Browse asks (Part 4, 5.9.2).
#[derive(Debug, Drop)]
pub struct BrowseRequest<'a> {
    /// The first 1,001 at most.
    pub nodes: Vec<BrowseDescription<'a>>,
}

/// A reference that was found (Part 4, 7.29). A field that isn't wanted is null, false, `Unspecified` or
/// empty. The nodes are of this server, so that their expanded ids are written as ids.
#[derive(Debug, Drop, PartialEq, Eq)]
pub struct ReferenceDescription {
    pub reference_type_id: NodeId,
    pub is_forward: bool,
    pub node_id: NodeId,
    pub browse_name: QualifiedName,
    pub display_name: LocalizedText,
    pub node_class: NodeClass,
    pub type_definition: NodeId,
}

/// What one browse is answered (Part 4, 7.6). Its continuation point is written as null.
#[derive(Debug, Drop, PartialEq, Eq)]
pub struct BrowseResult {
    pub status: Status,
    pub references: Listing<ReferenceDescription>,
}

#[tactic(auto, unfolding(crate::specs::Browsing::browse_direction))]
fn read_direction(cursor: &mut Cursor<'_>) -> Result<Option<BrowseDirection>, BinaryFault>
    ensures { Reads (λ x. x) result cursor.old cursor.new browse_direction.read }
{
    Ok(direction_of(cursor.i32()?))
}

/// A view (Part 4, 7.45): its id, a moment and a version.
fn skip_view(cursor: &mut Cursor<'_>) -> Result<(), BinaryFault>
    ensures { Reads (λ x. x) result cursor.old cursor.new
        (unkept (Numeric 0 0, (record { 0 = pos 0 }, 0)) (node_id ▸ ticks ▸ unsigned w32)).read }
{
    let mut next = cursor.fork();
    next.node_id()?;
    next.ticks()?;
    next.u32()?;
    *cursor = next;
    Ok(())
}

impl<'a> Decode<'a> for BrowseDescription<'a> {
    type Fault = BinaryFault;

    ghost Value = { BrowseFields };

    ghost view = { browse_fields };

    ghost format = { browse_description };

    #[tactic(auto, unfolding(crate::specs::Browsing::browse_description))]
    fn decode(
        alloc: Global,
        cursor: &mut Cursor<'a>,
    ) -> Result<BrowseDescription<'a>, BinaryFault> {
        let mut next = cursor.fork();
        let node_id = next.node_id()?;
        let direction = read_direction(&mut next)?;
        let reference_type_id = next.node_id()?;
        let include_subtypes = next.boolean()?;
        let node_class_mask = next.u32()?;
        let result_mask = next.u32()?;
        *cursor = next;
        Ok(BrowseDescription {
            node_id,
            direction,
            reference_type_id,
            include_subtypes,
            node_class_mask,
            result_mask,
        })
    }
}

/// Reads a Browse request (Part 4, 5.9.2) behind its header: a view, the most references, neither of
/// which is kept, and an array of what is browsed, of which at most 1,001 items are kept; every item is
/// read and judged. A fault is that of the leftmost field that has no spelling, or `OutOfMemory`, and
/// leaves the cursor where it was.
#[tactic(auto, unfolding(crate::specs::Browsing::browse_request))]
pub fn read_browse_request<'a>(
    alloc: Global,
    cursor: &mut Cursor<'a>,
) -> Result<BrowseRequest<'a>, BinaryFault>
    ensures { ReadsUnless BinaryFault.OutOfMemory
        (λ r. map browse_fields r.nodes.items) result cursor.old cursor.new browse_request.read }
{
    let mut next = cursor.fork();
    skip_view(&mut next)?;
    let _max_references = next.u32()?;
    let nodes = read_first(alloc, &mut next, OF_A_THOUSAND)?;
    *cursor = next;
    Ok(BrowseRequest { nodes })
}

impl TryClone for ReferenceDescription {
    fn try_clone(&self) -> Result<ReferenceDescription, AllocError> {
        let reference_type_id = self.reference_type_id.try_clone()?;
        let node_id = self.node_id.try_clone()?;
        let browse_name = self.browse_name.try_clone()?;
        let display_name = self.display_name.try_clone()?;
        let type_definition = self.type_definition.try_clone()?;
        Ok(ReferenceDescription {
            reference_type_id,
            is_forward: self.is_forward,
            node_id,
            browse_name,
            display_name,
            node_class: self.node_class,
            type_definition,
        })
    }
}

impl TryClone for BrowseResult {
    fn try_clone(&self) -> Result<BrowseResult, AllocError> {
        let references = self.references.try_clone()?;
        Ok(BrowseResult {
            status: self.status,
            references,
        })
    }
}

impl Encode for ReferenceDescription {
    type Fault = BinaryFault;

    ghost Value = { ReferenceFields };

    ghost view = { reference_fields };

    ghost format = { reference_description };

    ghost can_put = { IsShortReference };

    #[tactic(auto, using(ua_binary::proofs::Kept::kept, crate::proofs::Fits::fits), unfolding(crate::specs::Browsing::reference_description))]
    fn put_parts(&self, out: &mut Vec<u8>) -> Result<(), BinaryFault> {
        put_node_id(out, &self.reference_type_id)?;
        put_boolean(out, self.is_forward)?;
        put_node_id(out, &self.node_id)?;
        put_qualified(out, &self.browse_name)?;
        put_localized(out, &self.display_name)?;
        put_i32(out, i32::from(self.node_class.number()))?;
        put_node_id(out, &self.type_definition)?;
        Ok(())
    }

    #[tactic(auto, using(crate::proofs::Fits::lengths, ua_binary::proofs::Sizes::short, crate::proofs::Fits::fits), unfolding(crate::specs::Browsing::reference_description))]
    fn size(&self) -> usize {
        let ids = self
            .reference_type_id
            .size()
            .saturating_add(self.node_id.size());
        let names = self
            .browse_name
            .size()
            .saturating_add(self.display_name.size());
        let kind = self.type_definition.size().saturating_add(5);
        ids.saturating_add(names).saturating_add(kind)
    }
}

impl Encode for BrowseResult {
    type Fault = BinaryFault;

    ghost Value = { Status × List ReferenceFields };

    ghost view = { browsed_fields };

    ghost format = { browse_result };

    ghost can_put = { IsShortBrowsed };

    #[tactic(auto, using(ua_binary::proofs::Kept::kept, crate::proofs::Fits::fits), unfolding(crate::specs::Browsing::browse_result))]
    fn put_parts(&self, out: &mut Vec<u8>) -> Result<(), BinaryFault> {
        put_status(out, self.status)?;
        put_bytes(out, None)?;
        put_many(out, self.references.as_slice())?;
        Ok(())
    }

    #[tactic(auto, using(crate::proofs::Fits::lengths, crate::proofs::Fits::fits), unfolding(crate::specs::Browsing::browse_result))]
    fn size(&self) -> usize {
        let references = many_size(self.references.as_slice());
        references
            .saturating_add(self.status.size())
            .saturating_add(4)
    }
}

#[tactic(auto, using(ua_binary::proofs::Kept::kept), unfolding(crate::specs::Browsing::browse_response))]
fn put_browse_parts(out: &mut Vec<u8>, results: &[BrowseResult]) -> Result<(), BinaryFault>
    requires { AreShortBrowsed results.now }
    ensures puts { PutsPart BinaryFault.OutOfMemory result out.old.items out.new.items
        (browse_response.canon (map browsed_fields results.now)) }
    ensures spelled { IfOk result (λ _. AreBrowsed results.now) }
{
    put_many(out, results)?;
    put_null_array(out)?;
    Ok(())
}

/// Writes a Browse response (Part 4, 5.9.2) behind its header: the array of the results, and a null one
/// of diagnostics. Its one error is `OutOfMemory`, and then the vector is as it was. What was written
/// has a spelling.
pub fn put_browse_response(out: &mut Vec<u8>, results: &[BrowseResult]) -> Result<(), BinaryFault>
    requires { AreShortBrowsed results.now }
    ensures puts { Puts BinaryFault.OutOfMemory result out.old.items out.new.items
        (browse_response.canon (map browsed_fields results.now)) }
    ensures spelled { IfOk result (λ _. AreBrowsed results.now) }
{
    let len = out.len();
    let put = put_browse_parts(out, results);
    or_undone(put, out, len)
}
