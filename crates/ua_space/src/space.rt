//! The address space.

ghost use Rattle.std.specs.Prelude.{◌≡◌, ◌<◌, ◌^◌, length, All, map, IfOk, IfSome, option_map, is_some};
ghost use Rattle.std.specs.List.{AllByRecursion};
ghost use Rattle.ua_binary.specs.Binary.{node_of as id_of_lent};
ghost use Rattle.ua_space.specs.Lent.{planned_by, HasPlannedId, HasFolder, HasShortPlan, folder_of, variable_of};
ghost use Rattle.ua_space.specs.Space.{node_at, value_type_at, IsShortId, HasShortId, IsShortLayout};
ghost use Rattle.ua_space.specs.Attributes.{attribute_at, IsShortAnswered};
ghost use Rattle.ua_services.specs.Browsing.{browse_fields, IsShortReference};
ghost use Rattle.ua_space.specs.References.{browse_at};
ghost use Rattle.ua_binary.specs.Format.{IsOrStarved};
ghost use Rattle.ua_session.specs.declared.identity.Access.TheVariants.{Write};

use crate::asked_types::is_reference_type;
use crate::attributes::Answered;
use crate::browsing::tell;
use crate::fault::BuildFault;
use crate::index::{Places, index_of};
use crate::judging::{judge, type_number};
use crate::layout::Layout;
use crate::node::{Folder, Node, Variable};
use crate::plan::{FolderPlan, Plan, VariablePlan};
use std::alloc::{AllocError, Global};
use std::marker::Model;
use ua_binary::{Listing, NodeIdRef, Status, Text};
use ua_services::{BrowseDescription, ReferenceDescription};
use ua_session::Access;
use ua_variant::ValueType;

/// The address space of the historian (Part 3): Root, Objects, the folders and variables of a plan, and the
/// variables NamespaceArray and State of the server.
#[derive(Debug, Drop)]
pub struct Space {
    alloc: Global,
    layout: Layout,
    /// Where its folders and variables stand.
    places: Places,
}

impl Model for Space {
    ghost use Rattle.ua_space.specs.declared.layout.Layout.{Layout};
    ghost use Rattle.ua_space.specs.Space.{IsShortLayout};
    ghost use Rattle.ua_space.specs.Index.{IsIndexOf};

    ghost Value = { Layout };

    ghost view = { λ s. s.layout };

    ghost invariant = { λ s. IsShortLayout s.layout × IsIndexOf s.layout s.places };
}

/// What is known of a variable.
#[derive(Clone, Copy, Debug, PartialEq, Eq)]
pub struct VariableInfo {
    pub value_type: ValueType,
}

impl Space {
    /// The space of a plan, in which each variable's id has 1 to 256 bytes, each folder that a variable names
    /// is one of the plan, and each text has less than 2^31 bytes. `TooMany` for more than 1,000 folders and variables; then `BadType` where a
    /// type is none from Boolean to ByteString; then `DuplicateNode` for two equal ids; last `OutOfMemory`.
    pub fn build(alloc: Global, plan: &Plan<'_>) -> Result<Space, BuildFault>
        requires ids { AllByRecursion HasPlannedId plan.now.variables.now }
        requires folders { AllByRecursion (HasFolder plan.now.folders.now) plan.now.variables.now }
        requires texts { HasShortPlan plan.now }
        ensures { IsOrStarved BuildFault.OutOfMemory (planned_by plan.now) result }
    {
        judge(plan)?;
        let namespace = Text::from_str(alloc, plan.namespace)?;
        let folders = make_folders(alloc, plan.folders)?;
        let variables = make_variables(alloc, plan.variables)?;
        let layout = Layout {
            namespace,
            folders,
            variables,
        };
        let places = index_of(alloc, &layout)?;
        Ok(Space {
            alloc,
            layout,
            places,
        })
    }

    /// Its layout, in which each id is short.
    pub(crate) fn layout(&self) -> &Layout
        ensures laid { result.now ≡ self.now }
        ensures short { IsShortLayout result.now }
    {
        &self.layout
    }

    /// Whether the id is of a node. It takes no memory.
    pub fn has_node(&self, node: NodeIdRef<'_>) -> bool
        ensures { result ≡ is_some (node_at self.now (id_of_lent node.entry)) }
    {
        self.layout.find(&self.places, node).is_some()
    }

    /// What is known of a variable of the plan; none where the id is of no such variable. Such an id has at
    /// most 256 bytes. It takes no memory.
    pub fn variable(&self, node: NodeIdRef<'_>) -> Option<VariableInfo>
        ensures known { option_map (λ info. info.value_type) result
            ≡ value_type_at self.now (id_of_lent node.entry) }
        ensures short { IfSome result (λ _. IsShortId (id_of_lent node.entry)) }
    {
        match self.layout.find(&self.places, node) {
            Some(Node::Variable(variable)) => Some(VariableInfo {
                value_type: variable.value_type,
            }),
            _ => None,
        }
    }

    /// An attribute of a node (Part 4, 5.11.2) by its number (Part 6, A.1): its value, or that the archive
    /// gives it. `BAD_NODE_ID_UNKNOWN` where the id is of no node; then `BAD_ATTRIBUTE_ID_INVALID` where the node
    /// has no such attribute; last `BAD_OUT_OF_MEMORY`. A value can be written.
    ///
    /// UserAccessLevel is that of a user who may update histories.
    pub fn read_attribute(&self, node: NodeIdRef<'_>, attribute: u32) -> Result<Answered, Status>
        ensures told { IsOrStarved Status.BAD_OUT_OF_MEMORY
            (attribute_at self.now Write (id_of_lent node.entry) attribute) result }
        ensures short { IfOk result IsShortAnswered }
    {
        self.read_attribute_for(Access::Write, node, attribute)
    }

    /// An attribute of a node as `read_attribute` gives it, for a user who may do this.
    pub fn read_attribute_for(
        &self,
        access: Access,
        node: NodeIdRef<'_>,
        attribute: u32,
    ) -> Result<Answered, Status>
        ensures told { IsOrStarved Status.BAD_OUT_OF_MEMORY
            (attribute_at self.now access (id_of_lent node.entry) attribute) result }
        ensures short { IfOk result IsShortAnswered }
    {
        let Some(node) = self.layout.find(&self.places, node) else {
            return Err(Status::BAD_NODE_ID_UNKNOWN);
        };
        self.layout.attribute(self.alloc, access, node, attribute)
    }

    /// The references of a node (Part 4, 5.9.2) that the description asks for: first those to what hangs below
    /// it, folders before variables, each in the order of the plan, then to its type definition, then back to
    /// what it hangs below. `BAD_NODE_ID_UNKNOWN` where the id is of no node; then `BAD_BROWSE_DIRECTION_INVALID`
    /// where there is no direction; then `BAD_REFERENCE_TYPE_ID_INVALID` where the type is none of those of Part 5
    /// that a client may ask for; last `BAD_OUT_OF_MEMORY`. The references can be written.
    pub fn browse(
        &self,
        description: &BrowseDescription<'_>,
    ) -> Result<Listing<ReferenceDescription>, Status>
        ensures told { IsOrStarved Status.BAD_OUT_OF_MEMORY
            (browse_at self.now (browse_fields description.now)) result }
        ensures short { IfOk result
            (λ references. (length references < 2 ^ 31) × All IsShortReference references) }
    {
        let Some(node) = self.layout.find(&self.places, description.node_id) else {
            return Err(Status::BAD_NODE_ID_UNKNOWN);
        };
        let Some(direction) = description.direction else {
            return Err(Status::BAD_BROWSE_DIRECTION_INVALID);
        };
        if !is_reference_type(description.reference_type_id) {
            return Err(Status::BAD_REFERENCE_TYPE_ID_INVALID);
        }
        let links = self.layout.references(self.alloc, node)?;
        tell(self.alloc, direction, description, &links)
    }
}

/// The folders of a plan, in memory of their own.
fn make_folders(alloc: Global, plans: &[FolderPlan<'_>]) -> Result<Listing<Folder>, AllocError>
    ensures { IfOk result (λ folders. folders ≡ map folder_of plans.now) }
{
    let mut folders = Vec::new(alloc);
    for plan in plans {
        folders.push(make_folder(alloc, *plan)?)?;
    }
    Ok(Listing::of(folders))
}

fn make_folder(alloc: Global, plan: FolderPlan<'_>) -> Result<Folder, AllocError>
    ensures { IfOk result (λ folder. folder ≡ folder_of plan.entry) }
{
    let id = Text::from_str(alloc, plan.id)?;
    let name = Text::from_str(alloc, plan.name)?;
    Ok(Folder { id, name })
}

/// The variables of a plan, in memory of their own.
fn make_variables(
    alloc: Global,
    plans: &[VariablePlan<'_>],
) -> Result<Listing<Variable>, AllocError>
    requires { AllByRecursion HasPlannedId plans.now }
    ensures made { IfOk result (λ variables. variables ≡ map variable_of plans.now) }
    ensures short { IfOk result (λ variables. AllByRecursion HasShortId variables) }
{
    let mut variables = Vec::new(alloc);
    for plan in plans {
        variables.push(make_variable(alloc, *plan)?)?;
    }
    Ok(Listing::of(variables))
}

fn make_variable(alloc: Global, plan: VariablePlan<'_>) -> Result<Variable, AllocError>
    ensures { IfOk result (λ variable. variable ≡ variable_of plan.entry) }
{
    let value_type = ValueType {
        number: type_number(plan.type_name).unwrap_or(0),
        array: plan.array,
    };
    let id = Text::from_str(alloc, plan.id)?;
    let name = Text::from_str(alloc, plan.name)?;
    let folder = match plan.folder {
        None => None,
        Some(id) => Some(Text::from_str(alloc, id)?),
    };
    Ok(Variable {
        id,
        name,
        value_type,
        folder,
    })
}
