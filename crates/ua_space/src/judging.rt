//! Which plans make a space.

ghost use Rattle.std.specs.Prelude.{◌≡◌, ◌||◌, ◌++◌, map, nat_eq, MatchResult, is_some};
ghost use Rattle.std.specs.List.{list_any, list_all};
ghost use Rattle.std.specs.Cmp.Lexicographic.{pointwise};
ghost use Rattle.ua_space.specs.Plan.{type_number, have_equal};
ghost use Rattle.ua_space.specs.Lent.{judged_by};

use crate::fault::BuildFault;
use crate::plan::{FolderPlan, Plan, VariablePlan};

/// How many folders and variables a space may have.
pub const MAX_NODES: usize = 1000;

/// Whether a variable may have the type of this name (Part 6, 5.1.2).
pub fn is_type_name(name: &str) -> bool
    ensures { result ≡ is_some (type_number name.now) }
{
    type_number(name).is_some()
}

/// The number of the type of this name (Part 6, 5.1.2), where a variable may have it.
#[tactic(auto, unfolding(crate::specs::Plan::type_number))]
pub(crate) fn type_number(name: &str) -> Option<u8>
    ensures { result ≡ type_number name.now }
{
    Some(match name {
        "Boolean" => 1,
        "SByte" => 2,
        "Byte" => 3,
        "Int16" => 4,
        "UInt16" => 5,
        "Int32" => 6,
        "UInt32" => 7,
        "Int64" => 8,
        "UInt64" => 9,
        "Float" => 10,
        "Double" => 11,
        "String" => 12,
        "DateTime" => 13,
        "Guid" => 14,
        "ByteString" => 15,
        _ => return None,
    })
}

/// Whether a plan makes a space, memory aside: `TooMany`, then `BadType`, then `DuplicateNode`. It takes
/// no memory.
pub(crate) fn judge(plan: &Plan<'_>) -> Result<(), BuildFault>
    ensures { MatchResult (judged_by plan.now) (λ _. result ≡ Ok tt) (λ fault. result ≡ Err fault) }
{
    if plan.folders.len().saturating_add(plan.variables.len()) > MAX_NODES {
        return Err(BuildFault::TooMany);
    }
    if !have_types(plan.variables) {
        return Err(BuildFault::BadType);
    }
    if has_equal_folder(plan.folders, plan.variables) || has_equal_variable(plan.variables) {
        return Err(BuildFault::DuplicateNode);
    }
    Ok(())
}

/// Whether each variable's type is known.
fn have_types(variables: &[VariablePlan<'_>]) -> bool
    ensures { result
        ≡ list_all (λ variable. is_some (type_number variable.type_name.now)) variables.now }
{
    variables
        .iter()
        .all(|variable| type_number(variable.type_name).is_some())
}

/// Whether a folder has this id.
fn has_folder(folders: &[FolderPlan<'_>], id: &str) -> bool
    ensures { result ≡ list_any (λ folder. pointwise nat_eq id.now folder.id.now) folders.now }
{
    folders.iter().any(|folder| id == folder.id)
}

/// Whether a variable has this id.
fn has_variable(variables: &[VariablePlan<'_>], id: &str) -> bool
    ensures { result ≡ list_any (λ variable. pointwise nat_eq id.now variable.id.now) variables.now }
{
    variables.iter().any(|variable| id == variable.id)
}

/// Whether a folder has the id of a later folder or of a variable.
fn has_equal_folder(folders: &[FolderPlan<'_>], variables: &[VariablePlan<'_>]) -> bool
    ensures { have_equal
        (map (λ folder. folder.id.now) folders.now
        ++ map (λ variable. variable.id.now) variables.now)
        ≡ (result || have_equal (map (λ variable. variable.id.now) variables.now)) }
{
    for (i, folder) in folders.iter().enumerate() {
        if has_folder(&folders[i + 1..], folder.id) || has_variable(variables, folder.id) {
            return true;
        }
    }
    false
}

/// Whether two variables have the same id.
fn has_equal_variable(variables: &[VariablePlan<'_>]) -> bool
    ensures { result ≡ have_equal (map (λ variable. variable.id.now) variables.now) }
{
    for (i, variable) in variables.iter().enumerate() {
        if has_variable(&variables[i + 1..], variable.id) {
            return true;
        }
    }
    false
}
