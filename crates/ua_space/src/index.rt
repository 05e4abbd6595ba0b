//! Where the folders and variables of a layout stand, by their ids.

ghost use Rattle.std.specs.Prelude.{◌≡◌, ◌++◌, List, ℕ, map, IfOk, OnOk, option_map};
ghost use Rattle.std.specs.Option.{option_and_then};
ghost use Rattle.std.specs.HashMap.{get_by_text, IsEmpty};
ghost use Rattle.ua_binary.specs.declared.values.NodeId.TheVariants.{Named};
ghost use Rattle.ua_space.specs.Space.{OfFolder, OfVariable, node_of};
ghost use Rattle.ua_space.specs.Index.{at_place, IsIndexOf, ListsVariables, node_in};

use crate::layout::Layout;
use crate::node::Node;
use std::alloc::{AllocError, Global};
use std::collections::HashMap;

/// Where a folder or a variable stands in its list.
#[derive(Clone, Copy, Debug)]
pub(crate) enum Place {
    Folder(usize),
    Variable(usize),
}

/// The places of all folders and variables, by their ids.
pub(crate) type Places = HashMap<String, Place>;

/// The places of a layout's folders and variables.
pub(crate) fn index_of(alloc: Global, layout: &Layout) -> Result<Places, AllocError>
    ensures { IfOk result (IsIndexOf layout.now) }
{
    let mut places = HashMap::new(alloc);
    add_variables(&mut places, alloc, layout)?;
    add_folders(&mut places, alloc, layout)?;
    Ok(places)
}

/// Adds the variables, the last one first, so that of two with one id the first is found.
fn add_variables(places: &mut Places, alloc: Global, layout: &Layout) -> Result<(), AllocError>
    requires { IsEmpty places.old }
    ensures { OnOk result (ListsVariables layout.now places.new) }
{
    let variables = layout.variables.as_slice();
    for i in (0..variables.len()).rev() {
        let id = String::from_str(alloc, variables[i].id.as_str())?;
        places.insert(id, Place::Variable(i))?;
    }
    Ok(())
}

/// Adds the folders, which are found before variables.
fn add_folders(places: &mut Places, alloc: Global, layout: &Layout) -> Result<(), AllocError>
    requires { ListsVariables layout.now places.old }
    ensures { OnOk result (IsIndexOf layout.now places.new) }
{
    let folders = layout.folders.as_slice();
    for i in (0..folders.len()).rev() {
        let id = String::from_str(alloc, folders[i].id.as_str())?;
        places.insert(id, Place::Folder(i))?;
    }
    Ok(())
}
