//! What an address space is to hold.

/// What an address space is to hold: folders and variables, in the order in which they are browsed.
#[derive(Clone, Copy, Debug)]
pub struct Plan<'a> {
    /// The URI of namespace 1, in which the ids and names of folders and variables are.
    pub namespace: &'a str,
    pub folders: &'a [FolderPlan<'a>],
    pub variables: &'a [VariablePlan<'a>],
}

/// A folder, which is an object under Objects.
#[derive(Clone, Copy, Debug)]
pub struct FolderPlan<'a> {
    pub id: &'a str,
    pub name: &'a str,
}

/// A variable whose values are archived.
#[derive(Clone, Copy, Debug)]
pub struct VariablePlan<'a> {
    /// It has 1 to 256 bytes.
    pub id: &'a str,
    pub name: &'a str,
    /// The name of a built-in type of Part 6, 5.1.2, from Boolean to ByteString.
    pub type_name: &'a str,
    pub array: bool,
    /// The id of the folder that it is in; none: it is in Objects.
    pub folder: Option<&'a str>,
}
