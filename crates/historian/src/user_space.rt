//! The address space as a user sees it.

use ua_session::Access;
use ua_space::Space;

/// The nodes, for a user who may do this.
#[derive(Clone, Copy)]
pub(crate) struct UserSpace<'a> {
    pub space: &'a Space,
    pub access: Access,
}
