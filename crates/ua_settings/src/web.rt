//! Where browsers come to.

use ua_binary::Text;

/// An address where browsers come to, and read histories as pages.
#[derive(Debug, Drop)]
pub struct WebSettings {
    /// The address.
    pub listen: Text,
    /// How many of their connections are served at a time, 1 to 1,000.
    pub connections: u32,
}
