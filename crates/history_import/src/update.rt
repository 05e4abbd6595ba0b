//! What a row asks for.

use ua_binary::NodeId;
use ua_variant::DataValue;

/// What a row asks for, once its fields were read.
#[derive(Debug, Drop)]
pub struct Update {
    /// The node.
    pub node: NodeId,
    /// The value, with its source time.
    pub value: DataValue,
}
