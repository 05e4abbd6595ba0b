//! Where peers come to.

use stamp::ReplicaNo;
use ua_binary::{Listing, Text};

/// An address where peers alone come to, and who is taken there.
#[derive(Debug, Drop)]
pub struct DoorSettings {
    /// The address.
    pub listen: Text,
    /// The addresses and networks from which a peer is taken; none: from everywhere.
    pub from: Option<Listing<Text>>,
    /// The numbers of the replicas whose records are taken from peers; none: of all.
    pub replicas: Option<Listing<ReplicaNo>>,
    /// How many seconds a record's tick may be ahead of this machine's clock, 1 to 31,536,000; none: any.
    pub ahead: Option<u32>,
}
