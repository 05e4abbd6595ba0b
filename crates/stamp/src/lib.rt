//! Replicas' numbers, the stamps that order their records, and the vectors by which they tell each
//! other which records they hold.
#![tactic(auto)]

mod fault;
mod laws;
mod stamps;
mod vectors;

pub use fault::VectorFault;
pub use laws::{
    formats_are_lawful, formats_are_prefix_free, stamps_are_ordered, vectors_are_maps,
    vectors_are_told,
};
pub use stamps::{GREATEST_TICK, ReplicaNo, Stamp, lift};
pub use vectors::{GREATEST_NUMBER, Vector};
