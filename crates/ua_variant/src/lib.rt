//! Values of any type (Part 6, 5.2.2.16), with moments and status codes.
#![tactic(auto)]

mod data;
mod fault;
mod laws;
mod put;
mod read;
mod size;
mod try_clone;
mod update_type;
mod value;

pub use data::{DataValue, put_data_value, put_value_at, read_data_value};
pub use fault::VariantFault;
pub use laws::{equality_is_exact, formats_are_lawful, formats_are_prefix_free};
pub use put::put_variant;
pub use read::read_variant;
pub use update_type::HistoryUpdateType;
pub use value::{Array, Scalar, ValueType, Variant, same_type};
