//! How moments, status codes and values are written as text and read again.
//!
//! What is written is read as the same: `time_text` and `read_time`, `status_text` and
//! `read_status`, `value_text` and `read_value`, `array_text` and `read_array`. A text that is none is
//! refused by what was expected.
#![tactic(auto)]

mod arrays;
mod digits;
mod fault;
mod floats;
mod guids;
mod items;
mod numbers;
mod status;
mod times;
mod values;

pub use arrays::{array_text, read_array};
pub use fault::TextFault;
pub use status::{kept_status, read_status, status_text};
pub use times::{Time, read_time, time_text};
pub use values::{read_value, value_text};
