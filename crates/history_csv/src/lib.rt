//! A node's history as CSV: a value or a modification a row, and a row of values read again.
//!
//! What is written is read as the same: `node_text` and `read_node`, `put_value_row` and
//! `read_row`. A row that is none is refused by the field that is wrong.
#![tactic(auto)]

mod fault;
mod fields;
mod laws;
mod nodes;
mod quoting;
mod rows;
mod texts;

pub use fault::RowFault;
pub use fields::{Row, read_moment};
pub use laws::a_written_row_is_read_again;
pub use nodes::{node_text, read_node};
pub use rows::{
    ChangeTexts, MadeTexts, RowTexts, change_texts, put_change_header, put_change_row,
    put_value_header, put_value_row, read_row, row_texts,
};
pub use texts::ValueTexts;
