//! A node's history, printed for people and for programs.
#![tactic(auto)]

mod drawing;
mod fault;
mod figure;
mod html;
mod laws;
mod lines;
mod link;
mod number;
mod pages;
mod parts;
mod path;
mod portions;
mod printing;
mod report;
mod rows;
mod span;
mod table;
mod textless;
mod trend;

pub use fault::{PartFault, ReportFault};
pub use laws::{
    a_first_part_has_the_first_rows, a_pages_text_holds_no_markup, a_pages_text_is_read_again,
    a_part_and_the_rest_are_the_whole, a_rows_texts_are_its_fields, all_portions_are_the_whole,
    first_portions_are_the_first_lines, no_portion_lacks_a_text,
};
pub use portions::Portions;
pub use printing::print_report;
pub use report::{Form, Next, Report};
pub use table::put_legible;
