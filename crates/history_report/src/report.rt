//! What is to be printed.

use records::Moment;
use ua_binary::NodeId;

/// In which form a history is printed.
#[derive(Clone, Copy, Debug, PartialEq, Eq)]
pub enum Form {
    /// A table for people at a terminal: each field but the last is padded with blanks to its
    /// column's width, and two more. It has no node, and no byte that controls a terminal.
    Table,
    /// Rows of CSV for programs, as `history_csv` writes them.
    Csv,
    /// A page of HTML for people at a browser, which needs nothing beside it: its title is the
    /// node, and it has a table with a row for each value or modification. It has no script, and
    /// no text in it is read as markup.
    Page,
}

/// The stretch of a node's history that a page leads to.
#[derive(Clone, Copy, Debug)]
pub struct Next {
    /// Its first moment.
    pub from: Moment,
    /// The moment before which it ends; absent, it doesn't end.
    pub to: Option<Moment>,
}

/// What is to be printed of a node's history.
#[derive(Debug, Drop)]
pub struct Report {
    /// The node.
    pub node: NodeId,
    /// The first moment; absent, there is no first one.
    pub from: Option<Moment>,
    /// The moment before which the history ends; absent, it doesn't end.
    pub to: Option<Moment>,
    /// Modifications are printed, in place of live values.
    pub changes: bool,
    /// In which form.
    pub form: Form,
    /// The stretch that a page leads to by a link; absent, it leads to none. A table and rows of
    /// CSV don't tell it.
    pub next: Option<Next>,
}
