//! Keys of rows: what tells a row apart from the others of its section.

use cm_names::Bytes;

/// What tells a row apart from the others of its section.
#[derive(Debug, Drop, PartialEq, Eq, PartialOrd, Ord)]
pub(crate) struct RowKey {
    /// The text by which the row clashes with others.
    pub(crate) text: Bytes,
    /// The index of the row in its section.
    pub(crate) row: usize,
}
