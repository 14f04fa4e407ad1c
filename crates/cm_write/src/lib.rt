//! Writes declarations as JSON values.
//!
//! `specs/Writing` defines the text of a declaration, row by row, and what each row is written as.
#![tactic(auto)]

mod environments;
mod puts;
mod storage;
mod writing;

pub use puts::word_of;
pub use writing::value_of;
