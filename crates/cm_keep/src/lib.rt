//! The journal of a realm that was served, kept in a file: all of it stands there, or nothing of it.
//!
//! [`keep_journal`] hands the journal over piece by piece, so that there is never a second copy of it in
//! memory, and has it put into its place when it is whole. Where it goes is a [`TextKeeper`]: a
//! [`FileKeeper`] writes a new file beside the place and renames it, a [`MemoryKeeper`] is for tests.
//!
//! | file of `specs/` | says |
//! |---|---|
//! | `Keeping` | what the journal of a served realm is, and what it means that it is kept |
//! | `Asked` | what a place of files is asked for that |
//! | `Files` | what it means that it stands in a file |
//! | `Service` | of which service a journal is kept |
#![tactic(auto)]

mod file;
mod keep;
mod keeper;
pub mod laws;
mod memory;
mod place;
mod service;
#[cfg(test)]
mod tests;

pub use file::{FileKeeper, fault_line};
pub use keep::{KeepFault, keep_journal};
pub use keeper::TextKeeper;
pub use memory::MemoryKeeper;
pub use place::{FilePlace, PlaceCall};
pub use service::{Keeping, Unkept, keep_book, keep_service, keeping_of, try_keeping};
