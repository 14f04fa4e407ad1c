//! What the words after the program's name ask for, and the script that a workload is.
//!
//! [`read_words`] reads the words. [`generated`] makes the script of a workload that they may ask for: its
//! manifests, and its lines.
//!
//! | file of `specs/` | says |
//! |---|---|
//! | `Calls` | what the words ask for |
//! | `Generated` | the script that a workload is; `GeneratedExamples` has small ones |
#![tactic(auto)]

mod call;
mod generator;
pub mod laws;
mod workload;

pub use call::{Call, RunOptions, ServeOptions, Wanted, WordsFault, Workload, read_words};
pub use workload::generated;
