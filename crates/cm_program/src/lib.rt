//! The program, as one call: it runs the commands of a script of component manifests, of a workload
//! that it generates or of links that come at a door, reports on the tree that a script leaves, and says
//! whether a manifest is valid, and whether a journal is a legal history.
//!
//! [`run::run`] is the top call. What it sees of the outside are a source, two sinks, a door and
//! sixteen gates. The program above this crate makes the real ones, its tests those in memory.
//!
//! | file of `specs/` | says |
//! |---|---|
//! | `Promise` | all that the top call promises, as one record |
//! | `Headline`, `Run` | what is promised of the run of a script, and of each status |
//! | `Stock`, `Reading` | what a script asks for, and why it is refused |
//! | `Sessions` | what is promised of sessions |
//! | `Printed`, `Texts`, `Written` | what is printed, and what is known of bytes written |
//! | `Reported` | the report on the tree at the end of a run, where one is wanted |
//! | `Checks`, `Audits` | what `check` says of a manifest, and `audit` of a journal |
//! | `Verdicts` | both of these, by what the input is taken for |
//! | `Performing` | what the lanes made of a script |
//! | `Closing` | what the program ends by |
//! | `Complete`, `Unfailing` | which statuses and answers are left where nothing failed |
//! | `Laws` | what follows for scripts that are served, and for runs |
#![tactic(auto)]

mod answers;
mod audit;
mod check;
pub mod closing;
mod fault;
mod generate;
pub mod laws;
mod performing;
pub mod ran;
pub mod run;
mod running;
mod scripts;
mod serving;
mod sessions;
mod stock;
mod verdict;
mod wanted;

pub use ran::{Ran, out_of_memory};
