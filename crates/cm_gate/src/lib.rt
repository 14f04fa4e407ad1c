//! What a component manager asks of the outside: manifests, and the starting and stopping of
//! programs.
//!
//! A component manager finds the manifest of a component through a resolver, and has its program
//! started and stopped by a runner, as Fuchsia's component framework has it (fuchsia.dev:
//! "Component resolvers", "Component runners"). Here both stand behind one trait, [`Gates`]. Gates
//! count how often they failed, and tell, where they can, what they were asked and what they
//! answered. So a caller can be told that a failure was reported only where a gate really failed.
//!
//! | gates | what they are for |
//! |---|---|
//! | [`FolderGates`] | manifests are files of a folder; a [`Runner`] runs programs, or all run at once |
//! | [`QuietGates`] | no manifest is known, and no call fails |
//! | [`PlannedGates`] | for tests: answers and failures are planned, questions are noted |
//! | [`MeetingGates`] | for tests: a fetch of one caller waits for a fetch of another |
//!
//! That resolver and runner are one trait with three calls is this project's own choice.
#![tactic(auto)]

pub mod asked;
mod count;
pub mod folder;
pub mod gates;
pub mod manifests;
pub mod meeting;
pub mod network;
pub mod opening;
mod place;
pub mod planned;
pub mod quiet;
pub mod runner;

pub use asked::{Fetch, Fetched, GateCall, Halted, Job, Launched};
pub use folder::FolderGates;
pub use gates::Gates;
pub use manifests::Manifest;
pub use meeting::MeetingGates;
pub use network::{Connection, Network};
pub use opening::Folder;
pub use planned::{GatePlan, PlannedGates};
pub use quiet::QuietGates;
pub use runner::Runner;
