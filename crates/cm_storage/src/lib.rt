//! Storage: for each instance that uses it, a place of its own in a directory.
//!
//! The rules are those of "Storage capabilities" of Fuchsia's component framework (fuchsia.dev). The
//! folders of a place are this project's own choice.
#![tactic(auto)]

pub(crate) mod above;
pub(crate) mod backing;
pub mod check;
pub(crate) mod children;
pub mod disjoint;
pub mod fault;
pub(crate) mod firsts;
pub(crate) mod handing;
pub(crate) mod known;
pub mod laws;
pub(crate) mod parts;
pub mod places;
pub mod placing;
pub mod report;
pub(crate) mod standing;
pub(crate) mod way;

pub use check::{check_storage, check_storage_in};
pub use disjoint::stand_apart;
pub use fault::{StorageFault, StorageNote};
pub use places::Place;
pub use placing::place;
pub use report::storage_report;
