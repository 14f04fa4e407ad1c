//! Declarations of components: their plain data, and what it means for one to be valid.
//!
//! A [`Decl`] is what a component manifest says, row by row. The definitions in `specs/` say
//! which faults a declaration has and in what order they are reported, and which node of its
//! realm graph depends on which. Code that decides them is no part of this crate.
//!
//! The rows are those of Fuchsia's component manifest reference (fuchsia.dev).
#![tactic(auto)]

pub mod copies;
pub mod decl;
pub mod environment;
pub mod kind;
pub mod laws;
pub mod node;
pub mod origin;
pub mod rows;
pub mod section;
pub mod storage;

pub use decl::Decl;
pub use environment::{DebugUse, Environment, Registration};
pub use kind::Kind;
pub use node::{DynChild, Node};
pub use origin::Origin;
pub use rows::{Capability, Child, Collection, Durability, Give, Offer, Usage};
pub use section::Section;
pub use storage::{Storage, StorageOffer, StorageUse};
