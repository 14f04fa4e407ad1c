//! The validator of declarations.
//!
//! [`validate`] says whether a declaration is valid by the rules of component manifests, and else
//! which fault is its first. It makes one pass over the rows, with sets of the declared names, and
//! then, where something strongly depends on a child, looks for a cycle of the realm graph.
#![tactic(auto)]

pub(crate) mod clash;
pub mod fault;
pub(crate) mod found;
pub mod index;
pub(crate) mod key;
pub(crate) mod keyed;
pub mod laws;
pub mod names;
pub(crate) mod near;
pub(crate) mod pass;
pub(crate) mod row;
pub mod validator;

pub use fault::ValidFault;
pub use validator::{ValidDecl, check, is_well_formed, validate};
