//! Children that are created and destroyed while a realm tree lives: whether one may be, and
//! else why not.
//!
//! [`may_create_acyclic`] and [`may_destroy`] read a tree and change nothing. Which refusal comes first,
//! and when each comes, is what `cm_world` defines of the events by which children are created
//! and marked to be destroyed.
//!
//! The rules are those of `CreateChild` and `DestroyChild` of the protocol
//! `fuchsia.component.Realm`, and of "Collections" in Fuchsia's component manifest reference
//! (fuchsia.dev). What these leave open, as the order of the refusals, is this project's own choice.
#![tactic(auto)]

pub(crate) mod apart;
pub mod create;
pub mod destroy;
pub mod laws;
pub(crate) mod offers;
pub(crate) mod onward;
pub(crate) mod siblings;

pub use create::{MayCreate, may_create_acyclic};
pub use destroy::{MayDestroy, may_destroy};
