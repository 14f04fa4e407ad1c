//! Walks along the routes of a realm tree, the way that a moniker leads, and the way down to all
//! below an instance.
//!
//! A walk begins at a use, an expose or an offer of an instance and goes from hop to hop to the
//! provider: up over the offers of parents, then down over the exposes of children. It judges
//! each hop once, on the way.
//!
//! The rules are those of "Capability routing", "Capability availability" and "Directory
//! capabilities" of Fuchsia's component framework (fuchsia.dev); `cm_world` has them as
//! definitions. That one rule is tried before another at the same hop is this project's own
//! choice.
#![tactic(auto)]

pub mod above;
pub(crate) mod find;
pub mod hop;
pub mod laws;
pub mod locating;
pub(crate) mod next;
pub(crate) mod station;
pub mod subtree;
pub(crate) mod trail;
pub mod walking;

pub use locating::{locate, locate_below, names_leading_to};
pub use subtree::rows_below;
pub use walking::walk;
