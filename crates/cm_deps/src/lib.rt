//! The realm graph of a component: which of its children and itself depend on which, and so in
//! which order they stop.
//!
//! [`order_of`] tells an order in which each stops before what it depends on, or a cycle that
//! prevents it. [`Graph`] also tells what depends on what. Both speak of the definitions of
//! `cm_decl`. Inside, nodes go by numbers, their places in the order of nodes.
//!
//! The edges are those of the shutdown order of Fuchsia's component framework documentation
//! (fuchsia.dev): a component stops before the sources of its capabilities.
#![tactic(auto)]

pub(crate) mod closure;
pub(crate) mod edges;
pub mod graph;
pub mod laws;
pub(crate) mod nodes;
pub(crate) mod order;
pub mod outcome;
pub(crate) mod realm;
pub(crate) mod ring;
pub(crate) mod sources;

pub use graph::Graph;
pub use outcome::{Order, order_of};
