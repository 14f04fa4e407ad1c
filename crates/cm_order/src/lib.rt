//! The order of a shutdown: which instance may stop next.
//!
//! A shutdown works on what stands at or below one instance that is being shut down, the
//! outermost one above its target. An instance there may stop once all that depends on it, at
//! each level from there down to itself, is shut. [`pick`] finds one.
//!
//! | module | says |
//! |---|---|
//! | `above` | what the facts of one instance and those above it say |
//! | `below` | whether all at and below an instance is shut |
//! | `standing` | whether something still needs a child of a level: the one decider |
//! | `leading` | which node of a level may be next |
//! | `search` | an instance that may stop, below another |
//! | `dependents` | what depends on each child of a level |
//! | `clearing` | how what is known of a level changes as its nodes are shut |
//! | `glance` | a node of a level that nothing binds, by tests that cost little |
//! | `stand` | a level on a way down, and what is known of it |
//! | `plan` | the ways down that picks took, from one pick to the next |
//! | `quick` | the way down to an instance that may be picked, by such tests alone |
//! | `picking` | what a pick comes to |
//! | `choosing` | whether a pick may choose an instance that is given |
//! | `laws` | that a shutdown never comes to a dead end |
//!
//! That clients stop before what they depend on is the rule of Fuchsia's component lifecycle
//! documentation (fuchsia.dev); how the rule reaches over several levels is this project's own.
#![tactic(auto)]

pub(crate) mod above;
pub(crate) mod below;
pub mod choosing;
pub(crate) mod clearing;
pub(crate) mod dependents;
pub(crate) mod glance;
pub mod laws;
pub(crate) mod leading;
pub mod picking;
pub mod plan;
pub(crate) mod quick;
pub(crate) mod search;
pub(crate) mod stand;
pub(crate) mod standing;

pub use below::all_shut;
pub use choosing::{may_close, may_pick, may_pick_with};
pub use picking::{Picked, pick, pick_with};
pub use plan::DescentPlan;
