//! A lock in which each caller's pass proves that what it finds extends what it had seen.
//!
//! A [`Turn`] is a lock round one state. The state stands for a history, which is a list of
//! entries, and each entry names the caller that has made it. Each caller carries a [`Pass`], which
//! knows a beginning of the history and the caller's own entries in it. To use the state, a caller
//! gives its pass to [`Turn::enter`], changes the state of the [`Held`] turn, and gets the pass
//! back from [`Turn::leave`].
//!
//! A plain lock tells its caller nothing of what it finds. Here `enter` ensures that the history
//! begins with all that the pass had seen, that no entry of the caller was lost or added meanwhile,
//! and that the state has the frame that it had at the beginning. Two callers that tell each other
//! what they have seen do so with [`Turn::meet`], and [`Turn::close`] gives the state back and
//! bears out what all passes know.
//!
//! The callers are served in the order in which they ask. That a call returns at all is not claimed.
#![tactic(auto)]

mod boxed;
pub mod laws;
mod lends;
pub mod pass;
mod rule;
mod steps;
pub mod storied;
#[cfg(test)]
mod tests;
pub mod turn;
pub mod view;
mod wakeups;

pub use pass::Pass;
pub use storied::Storied;
pub use turn::{Held, Turn};
