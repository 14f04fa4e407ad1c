//! The history of a realm tree, with room kept for the entries that have to come.
//!
//! Some entries must not fail: the end of an action, for one, is written when its work is done
//! and can't be undone. So their room is reserved before, and the reserved entry is then pushed
//! without memory and without a refusal. That the history is kept, and how long it may grow, is
//! this project's own choice.
#![tactic(auto)]

pub mod book;

pub use book::{Book, BookFault};
