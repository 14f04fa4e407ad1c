//! Reads texts that have no escapes, numbers or words in one pass: JSON, and the relaxed spelling of JSON.
//!
//! `specs/Plain` speaks of texts of JSON that are read lexeme by lexeme, `specs/Relaxed` of texts in the
//! relaxed spelling that are read token by token, and of what their JSON says. `specs/JsonTree` says which
//! JSON value a value with borrowed texts stands for.
#![tactic(auto)]

mod plain;
mod relaxed;
mod tree;

pub use plain::read_plain;
pub use relaxed::read_relaxed;
pub use tree::{JsonTree, same_text, tree_of};
