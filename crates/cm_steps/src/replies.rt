//! What a tree is asked before a step: the reply to each event, read of a tree that stays as it
//! is.

pub mod beginning;
pub mod creating;
pub mod finding;
pub mod listing;
pub mod marking;
pub mod opening;
pub mod picking;
pub mod purging;
pub mod reaping;
pub mod showing;
pub mod surveying;
pub mod telling;
