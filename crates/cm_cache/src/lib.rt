//! Answers to the uses of instances, kept until a walk may come to something else.
//!
//! A walk along a route reads every instance on the way, and most routes are asked for again and
//! again. A [`Cache`] keeps what walks came to, by the instance and the path that they began with,
//! and looks an answer up in a number of steps that grows with the logarithm of the answers.
//!
//! The definitions in `specs/` say which answers a history of a realm tree keeps, and how often one
//! of them was asked for again:
//!
//! | file of `specs/` | says |
//! |---|---|
//! | `Answers` | what a cache is seen as, what it keeps for a use, and what a put leaves |
//! | `Places` | how a cache finds its answers |
//! | `Keeping` | the uses whose answers a history keeps, and the number of answers that were there |
//! | `Right` | answers that are those of the walks in a tree |
//! | `Beside` | answers kept beside a history, and what becomes of them with an entry more |
//! | `Laws`, `Steps` | laws of these definitions, and of one entry more |
//!
//! That answers are kept, how many, and when they are forgotten is this project's own choice.
#![tactic(auto)]

pub mod answer;
pub mod cache;
pub mod keeper;
pub mod laws;
pub(crate) mod places;
#[cfg(test)]
mod tests;

pub use answer::CachedAnswer;
pub use cache::Cache;
pub use keeper::{CacheLookup, Keeper, found_by_walk};
