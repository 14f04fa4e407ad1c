//! Facts that the proofs of several crates take, about what is of no crate: tests and conditionals,
//! numbers, options and results, lists, orders.
//!
//! There is no code here. The lemmas stand by topic in `proofs/`, and each is called by what its left side
//! says, or by the hypothesis that it reads. What the standard library has is taken from there; what speaks
//! of a definition of one crate stands with that crate.
#![tactic(auto)]
