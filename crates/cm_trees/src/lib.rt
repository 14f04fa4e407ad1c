//! Facts about realm trees as lists of rows: how rows change and stay orderly, names of children, levels and
//! their graphs, what stands below what.
//!
//! There is no code here. The crates that keep a tree, walk through it or decide about it cite these lemmas,
//! and so do the laws of histories, which stand on none of those crates.
#![tactic(auto)]
