//! Plays runs of the top call for its tests, which hold the tables of runs.
//!
//! A run is a case of a table: the words and the input, what fails around it, and the ends that it
//! may come to. [`odd_cases`] takes a table apart and runs all its cases, so that one more costs no proof.
//! It stands in a library of its own, since a crate with tests is proved with the prover's link of the
//! whole program: what is proved here needs no room beside that.
#![tactic(auto)]

mod doors;
mod ends;
mod input;
mod manifests;
mod meeting;
mod player;
mod repeated;
mod sockets;
mod texts;

pub use meeting::odd_meeting;
pub use player::odd_cases;
pub use sockets::{ask, closed, serve};
