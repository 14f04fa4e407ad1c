//! Lanes: many callers side by side, each with lines of its own.
//!
//! A script's lines belong to sixteen lanes, and stand in phases. In a phase each lane performs
//! its lines in order, with a pass and gates of its own, the lanes side by side in threads. After
//! a phase all passes meet, so that each lane knows what the others did before it goes on.
//!
//! | file of `specs/` | says |
//! |---|---|
//! | `Script` | which lines are a lane's, and what it is to perform them, phase by phase |
//! | `Lanes` | what comes back of a whole script |
//! | `Laws` | what follows of it: entries fall into runs, and all answers may be lost |
//! | `Lane`, `Meeting`, `Phases` | what the lanes have in hand, from step to step |
//! | `Merge` | how answers are put in order |
#![tactic(auto)]

mod lane;
pub mod lanes;
pub mod laws;
mod meeting;
mod merge;
mod phase;
pub mod said;

pub use lanes::run_lanes;
pub use said::{Lanes, Said};
