//! The calls of the component manager.
//!
//! Each call takes turns at the realm tree, does the work of the actions that it begins between
//! those turns, and answers. What a call does is a run: a list of its caller's own entries in the
//! one history of the realm.
#![tactic(auto)]

mod acts;
mod began;
pub mod caller;
mod calls;
pub mod desks;
mod doctor;
mod judged;
pub mod laws;
pub mod manager;
mod parts;
mod permit;
mod shutting;
mod starting;
mod streaming;
mod sweeping;
mod trying;
mod turns;
mod work;

pub use caller::Caller;
pub use desks::{Desk, DeskParts, DeskRoom, clear_desks, make_desks, room_for_desks};
pub use manager::Manager;
