//! The realm tree with its history: one call for each event.
//!
//! A [`Realm`] is a tree of component instances together with the list of everything that ever
//! happened to it. Each call makes one event: it finds out the reply, changes the tree, and puts
//! the event with its reply at the end of the history, all three or none of them. That the
//! history is legal, that the tree is the one that the history leaves, that the answers of walks
//! which are kept are those of this tree, and that what is known of ways down for the next pick
//! holds there, is part of the type.
//!
//! The definitions of events, replies and histories are those of `cm_world`; what holds of every
//! legal history is said by `cm_laws`.
#![tactic(auto)]

mod asking;
mod copies;
mod enabling;
pub mod ending;
mod expiring;
pub mod laws;
pub mod nostep;
mod pending;
pub mod realm;
mod records;
mod replies;
pub mod request;
mod rooms;
mod standing;
mod told;

pub use ending::Ending;
pub use laws::enabled_by_both;
pub use nostep::NoStep;
pub use realm::Realm;
pub use request::{EventRef, Request};
