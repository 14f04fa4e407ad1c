//! What replies, and the ends of actions, mean for a call of the component manager.
//!
//! Nothing here takes a turn or asks a gate: these are the readings between two of those. The calls
//! themselves are in the crate above.
//!
//! | file of `specs/` | says |
//! |---|---|
//! | `Answers` | which refusal or answer a reply, or the end of an action, comes to |
//! | `Lines` | the lines of a check of all routes |
//! | `Questions` | the command that makes a request, and what follows its reply |
#![tactic(auto)]

mod acted;
mod answers;
pub mod ended;
mod lines;
mod question;

pub use acted::ActionResult;
pub use answers::{behind, decided, ending, found, refusing, unless_ended, unmarked};
pub use ended::{ending_of_eager, if_failed};
pub use lines::{doctored, found_at, or_memory, route_in, rows_in, with_unresolved};
pub use question::{Follow, following, request_of};
