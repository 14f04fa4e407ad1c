//! How the component manager writes what it answers, and the journal of what it did.
//!
//! [`reply_text`] writes the answer to a command, or why the command was refused. [`entry_text`]
//! writes an entry of a tree's history, and [`header_text`] the lines that a journal begins with:
//! together they are the journal, from which a history can be checked again. [`read_entry`] reads such
//! an entry back.
//!
//! Instances are written by their monikers, and refusals carry a number and a word. Where
//! `fuchsia.component.Error` has an error for a refusal, as `INSTANCE_NOT_FOUND`, its variant in
//! [`cm_world::Refusal`] names it (fuchsia.dev). The words, their order and the numbers are this
//! project's own choice.
//!
//! | file of `specs/` | says |
//! |---|---|
//! | `Lists` | texts of lists, and of what may be missing |
//! | `Routes` | how routes, their hops, and the reasons why there is none are written |
//! | `States` | how actions, their outcomes and the states of instances are written |
//! | `Refusals`, `Answers` | how the answers to commands are written |
//! | `Events`, `Replies` | how events and their replies are written |
//! | `Journal` | the journal, line by line |
//! | `Legible` | which entries a journal can tell of |
//! | `Lines` | which line tells of which entry |
//! | `EventWords`, `Reading` | events by their first words, and what the readers of parts promise |
//! | `Laws`, `Examples`, `Tables` | how a journal grows, and texts that are written out |
#![tactic(auto)]

mod answers;
mod entries;
mod entry_words;
mod event_words;
mod events;
mod journal;
pub mod laws;
pub mod lists;
mod outcome_words;
mod reading;
mod refusals;
mod replies;
pub mod routes;
mod states;
pub mod words;

pub use answers::{push_reply, reply_text};
pub use entries::{JournalLine, read_entry};
pub use entry_words::EntryFault;
pub use journal::{builtin_text, entry_text, header_text, push_entry};
pub use replies::replied_text;
