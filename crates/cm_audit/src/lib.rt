//! The audit of journals.
//!
//! [`audit`] reads a journal, as [`cm_reply::header_text`] and [`cm_reply::entry_text`] write it, and says
//! whether it is the history of a realm, or else what comes first in it: an entry that a realm can't
//! have made there, or a line that isn't in the grammar. It makes the steps of the entries again, one
//! by one, on a realm of its own, and compares the texts of their replies.
//!
//! Which steps a realm makes is said by `cm_world`. That a journal can be audited is this project's
//! own; Fuchsia's component manager keeps no such history.
//!
//! | file of `specs/` | says |
//! |---|---|
//! | `Journal` | where the reading of a journal stands, and which line leads on |
//! | `Expected` | what is expected in the place of a wrong reply |
//! | `Verdict` | the verdict on a journal, and how it is written |
//! | `Reading` | what the functions that read a journal promise |
//! | `Laws` | that a text has one verdict, and that a prefix which is too large has that of the whole |
#![tactic(auto)]

mod auditor;
mod entries;
mod fault;
mod head;
mod judging;
pub mod laws;
mod lines;
mod picks;
mod steps;
mod valid;
mod verdict;

pub use auditor::audit;
pub use verdict::Audit;
