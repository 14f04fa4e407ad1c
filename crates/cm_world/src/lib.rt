//! The realm tree: its data types, and the definitions of what each event may do to it.
//!
//! A tree of component instances is changed by events, one at a time. Each event gets a reply,
//! and the event with its reply and its caller is an [`Entry`] of the tree's history. The
//! definitions in `specs/` say which entries a history may hold, and which tree it leaves; every
//! crate above is proved against them.
//!
//! | file of `specs/` | says |
//! |---|---|
//! | `World`, `Rows` | what the tree is, and what is read of its rows |
//! | `NextStation`, `Route` | where a capability comes from, and what a walk along its route comes to |
//! | `Offering` | where the offer stands by which a row gets what it wants from its parent |
//! | `Located` | where a moniker leads |
//! | `Level`, `Stopping`, `Clients` | which instance depends on which, and which may stop now |
//! | `Work`, `Begin`, `End` | the replies to actions, and what they change |
//! | `Find`, `Create`, `Marks`, `Openings`, `Reports` | the other replies, kind by kind |
//! | `Expiring` | which instances go with one that stops, and what is left to be removed of it |
//! | `Step`, `After` | the events that are enabled, the replies allowed, the tree after them |
//! | `Legal`, `Sound` | histories, and orderly and sound trees |
//! | `Laws`, `Ending` | laws of the definitions, and why every walk ends |
//! | `Examples`, `Worlds` and others | short realms that worked examples speak of |
//!
//! The behaviour is that of Fuchsia's component framework (fuchsia.dev: "Capability routing",
//! "Component lifecycle", "Component manifest reference") and of its protocols
//! `fuchsia.component.Realm` and `fuchsia.sys2.LifecycleController`. What these leave open is
//! this project's own choice.
#![tactic(auto)]

pub mod action;
pub mod answer;
pub mod event;
pub mod frame;
pub mod happening;
pub mod laws;
pub mod reply;
pub mod report;
pub mod route;
pub mod row;
pub mod steps;
pub mod store;
pub mod view;

pub use action::{Act, ActKind, FaultNote, Finish, Join, Outcome, Work};
pub use answer::{Answer, Checked, Refusal};
pub use event::{Event, NewChild, Target};
pub use frame::{Builtin, Frame, Limits};
pub use happening::{HappenKind, Happening};
pub use reply::{Entry, Reply};
pub use report::{Kid, Look, Lost, SurveyRow};
pub use route::{Hop, Provider, Route, Start, StepKind, Walked, Why};
pub use row::Row;
pub use steps::StepCount;
pub use store::{Located, Store};
pub use view::{Facts, ParentPlace, View};
