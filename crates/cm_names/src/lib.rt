//! The small types that every other part of the component manager is made of: texts, lists,
//! names, paths, monikers, rights, the texts of URLs, the words of a manifest, and values that are
//! shared.
//!
//! Contracts see [`Text`] as the list of its bytes, [`List`] as the list of its items, a name or a
//! path as the bytes of its text, and [`Shared`] as the value itself, so that definitions speak of
//! plain lists and values. So they see [`Chain`], whose copies and branches share their names.
#![tactic(auto)]

pub mod availability;
pub mod boxed;
pub mod chain;
pub mod child;
pub mod dependency;
pub mod grammar;
pub mod limits;
mod link;
pub mod list;
pub mod memory;
pub mod moniker;
pub mod name;
pub mod path;
pub mod plain;
pub mod rights;
pub mod shared;
mod short;
pub mod text;
pub mod url;

pub use availability::Availability;
pub use boxed::Boxed;
pub use chain::Chain;
pub use child::ChildName;
pub use dependency::Dependency;
pub use grammar::MonikerState;
pub use limits::{MAX_NAME_BYTES, MAX_PATH_BYTES, MAX_URL_BYTES};
pub use list::{Bytes, List};
pub use memory::Memory;
pub use moniker::{Moniker, MonikerFault};
pub use name::{Name, NameFault};
pub use path::{CapPath, PathFault, SubDir};
pub use plain::Plain;
pub use rights::{Right, Rights, RightsFault};
pub use shared::Shared;
pub use text::Text;
