//! The rows of a realm tree.

use crate::ActKind;
use cm_decl::{Decl, Give};
use cm_names::{ChildName, List, Shared, Text};

/// A component instance that lives.
///
/// The life of an instance is that of Fuchsia's component framework ("Component lifecycle",
/// fuchsia.dev): it is created, resolved, started, stopped and destroyed. Before it is destroyed
/// it is shut down: from then on it never runs again.
pub struct Row {
    /// Its incarnation, which no other instance of the history has, before or after.
    pub inc: u64,
    /// The incarnation of its parent; `None` for the root.
    pub parent: Option<u64>,
    /// Its name among the children of its parent; `None` for the root.
    pub name: Option<Shared<ChildName>>,
    /// Its URL as the parent declared it, or as it was created with.
    pub url: Text,
    /// Its absolute URL, once it is resolved.
    pub absolute: Option<Text>,
    /// Its declaration, once it is resolved.
    pub decl: Option<Shared<Decl>>,
    /// Whether its program runs.
    pub on: bool,
    /// The action that was begun here and hasn't ended, with its number.
    pub pending: Option<(ActKind, u64)>,
    /// Whether it is being shut down, with all below it.
    pub closing: bool,
    /// Whether it is being destroyed, with all below it.
    pub doomed: bool,
    /// Whether it is shut down.
    pub shut: bool,
    /// What it alone was offered when it was created in a collection.
    pub gives: List<Give>,
}

impl Drop for Row {
    /// Called where the value goes: gives back the memory of its parts.
    fn drop(self) {
        let Row {
            inc: _,
            parent: _,
            name: _,
            url: _,
            absolute: _,
            decl: _,
            on: _,
            pending: _,
            closing: _,
            doomed: _,
            shut: _,
            gives: _,
        } = self;
    }
}
