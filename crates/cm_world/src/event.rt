//! Events, which read and change a realm tree.

use crate::{ActKind, Finish};
use cm_decl::Give;
use cm_names::{Boxed, CapPath, List, Moniker, Name, Text};

/// Which instance a command means.
pub enum Target {
    /// The one that stands there.
    Named(Moniker),
    /// The one of this incarnation, whatever stands in its place now.
    Inc(u64),
}

impl Drop for Target {
    /// Called where the value goes: gives back the memory of its parts.
    fn drop(self) {
        match self {
            Target::Named(_) => {}
            Target::Inc(_) => {}
        }
    }
}

/// What a child is created with.
#[derive(Drop)]
pub struct NewChild {
    /// The collection that it comes into.
    pub coll: Name,
    /// Its name there.
    pub name: Name,
    /// Its URL.
    pub url: Text,
    /// What is offered to it alone.
    pub gives: List<Give>,
}

/// One event of a realm tree, which is made as a whole or not at all. A number is the
/// incarnation of an instance, unless the variant says otherwise.
pub enum Event {
    /// Which instance stands there?
    Find(Moniker),
    /// Begins an action at an instance, or joins the one that was begun.
    Begin(ActKind, u64),
    /// Ends the action of this number, which the caller began.
    End(u64, Finish),
    /// Takes the outcome of the action of this number, which the caller joined.
    Await(u64),
    /// Creates a child of an instance in a collection: `CreateChild` of `fuchsia.component.Realm`.
    Create(u64, Boxed<NewChild>),
    /// Marks an instance: where true is given to be destroyed, else to be shut down.
    Mark(bool, u64),
    /// Picks one instance to stop next, so that the one given shuts down with all below it.
    Pick(u64),
    /// Removes an instance that was marked to be destroyed, with all below it.
    Purge(u64),
    /// Where does what an instance uses at this path come from?
    Route(u64, CapPath),
    /// Opens what an instance uses at this path.
    OpenUse(u64, CapPath),
    /// Opens what an instance exposes by this name: `OpenExposedDir` of
    /// `fuchsia.component.Realm`.
    OpenExposed(u64, Name),
    /// Which children has an instance in this collection? `ListChildren` of
    /// `fuchsia.component.Realm`.
    Listing(u64, Name),
    /// How is an instance?
    Show(u64),
    /// How are an instance and all below it?
    Survey(u64),
    /// The program of an instance has ended by itself.
    Exited(u64),
    /// How long is the history now? The second number is the place that the caller reads it
    /// from.
    Tail(u64, u64),
    /// What is left to be removed of an instance that stopped: it itself, or children of it?
    Reap(u64),
}

impl Drop for Event {
    /// Called where the value goes: gives back the memory of its parts.
    fn drop(self) {
        match self {
            Event::Find(_) => {}
            Event::End(_, _) => {}
            Event::Create(_, _) => {}
            Event::Route(_, _) => {}
            Event::OpenUse(_, _) => {}
            Event::OpenExposed(_, _) => {}
            Event::Listing(_, _) => {}
            Event::Begin(_, _)
            | Event::Await(_)
            | Event::Mark(_, _)
            | Event::Pick(_)
            | Event::Purge(_)
            | Event::Show(_)
            | Event::Survey(_)
            | Event::Exited(_)
            | Event::Tail(_, _)
            | Event::Reap(_) => {}
        }
    }
}
