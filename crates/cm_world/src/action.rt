//! Actions, which take time: resolving, starting and stopping an instance.
//!
//! An action begins in one event and ends in another. Between the two its beginner does the
//! work, and the tree goes on: nobody else begins an action at the same instance meanwhile.

use cm_decl::{Decl, Section};
use cm_names::{List, Moniker, Name, Plain, Shared, Text};

/// What an action does to an instance.
///
/// These are the operations of `fuchsia.sys2.LifecycleController`: `ResolveInstance`,
/// `StartInstance` and `StopInstance`.
#[derive(Clone, Copy, PartialEq, Eq)]
pub enum ActKind {
    /// The instance gets its declaration, and its children become instances.
    Resolve,
    /// Its program is started by its runner.
    Start,
    /// Its program is stopped.
    Stop,
}

impl Plain for ActKind {
    ghost use Rattle.std.proofs.Common.{rules};

    ghost exact = { Prim.search rules };
}

/// The fault of a manifest that couldn't be used, as the checker of manifests reports it.
#[derive(Clone, Copy)]
pub struct FaultNote {
    /// The number of the fault.
    pub number: u8,
    /// The section that it stands in.
    pub section: Section,
    /// The item or row of that section, counted from 0.
    pub index: u32,
}

impl Plain for FaultNote {
    ghost use Rattle.std.proofs.Common.{rules};

    ghost exact = { Prim.search rules };
}

/// What became of an action.
#[derive(Clone, Copy)]
pub enum Outcome {
    /// A resolve: the instance has its declaration.
    Resolved,
    /// A start: the program runs.
    Started,
    /// A stop: the program has stopped.
    Stopped,
    /// A stop: the program had to be stopped by force.
    Killed,
    /// A resolve: nothing is known under the URL.
    Absent,
    /// A resolve: the URL isn't one, or none can be made of it.
    BadUrl,
    /// A resolve: the manifest has this fault.
    Invalid(FaultNote),
    /// A start: the runner refused the program.
    Declined,
    /// A resolve or a start: the resolver or the runner failed.
    GateFailed,
    /// A resolve: the children don't fit in the limit of instances.
    Full,
    /// A resolve: memory ran out.
    NoMemory,
}

impl Plain for Outcome {
    ghost use Rattle.std.proofs.Common.{rules};

    ghost exact = { Prim.search rules };
}

/// What the beginner of an action reports at its end.
#[derive(Drop)]
pub enum Finish {
    /// A resolve found this absolute URL and this declaration.
    Resolved(Text, Shared<Decl>),
    /// Every other end.
    Other(Outcome),
}

/// What the beginner of an action has to do.
#[derive(Drop, Clone)]
pub struct Work {
    /// The number of the action.
    pub action: u64,
    /// The instance.
    pub inc: u64,
    /// Where the instance stands.
    pub moniker: Moniker,
    /// For a resolve, the absolute URL of the parent; empty for the root, a start and a stop.
    pub base: Text,
    /// For a resolve, the URL as declared; for a start and a stop the absolute one.
    pub url: Text,
    /// For a start and a stop, the runner of the program, if the instance has a program.
    pub runner: Option<Name>,
    /// For a start, the children that start together with the instance, in the order of its
    /// declaration.
    pub eager: List<u64>,
}

impl Plain for Work {
    ghost use Rattle.std.proofs.Common.{rules};

    ghost exact = { Prim.search rules };
}

/// An action that was begun. It is kept when it has ended.
#[derive(Clone, Copy)]
pub struct Act {
    /// Its number; the first action is 1.
    pub action: u64,
    /// What it does.
    pub kind: ActKind,
    /// The instance.
    pub inc: u64,
    /// The caller that began it, who alone may end it.
    pub by: u32,
    /// What became of it, once it has ended.
    pub outcome: Option<Outcome>,
}

/// A caller that joined an action of another and hasn't had its outcome yet.
#[derive(Clone, Copy)]
pub struct Join {
    /// The caller that waits.
    pub caller: u32,
    /// The action.
    pub action: u64,
}
