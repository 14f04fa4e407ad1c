//! Answers to commands.

use crate::{Happening, Hop, Kid, Look, Outcome, Route, SurveyRow, Why};
use cm_decl::Node;
use cm_names::{CapPath, List, Moniker, Shared};

/// Why a command was refused. The number in front is the one that is printed; a number inside is
/// the incarnation of an instance, unless the variant says otherwise.
///
/// Five of them stand for errors of `fuchsia.component.Error`: 60 for `COLLECTION_NOT_FOUND`,
/// 61 for `INSTANCE_ALREADY_EXISTS`, 80 for `INSTANCE_NOT_FOUND`, 83 for
/// `INSTANCE_CANNOT_RESOLVE` and 84 for `INSTANCE_CANNOT_START`.
pub enum Refusal {
    /// 60: the instance has no such collection.
    CollectionNotFound,
    /// 61: the child of that name is there already.
    AlreadyExists(u64),
    /// 62: the collection takes no offers to one child alone.
    DynamicOffersRefused,
    /// 63: the offer at this index, counted from 0, has the fault of this number.
    BadOffer(u32, u8),
    /// 64: with this child the siblings would depend on each other in this ring.
    OfferCycle(List<Node>),
    /// 65: the parent is being shut down.
    ParentClosing(u64),
    /// 67: one instance more doesn't fit.
    Full,
    /// 68: the root, and a child that its parent declares, can't be destroyed.
    NotDynamic,
    /// 69: the history is full.
    HistoryFull,
    /// 80: nothing stands there; this is the part of the moniker that was found.
    NotFound(Moniker),
    /// 81: the instance doesn't live, or it or one above it is being destroyed.
    Gone(u64),
    /// 82: the instance has no declaration and won't get one: it is being shut down.
    Shut(u64),
    /// 83: an action of this number, which the command needed, couldn't resolve its instance:
    /// `Absent`, `BadUrl`, `Invalid`, `GateFailed` or `Full`.
    CannotResolve(u64, Outcome),
    /// 84: an action of this number, which the command needed, couldn't start its instance:
    /// `Declined` or `GateFailed`.
    CannotStart(u64, Outcome),
    /// 85: the program of the client doesn't run.
    ClientOff,
    /// 86: the instance has no use of that path.
    NoSuchUse,
    /// 87: there is no route: the first hop that fails, and why.
    NoRoute(Shared<Hop>, Why),
    /// 88: the capability is left out on purpose, by this hop.
    VoidSource(Shared<Hop>),
    /// 89: the instance can't provide anything: it is shut down, or is being shut down.
    SourceShut(u64),
    /// Memory ran out. It has no number.
    Memory,
}

impl Drop for Refusal {
    /// Called where the value goes: gives back the memory of its parts.
    fn drop(self) {
        match self {
            Refusal::OfferCycle(_) => {}
            Refusal::NotFound(_) => {}
            Refusal::NoRoute(_, _) => {}
            Refusal::VoidSource(_) => {}
            Refusal::CollectionNotFound
            | Refusal::AlreadyExists(_)
            | Refusal::DynamicOffersRefused
            | Refusal::BadOffer(_, _)
            | Refusal::ParentClosing(_)
            | Refusal::Full
            | Refusal::NotDynamic
            | Refusal::HistoryFull
            | Refusal::Gone(_)
            | Refusal::Shut(_)
            | Refusal::CannotResolve(_, _)
            | Refusal::CannotStart(_, _)
            | Refusal::ClientOff
            | Refusal::NoSuchUse
            | Refusal::SourceShut(_)
            | Refusal::Memory => {}
        }
    }
}

/// What a check of all routes found out of one use, or of an instance that isn't resolved.
pub struct Checked {
    /// Where the instance stands.
    pub moniker: Moniker,
    /// The path of the use; `None` for an instance that isn't resolved.
    pub path: Option<CapPath>,
    /// The route of the use, or why it has none; `NoSuchUse` for an instance that isn't
    /// resolved.
    pub result: Result<Shared<Route>, Refusal>,
}

impl Drop for Checked {
    /// Called where the value goes: gives back the memory of its parts.
    fn drop(self) {
        let Checked {
            moniker: _,
            path: _,
            result: _,
        } = self;
    }
}

/// What a command is answered where it isn't refused.
pub enum Answer {
    /// The instance is resolved: by the action of this number, or since before.
    Resolved(Option<u64>),
    /// The instance is started: by the action of this number, or since before.
    Started(Option<u64>),
    /// The instance is stopped: by the action of this number, or since before; and whether it
    /// had to be stopped by force.
    Stopped(Option<u64>, bool),
    /// The instance is shut down, with all below it.
    Shut,
    /// The child of this incarnation has been created.
    Created(u64),
    /// The child has been destroyed.
    Destroyed,
    /// The children, by their incarnations.
    Children(Shared<List<Kid>>),
    /// The capability has been opened by this route.
    Opened(Shared<Route>),
    /// The route by which the capability is given.
    Routed(Shared<Route>),
    /// How the instance is.
    Shown(Look),
    /// How the instances are, by their incarnations.
    Surveyed(Shared<List<SurveyRow>>),
    /// What the check of all routes found out, use by use.
    Doctored(List<Checked>),
    /// The program is off, and whether it was on before.
    Left(bool),
    /// So many entries had been made, and this is what they tell of the instances asked about.
    Streamed(u64, List<Happening>),
}

impl Drop for Answer {
    /// Called where the value goes: gives back the memory of its parts.
    fn drop(self) {
        match self {
            Answer::Children(_) => {}
            Answer::Opened(_) => {}
            Answer::Routed(_) => {}
            Answer::Shown(_) => {}
            Answer::Surveyed(_) => {}
            Answer::Doctored(_) => {}
            Answer::Streamed(_, _) => {}
            Answer::Resolved(_)
            | Answer::Started(_)
            | Answer::Stopped(_, _)
            | Answer::Shut
            | Answer::Created(_)
            | Answer::Destroyed
            | Answer::Left(_) => {}
        }
    }
}
