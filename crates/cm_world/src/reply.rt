//! Replies to events, and the entries of a history.

use crate::{Event, Hop, Kid, Look, Lost, Outcome, Route, SurveyRow, Why, Work};
use cm_decl::Node;
use cm_names::{Boxed, List, Moniker, Plain, Shared};

/// The reply to an event. A number is the incarnation of an instance, unless the variant says
/// otherwise.
#[derive(Drop, Clone)]
pub enum Reply {
    /// This instance stands there.
    Found(u64),
    /// This instance has to be resolved first.
    Need(u64),
    /// This instance has no declaration and won't get one: it is being shut down.
    Shut(u64),
    /// This instance doesn't live, or it or one above it is being destroyed.
    Gone(u64),
    /// Nothing stands there; this is the part of the moniker that was found.
    NotFound(Moniker),
    /// The action has begun, and this is to be done.
    Begun(Boxed<Work>),
    /// The action of this number was begun before and hasn't ended; the caller joins it.
    Joined(u64),
    /// The instance is already as the event would make it.
    Already,
    /// The action has ended so.
    Ended(Outcome),
    /// The child has been created.
    Created(u64),
    /// The parent is being shut down.
    Closing(u64),
    /// The instance has no such collection.
    NoCollection,
    /// The child of that name is there already.
    Exists(u64),
    /// The collection takes no offers to one child alone.
    OffersRefused,
    /// The offer at this index, counted from 0, has the fault of this number.
    BadOffer(u32, u8),
    /// With this child the siblings would depend on each other in a ring, which is this one.
    Cycle(List<Node>),
    /// One instance more doesn't fit.
    Full,
    /// The instance has been marked.
    Marked,
    /// The root, and a child that its parent declares, can't be destroyed.
    NotDynamic,
    /// Everything is shut down.
    Done,
    /// This instance is to be stopped now.
    Stopping(Boxed<Work>),
    /// This instance was off, and is shut down now.
    ShutDown(u64),
    /// These instances have been removed, by their incarnations.
    Purged(List<Lost>),
    /// The instance has been removed before.
    PurgedBefore,
    /// The instance has no use of that path.
    NoSuchUse,
    /// The program of the client doesn't run.
    ClientOff,
    /// This instance can't provide anything: it is shut down, or is being shut down.
    SourceShut(u64),
    /// This instance has to be started first.
    NeedStart(u64),
    /// There is no route: the first hop that fails, and why.
    Failed(Shared<Hop>, Why),
    /// The capability is left out on purpose, by this hop.
    Void(Shared<Hop>),
    /// The route by which the capability is given.
    Given(Shared<Route>),
    /// The capability has been opened by this route.
    Opened(Shared<Route>),
    /// The children, by their incarnations.
    Listed(Shared<List<Kid>>),
    /// How the instance is.
    Shown(Look),
    /// How the instances are, by their incarnations.
    Surveyed(Shared<List<SurveyRow>>),
    /// The program that stood there is off now.
    Left(Moniker),
    /// The number of entries before this one.
    Tailed(u64),
    /// These instances are being destroyed and are to be removed, by their incarnations.
    Reaping(List<u64>),
}

impl Plain for Reply {
    ghost use Rattle.std.proofs.Common.{rules};

    ghost exact = { Prim.search rules };
}

/// One entry of a history: who made which event, and what it was replied.
pub struct Entry {
    /// The number of the caller.
    pub caller: u32,
    /// The event.
    pub event: Event,
    /// Its reply.
    pub reply: Reply,
}

impl Drop for Entry {
    /// Called where the value goes: gives back the memory of its parts.
    fn drop(self) {
        let Entry {
            caller: _,
            event: _,
            reply: _,
        } = self;
    }
}
