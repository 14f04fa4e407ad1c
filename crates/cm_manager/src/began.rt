//! What became of a begin, of a start, of a pick and of an event, before what follows from it.

use cm_answers::ActionResult;
use cm_names::List;
use cm_world::{ActKind, Outcome, Refusal, Reply};

/// What became of the begin of an action, in the turns of one caller.
#[derive(Drop)]
pub(crate) enum Began {
    /// The caller began the action of this number and has ended it in this; for a start with the
    /// instance's eager children.
    Ended(u64, Outcome, List<u64>),
    /// Another caller had begun the action of this number, and it has ended in this.
    Joined(u64, Outcome),
    /// There was nothing to begin, as this reply says.
    Quiet(Reply),
    /// This instance has to be resolved first.
    Needs(u64),
}

/// What became of a start, before its eager children.
#[derive(Drop)]
pub(crate) enum Launch {
    /// It is over, and has no eager children to start.
    Settled(Result<ActionResult, Refusal>),
    /// The caller itself started the instance by the action of this number, and these are its
    /// eager children.
    Children(u64, List<u64>),
}

/// What one pick of a shutdown came to.
#[derive(Drop)]
pub(crate) enum PickTurn {
    /// All at and below the target is shut.
    Done,
    /// One instance was shut, or stopped; there may be more of them.
    Further,
    /// The call ends here.
    Cut(Refusal),
}

/// What a reply asks of its caller.
#[derive(Drop)]
pub(crate) enum Demand {
    /// An action of this kind at this instance, and then the event again.
    Action(ActKind, u64),
    /// Nothing: it decides its event.
    Decided(Reply),
}
