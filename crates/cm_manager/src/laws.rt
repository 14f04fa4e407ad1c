//! Laws of calls.
//!
//! These functions do nothing: what each of them promises is a fact about calls, which its proof
//! shows.

ghost use Rattle.cm_manager.specs.Laws as laws;

use cm_laws::{marks_stay, shutdowns_last};

/// What an answer says of an instance holds in the tree that the caller has seen then. A `Manager` calls it,
/// for this fact, in its `shutdown` and `destroy`.
///
/// Behind a shutdown that was answered `Shut`, all at and below the instance that the call found
/// for its target is shut. Behind a destruction that was answered `Destroyed`, that instance was
/// there once, and isn't any more.
pub fn answers_hold()
    ensures shut { laws.ShutdownsLeaveShut }
    ensures removed { laws.DestructionsRemove }
{
    marks_stay();
    shutdowns_last();
}
