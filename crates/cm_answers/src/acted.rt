//! What became of an action that a call needed.

use cm_world::{ActKind, Outcome, Reply};

/// What became of an action that a call asked for.
#[derive(Drop)]
pub enum ActionResult {
    /// An action of this kind and number was begun or joined, and has ended in this.
    Ended(ActKind, u64, Outcome),
    /// There was nothing to begin, as this reply says: `Already`, `Gone` or `Shut`.
    Quiet(Reply),
}
