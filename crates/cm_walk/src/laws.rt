//! Laws of walks.
//!
//! These functions do nothing, and no code calls them: what each of them promises is a fact about the
//! definitions that the contract of [`walk`](crate::walk) cites, which its proof shows.

ghost use Rattle.cm_walk.specs.Laws as laws;

/// A walk says that there is no such use exactly where no use of the instance has the path.
pub fn says_no_use()
    ensures { laws.SaysNoUse }
{}

/// A find replies as its moniker leads: with the instance that stands there, with the one on the
/// way that isn't resolved, or with all names that are found.
pub fn finds_as_located()
    ensures { laws.FindsAsLocated }
{}
