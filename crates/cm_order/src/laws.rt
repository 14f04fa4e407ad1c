//! Laws of shutdowns.
//!
//! These functions do nothing, and no code calls them: what each of them promises is a fact about the
//! definitions that the contract of [`pick`](crate::pick) cites, which its proof shows.

ghost use Rattle.cm_trees.specs.LawsInside.{HasNoDeadEnd};

/// A shutdown never comes to a dead end: as long as an instance at or below one that is being shut
/// down isn't shut, some such instance may stop.
pub fn has_no_dead_end()
    ensures { HasNoDeadEnd }
{}
