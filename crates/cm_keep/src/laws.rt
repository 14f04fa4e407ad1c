//! A law of journals that are kept.
//!
//! The function does nothing and no code calls it: what it promises is a fact, which its proof shows.

ghost use Rattle.cm_keep.specs.Keeping.{LimitsAreUntold};

/// What is kept is the journal of the realm, as a run of a script writes it.
pub fn limits_are_untold()
    ensures { LimitsAreUntold }
{}
