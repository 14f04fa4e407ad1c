//! A law of events.
//!
//! The function does nothing, and no code calls it: what it promises is a fact about the definitions in
//! `specs/`, which its proof shows.

ghost use Rattle.cm_steps.specs.Enabled.{EnabledByBoth};

/// An event may be made exactly where it may be but for the declaration that it may bring, and that
/// declaration is valid.
pub fn enabled_by_both()
    ensures { EnabledByBoth }
{}
