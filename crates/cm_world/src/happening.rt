//! What happened to instances, as a caller reads it from the history.

use cm_names::Moniker;

/// What happened to an instance.
///
/// These are the events `resolved`, `started`, `stopped` and `destroyed` of Fuchsia's event
/// streams ("Event capabilities", fuchsia.dev).
#[derive(Clone, Copy)]
pub enum HappenKind {
    /// It got its declaration.
    Resolved,
    /// Its program was started.
    Started,
    /// Its program has stopped: it was stopped, or it ended by itself.
    Stopped,
    /// It was removed.
    Destroyed,
}

/// One thing that happened to an instance.
pub struct Happening {
    /// The number of the entry that tells of it; the first entry is 1.
    pub number: u64,
    /// What happened.
    pub kind: HappenKind,
    /// Where the instance stood.
    pub moniker: Moniker,
    /// Its incarnation.
    pub inc: u64,
}

impl Drop for Happening {
    /// Called where the value goes: gives back the memory of its parts.
    fn drop(self) {
        let Happening {
            number: _,
            kind: _,
            moniker: _,
            inc: _,
        } = self;
    }
}
