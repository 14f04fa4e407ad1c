//! Answers that are kept.

use cm_names::CapPath;
use cm_world::Walked;

/// What the walk from a use came to.
#[derive(Drop)]
pub struct CachedAnswer {
    /// The instance, by its incarnation.
    pub inc: u64,
    /// The path of its use.
    pub path: CapPath,
    /// What the walk came to.
    pub walked: Walked,
}
