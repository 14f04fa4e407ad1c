//! What comes back of serving all links of a door.

use cm_names::List;
use cm_turn::Pass;
use cm_world::{Entry, Frame};

/// A link that was served, and by which worker.
#[derive(Debug, Drop)]
pub struct Back<L> {
    pub worker: u32,
    pub link: L,
}

/// Why no more links were served: the first of these that applies.
#[derive(Debug, Clone, Copy, PartialEq, Eq)]
pub enum Cause {
    /// As many links came as were asked for, or no further one comes.
    Done,
    /// The door failed; its count of faults rose.
    DoorFault,
    /// A session ended for lack of memory, or there was none to begin with.
    Memory,
}

/// What comes back of serving all links of a door.
#[derive(Drop)]
pub struct Served<D, L, G> {
    /// The passes, in the order of their callers.
    pub passes: List<Pass<Entry, Frame>>,
    /// The gates, in the order of their callers.
    pub gates: List<G>,
    /// The door.
    pub door: D,
    /// All links that came, worker by worker, and each worker's as its sessions followed one another.
    pub links: List<Back<L>>,
    /// Why no more were served.
    pub cause: Cause,
}
