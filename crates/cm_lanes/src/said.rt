//! What lanes hand back.

use cm_names::List;
use cm_turn::Pass;
use cm_world::{Answer, Entry, Frame, Refusal};

/// A line and what was answered to it.
#[derive(Drop)]
pub struct Said {
    /// The number of the line, as the script counts it.
    pub line: u32,
    /// The lane that performed it, 0 to 15.
    pub lane: u32,
    /// The answer, or why it was refused.
    pub result: Result<Answer, Refusal>,
}

/// What comes back of running a script in lanes.
#[derive(Drop)]
pub struct Lanes<G> {
    /// The passes, in the order of their callers.
    pub passes: List<Pass<Entry, Frame>>,
    /// The gates, in the order of their lanes.
    pub gates: List<G>,
    /// What was said to each line, in the order of the script; `None` where memory ran out for it.
    pub said: Option<List<Said>>,
}
