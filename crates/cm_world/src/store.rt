//! Finding by names, where each look is counted.

use crate::steps::StepCount;
use cm_names::ChildName;
use std::sync::ledger::Ledger;

/// Where a moniker leads.
#[derive(Clone, Copy)]
pub enum Located {
    /// To this instance.
    Found(u64),
    /// To this instance, which isn't resolved, with names left.
    Unresolved(u64),
    /// So many names are found, and the next one isn't. A number above 2^32 - 1 is told as that.
    Missing(u32),
}

/// A tree of instances that are found by their names, with one counter for the looks at it: a look takes
/// no other. Who asks it has to know that it is orderly and that its root lives; no call says so.
pub trait Store<L: Ledger>: Drop {
    ghost use Rattle.std.specs.Prelude.{◌≡◌, ◌+◌, ℕ, List as Seq, IsTrue};
    ghost use Rattle.cm_world.specs.declared.row.Row.{Row};
    ghost use Rattle.cm_world.specs.Rows.{is_live, is_resolved, child_of};

    // The rows of the tree.
    ghost rows: { Self → Seq Row };

    // The incarnation that the next new row gets.
    ghost next_inc: { Self → ℕ };

    /// Whether the instance is resolved. This is one step.
    fn is_resolved(&self, inc: u64, steps: &mut StepCount<L>) -> bool
        requires lives { IsTrue (is_live (rows self.now) inc) }
        ensures resolved { result ≡ is_resolved (rows self.now) inc }
        ensures cost { steps.new ≡ steps.old + 1 };

    /// The child of that name, or `None` where there is none that isn't being destroyed. This is
    /// one step.
    fn child(&self, parent: u64, name: &ChildName, steps: &mut StepCount<L>) -> Option<u64>
        requires resolved { IsTrue (is_resolved (rows self.now) parent) }
        ensures child { result ≡ child_of (rows self.now) parent name.now }
        ensures cost { steps.new ≡ steps.old + 1 };
}
