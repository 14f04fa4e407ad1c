//! What finding by names reads of a table.

ghost use Rattle.cm_table.specs.Tree.{Tree};

use crate::table::Table;
use cm_names::ChildName;
use cm_world::{StepCount, Store, View};
use std::sync::ledger::Ledger;

impl<L: Ledger> Store<L> for Table {
    ghost rows = { λ (t : Tree). t.rows };

    ghost next_inc = { λ (t : Tree). t.next_inc };

    /// Whether the instance lives and its declaration is known. Costs one counted step.
    fn is_resolved(&self, inc: u64, steps: &mut StepCount<L>) -> bool {
        steps.tick();
        self.decl(inc).is_some()
    }

    /// The child of that name that lives under the instance. Costs one counted step.
    fn child(&self, parent: u64, name: &ChildName, steps: &mut StepCount<L>) -> Option<u64> {
        steps.tick();
        View::child(self, parent, name)
    }
}
