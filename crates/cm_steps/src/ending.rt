//! How an action ends.

ghost use Rattle.std.specs.Prelude.{◌≡◌, ◌≤◌, ◌+◌};
ghost use Rattle.cm_world.specs.End.{outcome_by, rows_by};
ghost use Rattle.cm_table.specs.Change.{next_by};
ghost use Rattle.cm_steps.specs.Ends.{finish_of, takes_of, CanTakeEnd};

use cm_table::{Prepared, Settled, Table};
use cm_world::{Finish, Outcome};

/// What the beginner of an action reports at its end.
#[derive(Drop)]
pub enum Ending {
    /// A resolve found this declaration. The memory that it needs has been taken before.
    Resolved(Prepared),
    /// Every other end.
    Other(Outcome),
}

/// Ends the action of an instance, and answers how the history keeps that. It takes no memory.
pub(crate) fn end_at(table: &mut Table, inc: u64, ending: Ending) -> Settled
    requires { CanTakeEnd table.old inc ending }
    ensures finish { result.finish ≡ finish_of ending }
    ensures outcome { let old = table.old in
        result.outcome ≡ outcome_by old.limit old.rows old.next_inc (finish_of ending) }
    ensures rows { let old = table.old in
        table.new.rows ≡ rows_by inc old.next_inc (finish_of ending) result.outcome old.rows }
    ensures next { let next = table.old.next_inc in
        table.new.next_inc ≡ next_by next (finish_of ending) result.outcome }
    ensures spare { table.old.spare ≤ table.new.spare + takes_of (finish_of ending) }
    ensures builtins { table.new.builtins ≡ table.old.builtins }
    ensures limit { table.new.limit ≡ table.old.limit }
{
    match ending {
        Ending::Resolved(prepared) => table.settle(inc, prepared),
        Ending::Other(outcome) => {
            table.end(inc, outcome);
            Settled {
                finish: Finish::Other(outcome),
                outcome,
            }
        }
    }
}
