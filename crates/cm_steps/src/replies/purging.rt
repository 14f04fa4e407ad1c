//! What a purge comes to.

ghost use Rattle.std.specs.Prelude.{◌≡◌, IfOk};
ghost use Rattle.cm_world.specs.Rows.{is_live};
ghost use Rattle.cm_steps.specs.Answers.{AnswersPurge};

use crate::replies::telling::{Reportable, told_below};
use cm_names::{List, Memory};
use cm_table::Table;
use cm_walk::hop::moniker;
use cm_world::{Lost, View};
use std::alloc::Global;

/// What a purge comes to.
#[derive(Drop)]
pub enum PurgeAnswer {
    /// The instance doesn't live any more.
    Before,
    /// It is removed with all below it, which are these.
    Removes(List<Lost>),
}

/// What a purge comes to, read of a tree that stays as it is: [`crate::Realm::purge`] takes the step.
/// `Err` where memory runs out.
pub fn purge_answer(alloc: Global, table: &Table, inc: u64) -> Result<PurgeAnswer, Memory>
    ensures { IfOk result (AnswersPurge table.now.rows inc) }
{
    if !is_live(table, inc) {
        return Ok(PurgeAnswer::Before);
    }
    let lost = told_below(alloc, table, inc)?;
    Ok(PurgeAnswer::Removes(lost))
}

/// Whether the tree has an instance with this incarnation.
fn is_live<V: View>(view: &V, inc: u64) -> bool
    ensures { result ≡ is_live (V.rows view.now) inc }
{
    match view.facts(inc) {
        None => false,
        Some(_facts) => true,
    }
}

impl Reportable for Lost {
    ghost use Rattle.cm_steps.specs.Reporting.{lost_row};

    ghost told_of = { lost_row };

    /// Each row at and below the purged one is told, with its moniker.
    fn told(alloc: Global, table: &Table, inc: u64) -> Result<Option<Lost>, Memory> {
        let moniker = moniker(alloc, table, inc)?;
        Ok(Some(Lost { inc, moniker }))
    }
}
