//! The replies that tell how an instance is and how long the history is, and to the exit of a
//! program.

ghost use Rattle.std.specs.Prelude.{◌≡◌, IfOk, Some, is_some};
ghost use Rattle.cm_world.specs.declared.row.Row.{Row};
ghost use Rattle.cm_world.specs.Rows.{row_of};
ghost use Rattle.cm_world.specs.RowsInside.{facts_of};
ghost use Rattle.cm_world.specs.Reports.{show_reply, look_at, tail_reply};
ghost use Rattle.cm_steps.specs.Answers.{AnswersExit};

use crate::replies::beginning::text_or_empty;
use cm_names::{Memory, Moniker, Text};
use cm_table::Table;
use cm_walk::above::{is_gone, is_resolved};
use cm_walk::hop::moniker;
use cm_world::{Facts, Look, Reply, View};
use std::alloc::Global;

/// What an exit comes to.
#[derive(Drop)]
pub enum ExitAnswer {
    /// It has to wait for the action of this number.
    Busy(u64),
    /// It changes nothing, and this is the reply.
    Quiet(Reply),
    /// The program is off from now on, of the instance that stands here.
    Leaves(Moniker),
}

/// What is replied to who asks how an instance is.
pub fn shown(alloc: Global, table: &Table, inc: u64) -> Result<Reply, Memory>
    ensures { IfOk result (λ reply. reply ≡ show_reply table.now.rows inc) }
{
    if is_gone(table, inc) {
        return Ok(Reply::Gone(inc));
    }
    match table.facts(inc) {
        None => Ok(Reply::Gone(inc)),
        Some(facts) => shown_row(alloc, table, inc, facts),
    }
}

/// What is replied of an instance that lives.
fn shown_row(alloc: Global, table: &Table, inc: u64, facts: Facts) -> Result<Reply, Memory>
    ensures { IfOk result (λ reply. (r : Row) → row_of table.now.rows inc ≡ Some r
        → facts ≡ facts_of r → reply ≡ Reply.Shown (look_at r)) }
{
    let url = text_or_empty(alloc, table.url(inc))?;
    let resolved = is_resolved(table, inc);
    let look = look(inc, facts, url, resolved);
    Ok(Reply::Shown(look))
}

/// The reply's look at a row with these facts, this URL as declared, and whether it is resolved.
fn look(inc: u64, facts: Facts, url: Text, resolved: bool) -> Look
    ensures { (r : Row) → r.inc ≡ inc → facts ≡ facts_of r → url ≡ r.url
        → resolved ≡ is_some r.decl → result ≡ look_at r }
{
    Look {
        inc,
        url,
        resolved,
        on: facts.on,
        closing: facts.closing,
        shut: facts.shut,
        pending: match facts.pending {
            None => None,
            Some((kind, _)) => Some(kind),
        },
    }
}

/// What the exit of the program of an instance comes to.
pub fn exit_answer<V: View>(alloc: Global, view: &V, inc: u64) -> Result<ExitAnswer, Memory>
    ensures { IfOk result (AnswersExit (V.rows view.now) inc) }
{
    let facts = match view.facts(inc) {
        None => return Ok(ExitAnswer::Quiet(Reply::Gone(inc))),
        Some(facts) => facts,
    };
    if let Some((_, action)) = facts.pending {
        return Ok(ExitAnswer::Busy(action));
    }
    if facts.on {
        let moniker = moniker(alloc, view, inc)?;
        Ok(ExitAnswer::Leaves(moniker))
    } else {
        Ok(ExitAnswer::Quiet(Reply::Already))
    }
}

/// What is replied to who asks how long the history is.
pub fn tailed<V: View>(view: &V, inc: u64, entries: u64) -> Reply
    ensures { result ≡ tail_reply (V.rows view.now) entries inc }
{
    if is_gone(view, inc) {
        Reply::Gone(inc)
    } else {
        Reply::Tailed(entries)
    }
}
