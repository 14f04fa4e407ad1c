//! The reply to who asks what is left to be removed of an instance that stopped.

ghost use Rattle.std.specs.Prelude.{◌≡◌, ◌∷◌, [], IfOk, Some, None, if◌then◌else◌};
ghost use Rattle.cm_world.specs.declared.row.Row.{Row};
ghost use Rattle.cm_world.specs.Rows.{row_of};
ghost use Rattle.cm_world.specs.Expiring as spec;
ghost use Rattle.cm_world.specs.Sound.{IsOrderly};
ghost use Rattle.cm_steps.specs.Answers.{IsReaped};

use crate::replies::beginning::push_found;
use cm_names::{List, Memory};
use cm_world::{Reply, View};
use std::alloc::Global;

/// What is replied to who asks what is left to be removed of an instance that stopped.
pub fn reap_reply<V: View>(alloc: Global, view: &V, inc: u64) -> Result<Reply, Memory>
    ensures { IfOk result (λ reply. reply ≡ spec.reap_reply (V.rows view.now) inc) }
{
    let incs = reaped(alloc, view, inc)?;
    Ok(Reply::Reaping(incs))
}

/// The instance alone where it is being destroyed, and else its children that are; none where it
/// doesn't live.
fn reaped<V: View>(alloc: Global, view: &V, inc: u64) -> Result<List<u64>, Memory>
    ensures { IfOk result (IsReaped (V.rows view.now) inc) }
{
    match view.facts(inc) {
        None => Ok(List::new(alloc)),
        Some(facts) => reaped_by(alloc, view, inc, facts.doomed),
    }
}

/// What a reap of an instance that lives names: it alone where it is doomed, else its children that
/// are.
fn reaped_by<V: View>(alloc: Global, view: &V, inc: u64, doomed: bool) -> Result<List<u64>, Memory>
    ensures { IfOk result (λ incs. incs
        ≡ (if doomed then inc ∷ [] else spec.doomed_children (V.rows view.now) inc)) }
{
    if doomed {
        return alone(alloc, inc);
    }
    doomed_children(alloc, view, inc)
}

/// The list of this one number. `Err` where memory runs out.
fn alone(alloc: Global, inc: u64) -> Result<List<u64>, Memory>
    ensures { IfOk result (λ incs. incs ≡ inc ∷ []) }
{
    let mut incs = List::new(alloc);
    incs.push(inc)?;
    Ok(incs)
}

/// The children of an instance that are being destroyed, by their incarnations.
fn doomed_children<V: View>(alloc: Global, view: &V, inc: u64) -> Result<List<u64>, Memory>
    ensures { IfOk result (λ incs. incs ≡ spec.doomed_children (V.rows view.now) inc) }
{
    let mut incs = List::new(alloc);
    let mut after = None;
    'next: while let Some(child) = view.next_child(inc, after) {
        let found = if_doomed(view, child);
        push_found(&mut incs, found)?;
        after = Some(child);
    }
    Ok(incs)
}

/// The instance, if it is being destroyed itself.
fn if_doomed<V: View>(view: &V, inc: u64) -> Option<u64>
    ensures doomed { (r : Row) → row_of (V.rows view.now) inc ≡ Some r
        → result ≡ (if r.doomed then Some inc else None) }
    ensures orderly { IsOrderly (V.rows view.now) (V.next_inc view.now) }
{
    match view.facts(inc) {
        Some(facts) if facts.doomed => Some(inc),
        _ => None,
    }
}
