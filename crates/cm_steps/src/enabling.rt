//! Whether a caller may make an event now, as far as that takes a look at the tree and its actions.

ghost use Rattle.std.specs.Prelude.{◌≡◌, ◌↔◌, ◌⊎◌, ℕ, List as Seq, IsTrue, IfOk, is_some};
ghost use Rattle.cm_decl.specs.declared.decl.Decl.{Decl as Declaration};
ghost use Rattle.cm_world.specs.Rows.{is_subtree_shut};
ghost use Rattle.cm_world.specs.Sound.{IsSound};
ghost use Rattle.cm_world.specs.Stopping.{CanPick};
ghost use Rattle.cm_world.specs.Begin.{begin_reply};
ghost use Rattle.cm_world.specs.End as end;
ghost use Rattle.cm_world.specs.Reports.{exit_reply};
ghost use Rattle.cm_world.specs.Step as step;
ghost use Rattle.cm_world.specs.Step.{MayAwait};
ghost use Rattle.cm_world.specs.declared.action.ActKind.TheVariants as kind;
ghost use Rattle.cm_world.specs.declared.action.Finish.TheVariants.{Resolved, Other};
ghost use Rattle.cm_laws.specs.Tasks.{IsNumbered};
ghost use Rattle.cm_steps.specs.Enabled as enabled;
ghost use Rattle.cm_steps.specs.Enabled.{MayEndBut};

use crate::pending::{act_at, outcome_at};
use crate::replies::beginning::is_same;
use crate::rooms::waits;
use cm_names::Memory;
use cm_order::{Picked, all_shut, may_close, pick};
use cm_walk::above::is_gone;
use cm_world::{Act, ActKind, Finish, Join, Outcome, View};
use std::alloc::Global;

/// Whether the action may begin at the instance, or be joined or be told not to: no action of
/// another kind is pending there, unless the instance is gone.
pub(crate) fn may_begin<V: View>(view: &V, kind: ActKind, inc: u64) -> bool
    ensures { (next : ℕ) → result ≡ is_some (begin_reply (V.rows view.now) next kind inc) }
{
    if is_gone(view, inc) {
        return true;
    }
    match view.facts(inc) {
        None => true,
        Some(facts) => goes_with(kind, facts.pending),
    }
}

/// Whether an action of this kind may begin, or be joined, where this one is pending.
fn goes_with(kind: ActKind, pending: Option<(ActKind, u64)>) -> bool
    ensures { result ≡ enabled.goes_with kind pending }
{
    match pending {
        None => true,
        Some((other, _action)) => is_same(kind, other),
    }
}

/// Whether the caller began the action, the action hasn't ended, and it can end so.
pub(crate) fn may_end(acts: &[Act], caller: u32, action: u64, finish: &Finish) -> bool
    requires { IsNumbered 1 acts.now }
    ensures { IsTrue result ↔ MayEndBut acts.now caller action finish.now }
{
    let Some(act) = act_at(acts, action) else {
        return false;
    };
    if act.outcome.is_some() {
        return false;
    }
    if act.by != caller {
        return false;
    }
    fits_kind(act.kind, finish)
}

/// Whether an action of that kind can end so.
fn fits_kind(kind: ActKind, finish: &Finish) -> bool
    ensures { result ≡ end.fits_kind kind finish.now }
{
    match finish {
        Finish::Resolved(_url, _decl) => resolves(kind),
        Finish::Other(outcome) => match kind {
            ActKind::Resolve => ends_resolve(*outcome),
            ActKind::Start => ends_start(*outcome),
            ActKind::Stop => ends_stop(*outcome),
        },
    }
}

/// Whether an action of that kind can bring a declaration.
fn resolves(kind: ActKind) -> bool
    ensures { (url : Seq ℕ) (decl : Declaration) → result
        ≡ end.fits_kind kind (Resolved url decl) }
{
    match kind {
        ActKind::Resolve => true,
        ActKind::Start => false,
        ActKind::Stop => false,
    }
}

/// Whether a resolve can end with this outcome, without a declaration.
fn ends_resolve(outcome: Outcome) -> bool
    ensures { result ≡ end.fits_kind kind.Resolve (Other outcome) }
{
    match outcome {
        Outcome::Absent
        | Outcome::BadUrl
        | Outcome::Invalid(_)
        | Outcome::GateFailed
        | Outcome::NoMemory => true,
        Outcome::Resolved
        | Outcome::Started
        | Outcome::Stopped
        | Outcome::Killed
        | Outcome::Declined
        | Outcome::Full => false,
    }
}

/// Whether a start can end with this outcome.
fn ends_start(outcome: Outcome) -> bool
    ensures { result ≡ end.fits_kind kind.Start (Other outcome) }
{
    match outcome {
        Outcome::Started | Outcome::Declined | Outcome::GateFailed => true,
        Outcome::Resolved
        | Outcome::Stopped
        | Outcome::Killed
        | Outcome::Absent
        | Outcome::BadUrl
        | Outcome::Invalid(_)
        | Outcome::Full
        | Outcome::NoMemory => false,
    }
}

/// Whether a stop can end with this outcome.
fn ends_stop(outcome: Outcome) -> bool
    ensures { result ≡ end.fits_kind kind.Stop (Other outcome) }
{
    match outcome {
        Outcome::Stopped | Outcome::Killed => true,
        Outcome::Resolved
        | Outcome::Started
        | Outcome::Absent
        | Outcome::BadUrl
        | Outcome::Invalid(_)
        | Outcome::Declined
        | Outcome::GateFailed
        | Outcome::Full
        | Outcome::NoMemory => false,
    }
}

/// Whether the caller joined the action, hasn't had its outcome since, and it has ended.
pub(crate) fn may_await(acts: &[Act], joins: &[Join], caller: u32, action: u64) -> bool
    requires { IsNumbered 1 acts.now }
    ensures { IsTrue result ↔ MayAwait acts.now joins.now caller action }
{
    waits(joins, caller, action) && outcome_at(acts, action).is_some()
}

/// Whether a pick for the target has a reply: a shutdown may work on it, and all at and below it is
/// shut or some instance may be picked. `Err` where memory runs out.
pub(crate) fn has_pick<V: View>(alloc: Global, view: &V, target: u64) -> Result<bool, Memory>
    requires { IsSound (V.rows view.now) (V.next_inc view.now) }
    ensures { let rows = V.rows view.now in
        IfOk result (λ has. IsTrue has ↔ (IsTrue (step.may_close rows target)
        × (IsTrue (is_subtree_shut rows target) ⊎ CanPick rows target))) }
{
    if !may_close(view, target) {
        return Ok(false);
    }
    match pick(alloc, view, target)? {
        Picked::Waits(_action) => Ok(false),
        Picked::Done => Ok(true),
        Picked::StopNow(_inc) => Ok(true),
        Picked::ShutNow(_inc) => Ok(true),
    }
}

/// Whether the instance may be removed: it doesn't live, or it is being destroyed itself and shut
/// with all below it. `Err` where memory runs out.
pub(crate) fn may_purge<V: View>(alloc: Global, view: &V, inc: u64) -> Result<bool, Memory>
    ensures { IfOk result (λ may. may ≡ step.may_purge (V.rows view.now) inc) }
{
    let Some(facts) = view.facts(inc) else {
        return Ok(true);
    };
    if !facts.doomed {
        return Ok(false);
    }
    all_shut(alloc, view, inc)
}

/// Whether the exit of the program of an instance has a reply: no action is pending there.
pub(crate) fn may_exit<V: View>(view: &V, inc: u64) -> bool
    ensures { result ≡ is_some (exit_reply (V.rows view.now) inc) }
{
    match view.facts(inc) {
        None => true,
        Some(facts) => facts.pending.is_none(),
    }
}
