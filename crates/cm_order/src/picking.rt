//! What a pick comes to.

ghost use Rattle.std.specs.Prelude.{◌≡◌, false, Some, IsTrue, IfOk, IfSome, if◌then◌else◌};
ghost use Rattle.std.specs.Prelude.{option_map, option_and_then};
ghost use Rattle.cm_world.specs.Rows.{row_of, is_subtree_shut, is_on};
ghost use Rattle.cm_world.specs.RowsInside.{facts_of};
ghost use Rattle.cm_world.specs.Sound.{IsSound};
ghost use Rattle.cm_world.specs.Stopping as spec;
ghost use Rattle.cm_world.specs.Step.{may_close};
ghost use Rattle.cm_order.specs.declared.search.SearchGoal.TheVariants as wanted;
ghost use Rattle.cm_order.specs.Search.{NoneIs};
ghost use Rattle.cm_order.specs.Picking.{IsPicked, PickWaitsFor};
ghost use Rattle.cm_order.specs.Plans.{IsPlan, AreKnown};

use crate::above::outermost_by;
use crate::below::all_shut;
use crate::dependents::Dependents;
use crate::glance::idle_by;
use crate::plan::DescentPlan;
use crate::quick::quick;
use crate::search::{SearchGoal, search};
use cm_names::Memory;
use cm_walk::above::is_on;
use cm_world::{Facts, View};
use std::alloc::Global;
use std::collections::BTreeMap;

/// What a pick comes to.
#[derive(Debug, Clone, Copy, PartialEq, Eq)]
pub enum Picked {
    /// The instance may stop now, and its program runs.
    StopNow(u64),
    /// The instance may be shut now, since its program doesn't run.
    ShutNow(u64),
    /// No instance may be picked before the action of this number has ended.
    Waits(u64),
    /// All instances at and below the target are shut, if any lives.
    Done,
}

/// Which instance may stop next in the shutdown of a target.
///
/// The target doesn't live, or it or one above it is being shut down. The shutdown works on all
/// at and below the outermost instance that is being shut down itself, among the target and those
/// above it.
///
/// `Done` comes exactly where each instance at and below the target is shut. Otherwise an instance
/// may be picked where it stands at or below that outermost one, isn't shut, has no pending action
/// and may stop: at each level from the outermost one down to itself, all that depends on the
/// node that leads to it, directly or through others, is shut, a child with all below it. Where
/// there are such instances, one of them is answered, as `StopNow` where its program runs, else as
/// `ShutNow`. Where there is none, `Waits` tells a pending action of an instance there that isn't
/// shut and may stop: a shutdown is never at a dead end. `Err` comes where memory runs out, and
/// there alone.
///
/// It goes down from the outermost one, at each level into a child that isn't all shut and on which
/// nothing there strongly depends that isn't. That looks once at the declaration and the children of
/// each level on the way, at all below the instance that it comes to, and at all below a child that is
/// shut where another waits for it. Where it comes to a pending action, it goes on beside that, up to
/// 64 times.
///
/// Where that leads to no instance that may be picked, it searches, at each level into the first
/// child that may be next. Of each child of the levels on the way what stands below it is looked at, up
/// to the first instance that isn't shut, and which nodes depend on it, as far as they aren't known to be
/// cleared. Where no instance may be picked, the search is made twice.
///
/// That clients stop before what they depend on is the rule of Fuchsia's component lifecycle
/// documentation (fuchsia.dev); how it reaches over several levels is this project's own.
pub fn pick<V: View>(alloc: Global, view: &V, target: u64) -> Result<Picked, Memory>
    requires sound { IsSound (V.rows view.now) (V.next_inc view.now) }
    requires closing { IsTrue (may_close (V.rows view.now) target) }
    ensures { IfOk result (IsPicked (V.rows view.now) target) }
{
    let mut plan = DescentPlan::new(alloc);
    pick_with(alloc, view, &mut plan, target)
}

/// [`pick`], with what is known of levels from the picks before.
///
/// The plan is that of the picks before, or one that knows of no level; it has to hold in this tree,
/// and holds still at an `Err`. The way down goes on from the last instance on that of the pick before
/// with the same outermost one that isn't shut. What is known of levels isn't looked at anew: a level
/// costs its edges in all, however many picks there are. It takes memory for each level of the way, and
/// for each strong edge to a child of a level that was looked at.
pub fn pick_with<V: View>(
    alloc: Global,
    view: &V,
    plan: &mut DescentPlan,
    target: u64,
) -> Result<Picked, Memory>
    requires sound { IsSound (V.rows view.now) (V.next_inc view.now) }
    requires closing { IsTrue (may_close (V.rows view.now) target) }
    requires plan { IsPlan (V.rows view.now) plan.old }
    ensures picked { IfOk result (IsPicked (V.rows view.now) target) }
    ensures plan { IsPlan (V.rows view.now) plan.new }
{
    let Some(facts) = view.facts(target) else {
        return Ok(Picked::Done);
    };
    let Some(top) = outermost_by(view, target, facts) else {
        return Ok(Picked::Done);
    };
    if top == target {
        if let Some(picked) = pick_on(view, plan, top) {
            return Ok(picked);
        }
    }
    if is_done(alloc, view, plan, target, facts)? {
        plan.finish(target);
        return Ok(Picked::Done);
    }
    if let Some(inc) = quick(alloc, view, plan, top)? {
        return Ok(stop_or_shut(view, inc));
    }
    match search(alloc, view, &mut plan.levels, top, SearchGoal::Idle)? {
        Some(inc) => Ok(stop_or_shut(view, inc)),
        None => {
            let action = action_at(alloc, view, &mut plan.levels, target, top)?;
            Ok(Picked::Waits(action))
        }
    }
}

/// What a pick comes to where the way of the last one ends at an instance that may still be picked, and
/// began at this outermost one. `None` says nothing.
fn pick_on<V: View>(view: &V, plan: &DescentPlan, top: u64) -> Option<Picked>
    requires sound { IsSound (V.rows view.now) (V.next_inc view.now) }
    requires top { spec.outermost (V.rows view.now) top ≡ Some top }
    requires plan { IsPlan (V.rows view.now) plan.now }
    ensures { IfSome result (IsPicked (V.rows view.now) top) }
{
    let inc = plan.lowest(top)?;
    let facts = view.facts(inc)?;
    if !idle_by(facts) {
        return None;
    }
    Some(picked_by(inc, facts.on))
}

/// Whether all instances at and below the target, which has these facts, are shut. What is below it isn't
/// looked at where it isn't shut itself, or the way of the last pick tells that.
fn is_done<V: View>(
    alloc: Global,
    view: &V,
    plan: &DescentPlan,
    target: u64,
    facts: Facts,
) -> Result<bool, Memory>
    requires sound { IsSound (V.rows view.now) (V.next_inc view.now) }
    requires plan { IsPlan (V.rows view.now) plan.now }
    requires facts { Some facts ≡ option_map facts_of (row_of (V.rows view.now) target) }
    ensures { IfOk result (λ done. done ≡ is_subtree_shut (V.rows view.now) target) }
{
    if !facts.shut {
        return Ok(false);
    }
    if plan.knows_below(target) {
        return Ok(true);
    }
    all_shut(alloc, view, target)
}

/// How an instance that may be picked is told.
fn stop_or_shut<V: View>(view: &V, inc: u64) -> Picked
    ensures { result ≡ (if is_on (V.rows view.now) inc then Picked.StopNow inc
        else Picked.ShutNow inc) }
{
    picked_by(inc, is_on(view, inc))
}

/// How an instance that may be picked is told, by whether its program runs.
fn picked_by(inc: u64, on: bool) -> Picked
    ensures { result ≡ (if on then Picked.StopNow inc else Picked.ShutNow inc) }
{
    if on {
        Picked::StopNow(inc)
    } else {
        Picked::ShutNow(inc)
    }
}

/// The pending action that is waited for, where none of the instances that may stop is idle, and
/// not all is shut.
fn action_at<V: View>(
    alloc: Global,
    view: &V,
    levels: &mut BTreeMap<u64, Dependents>,
    target: u64,
    top: u64,
) -> Result<u64, Memory>
    requires sound { IsSound (V.rows view.now) (V.next_inc view.now) }
    requires top { spec.outermost (V.rows view.now) target ≡ Some top }
    requires undone { is_subtree_shut (V.rows view.now) target ≡ false }
    requires stuck { NoneIs (V.rows view.now) top wanted.Idle }
    requires levels { AreKnown (V.rows view.now) levels.old }
    ensures waits { IfOk result (PickWaitsFor (V.rows view.now) target) }
    ensures levels { AreKnown (V.rows view.now) levels.new }
{
    let Some(inc) = search(alloc, view, levels, top, SearchGoal::Pending)? else {
        unreachable!();
    };
    match pending(view, inc) {
        Some(action) => Ok(action),
        None => unreachable!(),
    }
}

/// The number of the instance's pending action, if there is one.
fn pending<V: View>(view: &V, inc: u64) -> Option<u64>
    ensures { result ≡ option_map (λ p. p.1)
        (option_and_then (λ r. r.pending) (row_of (V.rows view.now) inc)) }
{
    match view.facts(inc)?.pending {
        Some((_kind, action)) => Some(action),
        None => None,
    }
}
