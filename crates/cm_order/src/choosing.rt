//! Whether a pick may choose an instance that is given.

ghost use Rattle.std.specs.Prelude.{◌≡◌, ◌&&◌, ◌↔◌, IsTrue, IfOk, option_and_then};
ghost use Rattle.cm_world.specs.Rows.{row_of, is_below as is_below_of};
ghost use Rattle.cm_world.specs.Sound.{IsSound};
ghost use Rattle.cm_world.specs.Step as step;
ghost use Rattle.cm_order.specs.Plans.{IsPlan, AreKnown};
ghost use Rattle.cm_order.specs.Picking.{MayBePicked};
ghost use Rattle.cm_order.specs.Ways as spec;
ghost use Rattle.cm_order.specs.Ways.{IsFreeUpTo};

use crate::above::outermost;
use crate::below::all_shut;
use crate::dependents::Dependents;
use crate::glance::is_idle;
use crate::leading::{leads_own, leads_up};
use crate::plan::DescentPlan;
use cm_names::Memory;
use cm_walk::above::is_below;
use cm_world::View;
use std::alloc::Global;
use std::collections::BTreeMap;

/// Whether a pick for the target may choose this instance.
///
/// The target doesn't live, or it or one above it is being shut down. It is so exactly where not
/// all at and below the target is shut, and [`pick`](crate::pick) may choose the instance: it
/// stands at or below the outermost one that is being shut down, isn't shut, has no pending action
/// and may stop. `Err` comes where memory runs out, and there alone.
///
/// It is what [`may_pick_with`] says where nothing is known of levels.
pub fn may_pick<V: View>(alloc: Global, view: &V, target: u64, inc: u64) -> Result<bool, Memory>
    requires sound { IsSound (V.rows view.now) (V.next_inc view.now) }
    requires closing { IsTrue (step.may_close (V.rows view.now) target) }
    ensures { IfOk result (λ may. IsTrue may ↔ MayBePicked (V.rows view.now) target inc) }
{
    let mut plan = DescentPlan::new(alloc);
    may_pick_with(alloc, view, &mut plan, target, inc)
}

/// [`may_pick`], with what is known of levels from the picks before.
///
/// The plan is as that of [`pick_with`](crate::pick_with), and a level that isn't known is looked at
/// and kept. At each level on the way up it is asked which nodes depend on the one that leads to the
/// instance, as far as they aren't known to be cleared.
pub fn may_pick_with<V: View>(
    alloc: Global,
    view: &V,
    plan: &mut DescentPlan,
    target: u64,
    inc: u64,
) -> Result<bool, Memory>
    requires sound { IsSound (V.rows view.now) (V.next_inc view.now) }
    requires closing { IsTrue (step.may_close (V.rows view.now) target) }
    requires plan { IsPlan (V.rows view.now) plan.old }
    ensures may { IfOk result (λ may.
        IsTrue may ↔ MayBePicked (V.rows view.now) target inc) }
    ensures plan { IsPlan (V.rows view.now) plan.new }
{
    let Some(top) = outermost(view, target) else {
        return Ok(false);
    };
    if !is_idle_below(view, top, inc) {
        return Ok(false);
    }
    if all_shut(alloc, view, target)? {
        return Ok(false);
    }
    is_free_up_to(alloc, view, &mut plan.levels, top, inc)
}

/// Whether a shutdown may work on the target: it doesn't live, or it or one above it is being shut
/// down.
pub fn may_close<V: View>(view: &V, target: u64) -> bool
    ensures { result ≡ step.may_close (V.rows view.now) target }
{
    if view.facts(target).is_none() {
        return true;
    }
    outermost(view, target).is_some()
}

/// Whether an instance stands at or below the top, isn't shut and has no pending action.
fn is_idle_below<V: View>(view: &V, top: u64, inc: u64) -> bool
    ensures { result
        ≡ (is_below_of (V.rows view.now) top inc && spec.is_idle (V.rows view.now) inc) }
{
    is_below(view, top, inc) && is_idle(view, inc)
}

/// Whether at each level from the top down to the instance, which isn't shut, all that depends on the
/// node that leads to it is shut.
fn is_free_up_to<V: View>(
    alloc: Global,
    view: &V,
    levels: &mut BTreeMap<u64, Dependents>,
    top: u64,
    inc: u64,
) -> Result<bool, Memory>
    requires sound { IsSound (V.rows view.now) (V.next_inc view.now) }
    requires below { IsTrue (is_below_of (V.rows view.now) top inc) }
    requires idle { IsTrue (spec.is_idle (V.rows view.now) inc) }
    requires levels { AreKnown (V.rows view.now) levels.old }
    ensures free { IfOk result (λ free. IsTrue free ↔ IsFreeUpTo (V.rows view.now) top inc) }
    ensures levels { AreKnown (V.rows view.now) levels.new }
{
    if !leads_own(alloc, view, levels, inc)? {
        return Ok(false);
    }
    let mut here = inc;
    'up: while here != top {
        let Some(parent) = parent_of(view, here) else {
            unreachable!();
        };
        if !leads_up(alloc, view, levels, parent, here)? {
            return Ok(false);
        }
        here = parent;
    }
    Ok(true)
}

/// The parent of an instance, if it lives and isn't the root.
fn parent_of<V: View>(view: &V, inc: u64) -> Option<u64>
    ensures { result ≡ option_and_then (λ r. r.parent) (row_of (V.rows view.now) inc) }
{
    view.facts(inc)?.parent
}
