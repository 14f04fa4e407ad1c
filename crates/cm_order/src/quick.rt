//! The way down to an instance that may be picked, by quick looks alone.
//!
//! It goes on where the way of the last pick ends, once what is shut there is left behind.

ghost use Rattle.std.specs.Prelude.{◌≡◌, List as Seq, Some, IsTrue, IfOk, IfSome};
ghost use Rattle.cm_world.specs.declared.row.Row.{Row};
ghost use Rattle.cm_world.specs.Rows.{is_subtree_shut};
ghost use Rattle.cm_world.specs.Sound.{IsSound};
ghost use Rattle.cm_world.specs.Stopping as spec;
ghost use Rattle.cm_order.specs.Glances.{IsQuick, IsGlance};
ghost use Rattle.cm_order.specs.Plans.{IsPlan, IsFreeOnTheWay, IsKnownLevel, IsDescent, AreKnown};

use crate::above::is_unshut;
use crate::clearing::leave;
use crate::dependents::Dependents;
use crate::glance::glance;
use crate::plan::DescentPlan;
use crate::search::VisitResult;
use crate::stand::Stand;
use cm_names::Memory;
use cm_world::View;
use std::alloc::Global;
use std::collections::BTreeMap;

/// How often one pick turns back from an instance below which nothing is found. What stands below
/// pending actions is left to the search where there are more.
const TRIES: u32 = 64;

/// An instance at or below the top that isn't shut, has no pending action and may stop, where the
/// top is an outermost one that is being shut down. `None` says nothing: there may be one that
/// quick looks don't find. `Err` where memory runs out.
///
/// It goes on from the last instance of the way that isn't shut. Each level from there down of which
/// nothing is known is looked at, and what is below the instance that is found, as far as it isn't
/// known to be shut. Where it comes to a pending action it goes on beside it.
pub(crate) fn quick<V: View>(
    alloc: Global,
    view: &V,
    plan: &mut DescentPlan,
    top: u64,
) -> Result<Option<u64>, Memory>
    requires sound { IsSound (V.rows view.now) (V.next_inc view.now) }
    requires top { spec.outermost (V.rows view.now) top ≡ Some top }
    requires plan { IsPlan (V.rows view.now) plan.old }
    ensures quick { IfOk result (IsQuick (V.rows view.now) top) }
    ensures plan { IsPlan (V.rows view.now) plan.new }
{
    plan.begin(alloc, top)?;
    let found = descend(alloc, view, &mut plan.levels, &mut plan.way, top)?;
    Ok(found)
}

/// Goes down from the top as often as `TRIES` allows, with the kept way and levels alone, and answers
/// the instance found to stop.
fn descend<V: View>(
    alloc: Global,
    view: &V,
    levels: &mut BTreeMap<u64, Dependents>,
    way: &mut Vec<Stand>,
    top: u64,
) -> Result<Option<u64>, Memory>
    requires sound { IsSound (V.rows view.now) (V.next_inc view.now) }
    requires top { spec.outermost (V.rows view.now) top ≡ Some top }
    requires way { IsDescent (V.rows view.now) top way.old.items }
    requires levels { AreKnown (V.rows view.now) levels.old }
    ensures quick { IfOk result (IsQuick (V.rows view.now) top) }
    ensures way { IsDescent (V.rows view.now) top way.new.items }
    ensures levels { AreKnown (V.rows view.now) levels.new }
{
    let mut at = start(alloc, view, levels, way, top)?;
    for _turn in 0..TRIES {
        let found = go_down(alloc, view, levels, way, top, at)?;
        if found.is_some() {
            return Ok(found);
        }
        let Some(above) = go_up(view, way, top)? else {
            return Ok(None);
        };
        at = above;
    }
    Ok(None)
}

/// The way down from an instance where the way ends, without turning back.
fn go_down<V: View>(
    alloc: Global,
    view: &V,
    levels: &mut BTreeMap<u64, Dependents>,
    way: &mut Vec<Stand>,
    top: u64,
    inc: u64,
) -> Result<Option<u64>, Memory>
    requires sound { IsSound (V.rows view.now) (V.next_inc view.now) }
    requires top { spec.outermost (V.rows view.now) top ≡ Some top }
    requires start { IsFreeOnTheWay (V.rows view.now) top inc }
    requires way { IsDescent (V.rows view.now) top way.old.items }
    requires levels { AreKnown (V.rows view.now) levels.old }
    ensures quick { IfOk result (IsQuick (V.rows view.now) top) }
    ensures way { IsDescent (V.rows view.now) top way.new.items }
    ensures levels { AreKnown (V.rows view.now) levels.new }
{
    let mut at = Some(inc);
    'down: while let Some(here) = at {
        match step(alloc, view, levels, way, top, here)? {
            VisitResult::Here => return Ok(Some(here)),
            VisitResult::Below(child) => at = child,
        }
    }
    Ok(None)
}

/// Leaves the end of the way behind, below which nothing was found. Tells the instance where it ends
/// then, or `None` where it ends at its top, which stays.
fn go_up<V: View>(view: &V, way: &mut Vec<Stand>, top: u64) -> Result<Option<u64>, Memory>
    requires way { IsDescent (V.rows view.now) top way.old.items }
    ensures up { IfOk result (λ up. IfSome up (IsFreeOnTheWay (V.rows view.now) top)) }
    ensures way { IsDescent (V.rows view.now) top way.new.items }
{
    let Some(last) = way.pop() else {
        return Ok(None);
    };
    let Some(above) = way.pop() else {
        way.push(last)?;
        return Ok(None);
    };
    let inc = above.inc;
    way.push(above)?;
    Ok(Some(inc))
}

/// The place at which a pick begins: the last instance of the way that isn't shut, or the top.
fn start<V: View>(
    alloc: Global,
    view: &V,
    levels: &mut BTreeMap<u64, Dependents>,
    way: &mut Vec<Stand>,
    top: u64,
) -> Result<u64, Memory>
    requires sound { IsSound (V.rows view.now) (V.next_inc view.now) }
    requires top { spec.outermost (V.rows view.now) top ≡ Some top }
    requires way { IsDescent (V.rows view.now) top way.old.items }
    requires levels { AreKnown (V.rows view.now) levels.old }
    ensures start { IfOk result (IsFreeOnTheWay (V.rows view.now) top) }
    ensures way { IsDescent (V.rows view.now) top way.new.items }
    ensures levels { AreKnown (V.rows view.now) levels.new }
{
    if let Some(inc) = go_back(alloc, view, levels, way, top)? {
        return Ok(inc);
    }
    way.push(Stand::new(top))?;
    Ok(top)
}

/// Leaves behind what is shut at the end of the way, with what is kept of its levels. Tells the last
/// instance that isn't; `None` where none is left.
fn go_back<V: View>(
    alloc: Global,
    view: &V,
    levels: &mut BTreeMap<u64, Dependents>,
    way: &mut Vec<Stand>,
    top: u64,
) -> Result<Option<u64>, Memory>
    requires sound { IsSound (V.rows view.now) (V.next_inc view.now) }
    requires way { IsDescent (V.rows view.now) top way.old.items }
    requires levels { AreKnown (V.rows view.now) levels.old }
    ensures last { IfOk result (λ last. IfSome last (IsFreeOnTheWay (V.rows view.now) top)) }
    ensures way { IsDescent (V.rows view.now) top way.new.items }
    ensures levels { AreKnown (V.rows view.now) levels.new }
{
    let mut closed = None;
    while let Some(mut stand) = way.pop() {
        let inc = stand.inc;
        if is_unshut(view, inc) {
            count_done(view, &mut stand, closed);
            way.push(stand)?;
            leave_level(alloc, view, levels, inc, closed)?;
            return Ok(Some(inc));
        }
        forget_level(levels, &stand);
        closed = left_shut(&stand);
    }
    Ok(None)
}

/// Puts down in what is kept of a level that a child there is shut with all below it.
fn leave_level<V: View>(
    alloc: Global,
    view: &V,
    levels: &mut BTreeMap<u64, Dependents>,
    parent: u64,
    closed: Option<u64>,
) -> Result<(), Memory>
    requires sound { IsSound (V.rows view.now) (V.next_inc view.now) }
    requires levels { AreKnown (V.rows view.now) levels.old }
    requires closed { IfSome closed (λ c. IsTrue (is_subtree_shut (V.rows view.now) c)) }
    ensures { AreKnown (V.rows view.now) levels.new }
{
    let Some(child) = closed else {
        return Ok(());
    };
    match levels.get_mut(&parent) {
        None => Ok(()),
        Some(known) => match leave(alloc, view, known, parent, child) {
            Ok(()) => Ok(()),
            Err(fault) => {
                levels.remove(&parent);
                Err(fault)
            }
        },
    }
}

/// Forgets what is kept of a level that is left. Of an instance without children nothing is.
fn forget_level(levels: &mut BTreeMap<u64, Dependents>, stand: &Stand)
    ensures { (rows : Seq Row) → AreKnown rows levels.old → AreKnown rows levels.new }
{
    if stand.below_shut && stand.done.is_none() {
        return;
    }
    levels.remove(&stand.inc);
}

/// The instance, if all below it is known to be shut.
fn left_shut(stand: &Stand) -> Option<u64>
    ensures { IfSome result (λ c. (c ≡ stand.now.inc) × IsTrue stand.now.below_shut) }
{
    if stand.below_shut {
        return Some(stand.inc);
    }
    None
}

/// Puts down that one more child is shut with all below it, if it is the next one.
fn count_done<V: View>(view: &V, stand: &mut Stand, closed: Option<u64>)
    requires sound { IsSound (V.rows view.now) (V.next_inc view.now) }
    requires known { IsKnownLevel (V.rows view.now) stand.old }
    requires closed { IfSome closed (λ c. IsTrue (is_subtree_shut (V.rows view.now) c)) }
    ensures known { IsKnownLevel (V.rows view.now) stand.new }
    ensures same { stand.new.inc ≡ stand.old.inc }
{
    let Some(child) = closed else {
        return;
    };
    let Some(next) = view.next_child(stand.inc, stand.done) else {
        return;
    };
    if next == child {
        stand.done = Some(child);
    }
}

/// Looks at the level at which the way ends, and lengthens it by the child that is found. Nothing is
/// said where it ends at another one.
fn step<V: View>(
    alloc: Global,
    view: &V,
    levels: &mut BTreeMap<u64, Dependents>,
    way: &mut Vec<Stand>,
    top: u64,
    inc: u64,
) -> Result<VisitResult, Memory>
    requires sound { IsSound (V.rows view.now) (V.next_inc view.now) }
    requires way { IsDescent (V.rows view.now) top way.old.items }
    requires levels { AreKnown (V.rows view.now) levels.old }
    ensures step { IfOk result (IsGlance (V.rows view.now) inc) }
    ensures way { IsDescent (V.rows view.now) top way.new.items }
    ensures levels { AreKnown (V.rows view.now) levels.new }
{
    let Some(mut stand) = way.pop() else {
        return Ok(VisitResult::Below(None));
    };
    if stand.inc != inc {
        return Ok(VisitResult::Below(None));
    }
    let seen = glance(alloc, view, levels, &mut stand)?;
    way.push(stand)?;
    if let VisitResult::Below(Some(child)) = seen {
        way.push(Stand::new(child))?;
    }
    Ok(seen)
}
