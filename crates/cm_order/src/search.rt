//! The search for an instance that may stop.

ghost use Rattle.std.specs.Prelude.{◌≡◌, false, Some, IsTrue, ◌↔◌, IfOk};
ghost use Rattle.std.specs.Option.{option_map_or};
ghost use Rattle.cm_world.specs.Rows.{row_of};
ghost use Rattle.cm_world.specs.Sound.{IsSound};
ghost use Rattle.cm_world.specs.Stopping as spec;
ghost use Rattle.cm_order.specs.Plans.{AreKnown};
ghost use Rattle.cm_order.specs.Search.{is_wanted, IsHere, IsVisit, IsSearched};

use crate::below::{Spot, go_on};
use crate::dependents::Dependents;
use crate::leading::{leads_own, next_leading};
use cm_names::Memory;
use cm_world::View;
use std::alloc::Global;
use std::collections::BTreeMap;

/// Which instances are looked for.
#[derive(Debug, Clone, Copy, PartialEq, Eq)]
pub(crate) enum SearchGoal {
    /// Those without a pending action.
    Idle,
    /// Those with one.
    Pending,
}

/// What a visit to a place of the search comes to.
#[derive(Debug, Clone, Copy)]
pub(crate) enum VisitResult {
    /// The instance itself is one that is looked for.
    Here,
    /// It isn't: the search goes on below this child of it, if there is one that leads.
    Below(Option<u64>),
}

/// An instance that is looked for, isn't shut and may stop, at or below the top, which is an
/// outermost one that is being shut down. `None` where there is none. `Err` where memory runs out.
///
/// At each level on the way down children are asked one behind another whether they lead, by what is
/// kept of the level.
pub(crate) fn search<V: View>(
    alloc: Global,
    view: &V,
    levels: &mut BTreeMap<u64, Dependents>,
    top: u64,
    wanted: SearchGoal,
) -> Result<Option<u64>, Memory>
    requires sound { IsSound (V.rows view.now) (V.next_inc view.now) }
    requires top { spec.outermost (V.rows view.now) top ≡ Some top }
    requires levels { AreKnown (V.rows view.now) levels.old }
    ensures found { IfOk result (IsSearched (V.rows view.now) top wanted) }
    ensures levels { AreKnown (V.rows view.now) levels.new }
{
    let mut left = Vec::new(alloc);
    left.push(Spot {
        inc: top,
        behind: None,
    })?;
    while let Some(spot) = left.pop() {
        match look_at(alloc, view, levels, wanted, spot)? {
            VisitResult::Here => return Ok(Some(spot.inc)),
            VisitResult::Below(child) => go_on(&mut left, spot.inc, child)?,
        }
    }
    Ok(None)
}

/// Visits a place of the search.
fn look_at<V: View>(
    alloc: Global,
    view: &V,
    levels: &mut BTreeMap<u64, Dependents>,
    wanted: SearchGoal,
    spot: Spot,
) -> Result<VisitResult, Memory>
    requires sound { IsSound (V.rows view.now) (V.next_inc view.now) }
    requires levels { AreKnown (V.rows view.now) levels.old }
    ensures visit { IfOk result (IsVisit (V.rows view.now) wanted spot) }
    ensures levels { AreKnown (V.rows view.now) levels.new }
{
    if is_here(alloc, view, levels, wanted, spot)? {
        return Ok(VisitResult::Here);
    }
    let child = next_leading(alloc, view, levels, spot.inc, spot.behind)?;
    Ok(VisitResult::Below(child))
}

/// Whether the place is new, and its instance is one that is looked for and leads at its own
/// level.
fn is_here<V: View>(
    alloc: Global,
    view: &V,
    levels: &mut BTreeMap<u64, Dependents>,
    wanted: SearchGoal,
    spot: Spot,
) -> Result<bool, Memory>
    requires sound { IsSound (V.rows view.now) (V.next_inc view.now) }
    requires levels { AreKnown (V.rows view.now) levels.old }
    ensures here { IfOk result (λ here. IsTrue here ↔ IsHere (V.rows view.now) wanted spot) }
    ensures levels { AreKnown (V.rows view.now) levels.new }
{
    if spot.behind.is_some() {
        return Ok(false);
    }
    if !wants(view, wanted, spot.inc) {
        return Ok(false);
    }
    let leads = leads_own(alloc, view, levels, spot.inc)?;
    Ok(leads)
}

/// Whether the instance lives and is one that is looked for.
fn wants<V: View>(view: &V, wanted: SearchGoal, inc: u64) -> bool
    ensures { result ≡ option_map_or (is_wanted wanted) (row_of (V.rows view.now) inc) false }
{
    match view.facts(inc) {
        None => false,
        Some(facts) => match wanted {
            SearchGoal::Idle => facts.pending.is_none(),
            SearchGoal::Pending => facts.pending.is_some(),
        },
    }
}
