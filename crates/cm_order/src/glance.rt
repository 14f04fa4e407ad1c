//! A quick look at a level: a node of it that nothing binds, found by tests that cost little.
//!
//! A child on which nothing depends that isn't all shut is free, and so is the instance itself
//! where all below it is shut. The first is told by what is kept of the level, which is gone through
//! once. Where neither finds a node, nothing is said.

ghost use Rattle.std.specs.Prelude.{◌≡◌, ◌&&◌, not, false, None, is_none, IsTrue, IfOk, OnOk};
ghost use Rattle.std.specs.Option.{option_map_or};
ghost use Rattle.cm_world.specs.Rows.{row_of};
ghost use Rattle.cm_world.specs.RowsInside.{child_behind};
ghost use Rattle.cm_world.specs.Sound.{IsSound};
ghost use Rattle.cm_order.specs.Glances.{KnowsDependents, IsChosen, IsFreeKid, AreKidsShut};
ghost use Rattle.cm_order.specs.Glances.{HasKidLeft, IsGlance};
ghost use Rattle.cm_order.specs.Plans.{IsKnownLevel, AreKnown, AreShutSoFar};
ghost use Rattle.cm_order.specs.Search.{IsHere};
ghost use Rattle.cm_order.specs.declared.search.SearchGoal.TheVariants as wanted;

use crate::below::all_shut;
use crate::clearing::{is_open, is_open_child};
use crate::dependents::Dependents;
use crate::search::VisitResult;
use crate::stand::Stand;
use cm_names::Memory;
use cm_world::{Facts, View};
use std::alloc::Global;
use std::collections::BTreeMap;

/// A child that isn't all shut and on which nothing depends that isn't; or the instance itself, where
/// all its children are all shut, it isn't shut and has no pending action. `Below(None)` says nothing.
///
/// Asked again, it tells another such child, if there is one.
pub(crate) fn glance<V: View>(
    alloc: Global,
    view: &V,
    levels: &mut BTreeMap<u64, Dependents>,
    stand: &mut Stand,
) -> Result<VisitResult, Memory>
    requires sound { IsSound (V.rows view.now) (V.next_inc view.now) }
    requires known { IsKnownLevel (V.rows view.now) stand.old }
    requires levels { AreKnown (V.rows view.now) levels.old }
    ensures glance { IfOk result (IsGlance (V.rows view.now) stand.old.inc) }
    ensures known { IsKnownLevel (V.rows view.now) stand.new }
    ensures levels { AreKnown (V.rows view.now) levels.new }
    ensures same { stand.new.inc ≡ stand.old.inc }
{
    if stand.below_shut {
        return Ok(lowest(view, stand));
    }
    if !has_kids(view, stand) {
        return Ok(leaf(view, stand));
    }
    let first = free_child(alloc, view, levels, stand.inc)?;
    if first.is_some() {
        return Ok(VisitResult::Below(first));
    }
    if is_last(alloc, view, stand)? {
        return Ok(VisitResult::Here);
    }
    Ok(VisitResult::Below(None))
}

/// Whether an instance has a child. That isn't asked where a child of it is known to be shut.
fn has_kids<V: View>(view: &V, stand: &Stand) -> bool
    ensures { result ≡ false → child_behind (V.rows view.now) stand.now.inc None ≡ None }
{
    if stand.done.is_some() {
        return true;
    }
    view.next_child(stand.inc, None).is_some()
}

/// The look at a level below which all is known to be shut: only the instance itself may stop.
fn lowest<V: View>(view: &V, stand: &Stand) -> VisitResult
    requires sound { IsSound (V.rows view.now) (V.next_inc view.now) }
    requires known { IsKnownLevel (V.rows view.now) stand.now }
    requires below { IsTrue stand.now.below_shut }
    ensures { IsGlance (V.rows view.now) stand.now.inc result }
{
    if is_idle(view, stand.inc) {
        return VisitResult::Here;
    }
    VisitResult::Below(None)
}

/// The look at the level of an instance without children: all below it is shut, so only it may stop.
fn leaf<V: View>(view: &V, stand: &mut Stand) -> VisitResult
    requires sound { IsSound (V.rows view.now) (V.next_inc view.now) }
    requires known { IsKnownLevel (V.rows view.now) stand.old }
    requires none { child_behind (V.rows view.now) stand.old.inc None ≡ None }
    ensures glance { IsGlance (V.rows view.now) stand.old.inc result }
    ensures known { IsKnownLevel (V.rows view.now) stand.new }
    ensures same { stand.new.inc ≡ stand.old.inc }
{
    stand.below_shut = true;
    if is_idle(view, stand.inc) {
        return VisitResult::Here;
    }
    VisitResult::Below(None)
}

/// A child that isn't all shut, and on which nothing depends that isn't, as far as what is kept of
/// the level tells. A level of which nothing is kept is looked at.
fn free_child<V: View>(
    alloc: Global,
    view: &V,
    levels: &mut BTreeMap<u64, Dependents>,
    parent: u64,
) -> Result<Option<u64>, Memory>
    requires sound { IsSound (V.rows view.now) (V.next_inc view.now) }
    requires levels { AreKnown (V.rows view.now) levels.old }
    ensures chosen { IfOk result (IsChosen (V.rows view.now) parent) }
    ensures levels { AreKnown (V.rows view.now) levels.new }
{
    match levels.get_mut(&parent) {
        None => first_free(alloc, view, levels, parent),
        Some(known) => match next_free(alloc, view, known, parent) {
            Ok(found) => Ok(found),
            Err(fault) => {
                levels.remove(&parent);
                Err(fault)
            }
        },
    }
}

/// The same, of a level of which nothing is kept.
fn first_free<V: View>(
    alloc: Global,
    view: &V,
    levels: &mut BTreeMap<u64, Dependents>,
    parent: u64,
) -> Result<Option<u64>, Memory>
    requires sound { IsSound (V.rows view.now) (V.next_inc view.now) }
    requires levels { AreKnown (V.rows view.now) levels.old }
    ensures chosen { IfOk result (IsChosen (V.rows view.now) parent) }
    ensures levels { AreKnown (V.rows view.now) levels.new }
{
    let mut known = Dependents::of(alloc, view, parent)?;
    let found = next_free(alloc, view, &mut known, parent)?;
    levels.insert(parent, known)?;
    Ok(found)
}

/// Takes out what is kept of a level, or looks at it.
pub(crate) fn take_level<V: View>(
    alloc: Global,
    view: &V,
    levels: &mut BTreeMap<u64, Dependents>,
    parent: u64,
) -> Result<Dependents, Memory>
    requires sound { IsSound (V.rows view.now) (V.next_inc view.now) }
    requires levels { AreKnown (V.rows view.now) levels.old }
    ensures known { IfOk result (KnowsDependents (V.rows view.now) parent) }
    ensures levels { AreKnown (V.rows view.now) levels.new }
{
    match levels.remove(&parent) {
        None => Dependents::of(alloc, view, parent),
        Some(known) => Ok(known),
    }
}

/// The next child of a level that wasn't looked at yet and is free, or else one that was found to be
/// free before. One that was told last is told last again.
fn next_free<V: View>(
    alloc: Global,
    view: &V,
    known: &mut Dependents,
    parent: u64,
) -> Result<Option<u64>, Memory>
    requires sound { IsSound (V.rows view.now) (V.next_inc view.now) }
    requires known { KnowsDependents (V.rows view.now) parent known.old }
    ensures chosen { IfOk result (IsChosen (V.rows view.now) parent) }
    ensures known { OnOk result (KnowsDependents (V.rows view.now) parent known.new) }
{
    let first = pass_on(alloc, view, known, parent)?;
    if first.is_some() {
        return Ok(first);
    }
    open_child(alloc, view, known, parent)
}

/// The next child that wasn't looked at yet and is free, and isn't all shut.
fn pass_on<V: View>(
    alloc: Global,
    view: &V,
    known: &mut Dependents,
    parent: u64,
) -> Result<Option<u64>, Memory>
    requires sound { IsSound (V.rows view.now) (V.next_inc view.now) }
    requires known { KnowsDependents (V.rows view.now) parent known.old }
    ensures chosen { IfOk result (IsChosen (V.rows view.now) parent) }
    ensures known { OnOk result (KnowsDependents (V.rows view.now) parent known.new) }
{
    if known.all_passed {
        return Ok(None);
    }
    let mut passed = known.passed;
    while let Some(child) = view.next_child(parent, passed) {
        passed = Some(child);
        if is_open_child(alloc, view, known, parent, child)? {
            known.passed = passed;
            known.open.push_back(child)?;
            return Ok(Some(child));
        }
    }
    known.passed = passed;
    known.all_passed = true;
    Ok(None)
}

/// A child that was found to be free before, and isn't all shut. It is put behind the others.
fn open_child<V: View>(
    alloc: Global,
    view: &V,
    known: &mut Dependents,
    parent: u64,
) -> Result<Option<u64>, Memory>
    requires sound { IsSound (V.rows view.now) (V.next_inc view.now) }
    requires known { KnowsDependents (V.rows view.now) parent known.old }
    ensures chosen { IfOk result (IsChosen (V.rows view.now) parent) }
    ensures known { OnOk result (KnowsDependents (V.rows view.now) parent known.new) }
{
    for _turn in 0..u64::MAX {
        let Some(child) = known.open.pop_front() else {
            return Ok(None);
        };
        if is_open(alloc, view, known, parent, child)? {
            known.open.push_back(child)?;
            return Ok(Some(child));
        }
    }
    Ok(None)
}

/// Whether an instance isn't shut and has no pending action, and all below it is shut. What that looks
/// at below it isn't looked at again.
fn is_last<V: View>(alloc: Global, view: &V, stand: &mut Stand) -> Result<bool, Memory>
    requires sound { IsSound (V.rows view.now) (V.next_inc view.now) }
    requires known { IsKnownLevel (V.rows view.now) stand.old }
    ensures last { IfOk result (λ last. IsTrue last →
        IsHere (V.rows view.now) wanted.Idle (record { inc = stand.old.inc; behind = None })) }
    ensures known { IsKnownLevel (V.rows view.now) stand.new }
    ensures same { stand.new.inc ≡ stand.old.inc }
{
    if !is_idle(view, stand.inc) {
        return Ok(false);
    }
    let kids = shut_kids(alloc, view, stand.inc, stand.done)?;
    stand.done = kids.done;
    stand.below_shut = kids.all;
    Ok(kids.all)
}

/// Whether an instance lives, isn't shut and has no pending action.
pub(crate) fn is_idle<V: View>(view: &V, inc: u64) -> bool
    ensures { result ≡ option_map_or (λ r. not r.shut && is_none r.pending)
        (row_of (V.rows view.now) inc) false }
{
    match view.facts(inc) {
        None => false,
        Some(facts) => idle_by(facts),
    }
}

/// Whether an instance that has these facts isn't shut and has no pending action.
pub(crate) fn idle_by(facts: Facts) -> bool
    ensures { result ≡ (not facts.shut && is_none facts.pending) }
{
    !facts.shut && facts.pending.is_none()
}

/// Which children of an instance are shut, with all below them.
#[derive(Debug, Clone, Copy)]
pub(crate) struct ShutKids {
    /// Those up to this one are; `None` says nothing.
    pub done: Option<u64>,
    /// Whether all are.
    pub all: bool,
}

/// Which children are shut with all below them, where those up to this one are.
pub(crate) fn shut_kids<V: View>(
    alloc: Global,
    view: &V,
    inc: u64,
    done: Option<u64>,
) -> Result<ShutKids, Memory>
    requires sound { IsSound (V.rows view.now) (V.next_inc view.now) }
    requires done { AreShutSoFar (V.rows view.now) inc done }
    ensures done { IfOk result (λ kids. AreShutSoFar (V.rows view.now) inc kids.done) }
    ensures all { IfOk result (λ kids. IsTrue kids.all → AreKidsShut (V.rows view.now) inc) }
    ensures left { IfOk result (λ kids. kids.all ≡ false → HasKidLeft (V.rows view.now) inc) }
{
    let mut behind = done;
    while let Some(child) = view.next_child(inc, behind) {
        if !all_shut(alloc, view, child)? {
            return Ok(ShutKids {
                done: behind,
                all: false,
            });
        }
        behind = Some(child);
    }
    Ok(ShutKids {
        done: behind,
        all: true,
    })
}
