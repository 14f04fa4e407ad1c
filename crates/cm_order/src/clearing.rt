//! How what is known of a level changes: nodes are cleared, and children become free.

ghost use Rattle.std.specs.Prelude.{◌≡◌, ◌&&◌, ℕ, List as Seq, true, false, IsTrue, IfOk, OnOk, ◌⊎◌};
ghost use Rattle.std.specs.Prelude.{if◌then◌else◌};
ghost use Rattle.std.specs.List.{list_any};
ghost use Rattle.std.specs.Option.{option_map_or};
ghost use Rattle.cm_decl.specs.Graph.{is_strong, is_from_child};
ghost use Rattle.cm_world.specs.declared.row.Row.{Row};
ghost use Rattle.cm_world.specs.Rows.{decl_of, is_subtree_shut};
ghost use Rattle.cm_world.specs.Sound.{IsSound};
ghost use Rattle.cm_trees.specs.Kids.{IsKid};
ghost use Rattle.cm_order.specs.Glances.{is_in_list, is_in_set, IsFreeKid, IsCleared, KnowsDependents};
ghost use Rattle.cm_order.specs.Standing.{HasNoClient, IsClientLeft, IsLastLeft, IsListEnd};
ghost use Rattle.std.specs.Ordering.{nat_cmp};
ghost use Rattle.std.specs.BTreeMap.{is_at};

use crate::above::is_unshut;
use crate::below::all_shut;
use crate::dependents::Dependents;
use cm_decl::{Origin, Usage};
use cm_names::{Dependency, List, Memory};
use cm_world::View;
use std::alloc::Global;
use std::collections::BTreeSet;
use std::mem;

/// Whether an instance is a child of the other that is free, and may have something to be shut at or below
/// it; no clause says that there is. `glance.rt` asks it of one that was found to be free before.
pub(crate) fn is_open<V: View>(
    alloc: Global,
    view: &V,
    known: &mut Dependents,
    parent: u64,
    child: u64,
) -> Result<bool, Memory>
    requires sound { IsSound (V.rows view.now) (V.next_inc view.now) }
    requires known { KnowsDependents (V.rows view.now) parent known.old }
    ensures left { IfOk result (λ yet. IsTrue yet → IsFreeKid (V.rows view.now) parent child) }
    ensures known { OnOk result (KnowsDependents (V.rows view.now) parent known.new) }
{
    if !is_child(view, parent, child) {
        return Ok(false);
    }
    is_open_child(alloc, view, known, parent, child)
}

/// Whether a child is free and may have something to be shut at or below it; no clause says that there is.
/// One that is free and all shut is cleared, if another waits for it. `glance.rt` asks it of each child that
/// it comes to.
pub(crate) fn is_open_child<V: View>(
    alloc: Global,
    view: &V,
    known: &mut Dependents,
    parent: u64,
    child: u64,
) -> Result<bool, Memory>
    requires sound { IsSound (V.rows view.now) (V.next_inc view.now) }
    requires known { KnowsDependents (V.rows view.now) parent known.old }
    requires kid { IsKid (V.rows view.now) parent child }
    ensures left { IfOk result (λ yet. IsTrue yet → IsFreeKid (V.rows view.now) parent child) }
    ensures known { OnOk result (KnowsDependents (V.rows view.now) parent known.new) }
{
    if !known.is_free(child) {
        return Ok(false);
    }
    if is_left(alloc, view, child)? {
        return Ok(true);
    }
    settle(alloc, view, known, parent, child)?;
    Ok(false)
}

/// Whether an instance is a child of the other, and free at its level, as far as that is known. `false` says
/// nothing, and nothing is cleared.
pub(crate) fn is_free_child<V: View>(view: &V, known: &Dependents, parent: u64, child: u64) -> bool
    requires sound { IsSound (V.rows view.now) (V.next_inc view.now) }
    requires known { KnowsDependents (V.rows view.now) parent known.now }
    ensures free { IsTrue result → IsFreeKid (V.rows view.now) parent child }
    ensures none { IsTrue result → HasNoClient known.now child }
{
    if !is_child(view, parent, child) {
        return false;
    }
    known.is_free(child)
}

/// Whether an instance is a child of the other.
fn is_child<V: View>(view: &V, parent: u64, child: u64) -> bool
    ensures { IsTrue result → IsKid (V.rows view.now) parent child }
{
    let Some(facts) = view.facts(child) else {
        return false;
    };
    match facts.parent {
        None => false,
        Some(above) => above == parent,
    }
}

/// Whether there is something to be shut at or below an instance. Where it is shut itself, what
/// is below it is looked at only if it uses a child: all other children stopped before it.
fn is_left<V: View>(alloc: Global, view: &V, inc: u64) -> Result<bool, Memory> {
    if is_unshut(view, inc) {
        return Ok(true);
    }
    if uses_child(view, inc) {
        return Ok(!all_shut(alloc, view, inc)?);
    }
    Ok(false)
}

/// Whether an instance strongly uses something of a child of its own; `false` where it isn't resolved.
/// `leading.rt` asks it of an instance with a child that isn't all shut.
pub(crate) fn uses_child<V: View>(view: &V, inc: u64) -> bool
    ensures { result ≡ option_map_or (λ d. list_any (λ u. is_strong u.dependency &&
        is_from_child u.from) d.uses) (decl_of (V.rows view.now) inc) false }
{
    match view.decl(inc) {
        None => false,
        Some(decl) => are_of_child(decl.uses.as_slice()),
    }
}

/// Whether something of these is strongly used of a child.
fn are_of_child(uses: &[Usage]) -> bool
    ensures { result ≡ list_any (λ u. is_strong u.dependency && is_from_child u.from) uses.now }
{
    uses.iter().any(|usage| is_of_child(usage))
}

/// Whether something is strongly used of a child.
fn is_of_child(usage: &Usage) -> bool
    ensures { result ≡ (is_strong usage.now.dependency && is_from_child usage.now.from) }
{
    of_strong(usage.dependency) && of_child(&usage.from)
}

/// Whether the dependency is strong.
fn of_strong(dependency: Dependency) -> bool
    ensures { result ≡ is_strong dependency }
{
    dependency == Dependency::Strong
}

/// Whether the source is a child.
fn of_child(source: &Origin) -> bool
    ensures { result ≡ is_from_child source.now }
{
    matches!(source, Origin::Child(_))
}

/// Clears a free child, if it is all shut and another waits for it.
fn settle<V: View>(
    alloc: Global,
    view: &V,
    known: &mut Dependents,
    parent: u64,
    child: u64,
) -> Result<(), Memory>
    requires sound { IsSound (V.rows view.now) (V.next_inc view.now) }
    requires known { KnowsDependents (V.rows view.now) parent known.old }
    requires free { IsFreeKid (V.rows view.now) parent child }
    requires none { HasNoClient known.old child }
    ensures { OnOk result (KnowsDependents (V.rows view.now) parent known.new) }
{
    if !known.waits(child) {
        return Ok(());
    }
    if !all_shut(alloc, view, child)? {
        return Ok(());
    }
    clear(alloc, known, child)?;
    Ok(())
}

/// Puts down that a child that was found to be free is shut with all below it: it isn't told again, and it is
/// cleared, if it is in the list of another. While children weren't looked at yet, such a one stays for
/// `glance.rt`, so that those are told before the ones that it frees.
pub(crate) fn leave<V: View>(
    alloc: Global,
    view: &V,
    known: &mut Dependents,
    parent: u64,
    child: u64,
) -> Result<(), Memory>
    requires sound { IsSound (V.rows view.now) (V.next_inc view.now) }
    requires known { KnowsDependents (V.rows view.now) parent known.old }
    requires shut { IsTrue (is_subtree_shut (V.rows view.now) child) }
    ensures { OnOk result (KnowsDependents (V.rows view.now) parent known.new) }
{
    if !known.waits(child) {
        known.leave(child);
        return Ok(());
    }
    if is_one_ahead(view, known, parent) {
        return Ok(());
    }
    if !is_free_child(view, known, parent, child) {
        return Ok(());
    }
    known.leave(child);
    clear(alloc, known, child)
}

/// Whether a child of a level wasn't looked at yet; no clause says so.
fn is_one_ahead<V: View>(view: &V, known: &Dependents, parent: u64) -> bool {
    if known.all_passed {
        return false;
    }
    view.next_child(parent, known.passed).is_some()
}

/// Puts down that a node is cleared, and finds the children that become free by that. The node is the
/// instance itself, or a child that waits for nothing.
pub(crate) fn clear(alloc: Global, known: &mut Dependents, node: u64) -> Result<(), Memory>
    ensures known { OnOk result ((rows : Seq Row) (p : ℕ) → KnowsDependents rows p known.old →
        IsCleared rows p node → (node ≡ p) ⊎ HasNoClient known.old node →
        KnowsDependents rows p known.new) }
    ensures here { OnOk result (IsTrue (is_in_set known.new.cleared node)) }
    ensures more { OnOk result ((z : ℕ) → is_in_set known.new.cleared z
        ≡ (if is_at (nat_cmp node) z then true else is_in_set known.old.cleared z)) }
{
    known.cleared.insert(node)?;
    release_all(alloc, known, node)?;
    Ok(())
}

/// Leaves what is cleared out of the lists of the children in which this node was put.
fn release_all(alloc: Global, known: &mut Dependents, node: u64) -> Result<(), Memory>
    ensures known { OnOk result ((rows : Seq Row) (p : ℕ) → KnowsDependents rows p known.old →
        KnowsDependents rows p known.new) }
    ensures cleared { OnOk result (known.new.cleared ≡ known.old.cleared) }
{
    for place in known.first_edge(node)..usize::MAX {
        let Some(child) = known.source_at(place, node) else {
            return Ok(());
        };
        release(alloc, known, child)?;
    }
    Ok(())
}

/// Leaves what is cleared at the end of a child's list out of it. A child whose list is empty then
/// is put down as one that is free.
fn release(alloc: Global, known: &mut Dependents, child: u64) -> Result<(), Memory>
    ensures known { OnOk result ((rows : Seq Row) (p : ℕ) → KnowsDependents rows p known.old →
        KnowsDependents rows p known.new) }
    ensures cleared { OnOk result (known.new.cleared ≡ known.old.cleared) }
{
    if loses_last(alloc, known, child)? {
        known.open.push_back(child)?;
    }
    Ok(())
}

/// Leaves what is cleared at the end of a child's list out of it. Tells whether that had a node, and has none
/// now; no clause says so.
fn loses_last(alloc: Global, known: &mut Dependents, child: u64) -> Result<bool, Memory>
    ensures known { OnOk result ((rows : Seq Row) (p : ℕ) → KnowsDependents rows p known.old →
        KnowsDependents rows p known.new) }
    ensures cleared { OnOk result (known.new.cleared ≡ known.old.cleared) }
{
    match known.edges.clients.get_mut(&child) {
        None => Ok(false),
        Some(clients) => {
            let had_one = !clients.is_empty();
            let last = trim(alloc, &known.cleared, clients)?;
            Ok(had_one && last.is_none())
        }
    }
}

/// The last node in a child's list that isn't known to be cleared. What is cleared behind it is left out.
pub(crate) fn next_client(
    alloc: Global,
    known: &mut Dependents,
    child: u64,
) -> Result<Option<u64>, Memory>
    ensures client { IfOk result (IsClientLeft known.new child) }
    ensures known { OnOk result ((rows : Seq Row) (p : ℕ) → KnowsDependents rows p known.old →
        KnowsDependents rows p known.new) }
    ensures cleared { OnOk result (known.new.cleared ≡ known.old.cleared) }
{
    match known.edges.clients.get_mut(&child) {
        None => Ok(None),
        Some(clients) => {
            let last = trim(alloc, &known.cleared, clients)?;
            Ok(last)
        }
    }
}

/// A list, and the last node in it.
#[derive(Drop)]
pub(crate) struct ListEnd {
    /// The list.
    pub list: List<u64>,
    /// Its last node; `None` where it has none.
    pub last: Option<u64>,
}

/// Leaves what is cleared at the end of a list out of it, and tells the last one that is left.
fn trim(alloc: Global, cleared: &BTreeSet<u64>, list: &mut List<u64>) -> Result<Option<u64>, Memory>
    ensures last { IfOk result (IsLastLeft cleared.now list.new) }
    ensures left { OnOk result ((z : ℕ) → IsTrue (is_in_list list.old z) →
        IsTrue (is_in_list list.new z) ⊎ IsTrue (is_in_set cleared.now z)) }
    ensures only { OnOk result ((z : ℕ) → IsTrue (is_in_list list.new z) →
        IsTrue (is_in_list list.old z)) }
{
    let all = mem::replace(list, List::new(alloc));
    let ListEnd { list: left, last } = cut(cleared, all)?;
    *list = left;
    Ok(last)
}

/// A list without what is cleared at its end.
fn cut(cleared: &BTreeSet<u64>, list: List<u64>) -> Result<ListEnd, Memory>
    ensures { IfOk result (IsListEnd cleared.now list) }
{
    let mut left = list.into_vec();
    while let Some(last) = left.pop() {
        if !cleared.contains(&last) {
            left.push(last)?;
            return Ok(ListEnd {
                list: List::from_vec(left),
                last: Some(last),
            });
        }
    }
    Ok(ListEnd {
        list: List::from_vec(left),
        last: None,
    })
}
