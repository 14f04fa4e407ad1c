//! How a child stands at its level: whether something that isn't shut still depends on it.
//!
//! It is told by the lists of the level alone, and exactly. What is shut in a list, but not known to be
//! cleared, is asked in its turn, so the way goes up until something isn't shut or waits for nothing.

ghost use Rattle.std.specs.Prelude.{◌≡◌, ◌++◌, ◌∷◌, [], false, IsTrue, ◌↔◌, IfOk, OnOk};
ghost use Rattle.cm_world.specs.Sound.{IsSound};
ghost use Rattle.cm_world.specs.Stopping.{IsFree};
ghost use Rattle.cm_trees.specs.Kids.{IsKid};
ghost use Rattle.cm_order.specs.Glances.{is_in_set, KnowsDependents};
ghost use Rattle.cm_order.specs.Standing.{HasNoClient, IsByOwn, IsChildStanding};
ghost use Rattle.cm_order.specs.Standing.{IsLook, IsSeen, IsClimb, IsClimbed, IsOwnBinding};

use crate::below::all_shut;
use crate::clearing::{clear, next_client};
use crate::dependents::Dependents;
use cm_names::Memory;
use cm_walk::above::is_shut;
use cm_world::View;
use std::alloc::Global;

/// How a child stands at its level.
#[derive(Debug, Clone, Copy)]
pub(crate) enum ChildStanding {
    /// All that depends on it is shut, and known to be cleared.
    Free,
    /// Something that depends on it isn't shut.
    Bound,
    /// The instance itself depends on it and is shut, but isn't known to be cleared. No more is said.
    ByOwn,
}

/// What the list of a node says.
#[derive(Debug, Clone, Copy)]
pub(crate) enum ClientLook {
    /// Nothing in it isn't cleared.
    NoClient,
    /// It has one that isn't shut.
    Unshut,
    /// It has the instance itself, which is shut but isn't known to be cleared.
    Own,
    /// It has this child, which is shut but isn't known to be cleared.
    Shut(u64),
}

/// Whether all that depends on a child, directly or through others, is shut.
pub(crate) fn is_free<V: View>(
    alloc: Global,
    view: &V,
    known: &mut Dependents,
    parent: u64,
    child: u64,
) -> Result<bool, Memory>
    requires sound { IsSound (V.rows view.now) (V.next_inc view.now) }
    requires known { KnowsDependents (V.rows view.now) parent known.old }
    requires kid { IsKid (V.rows view.now) parent child }
    ensures free { IfOk result (λ free. IsTrue free ↔ IsFree (V.rows view.now) parent child) }
    ensures known { OnOk result (KnowsDependents (V.rows view.now) parent known.new) }
{
    match standing_of(alloc, view, known, parent, child)? {
        ChildStanding::Free => Ok(true),
        ChildStanding::Bound => Ok(false),
        ChildStanding::ByOwn => is_free_behind(alloc, view, known, parent, child),
    }
}

/// The same of a child on which the instance itself depends, where that is shut and isn't known to be
/// cleared.
fn is_free_behind<V: View>(
    alloc: Global,
    view: &V,
    known: &mut Dependents,
    parent: u64,
    child: u64,
) -> Result<bool, Memory>
    requires sound { IsSound (V.rows view.now) (V.next_inc view.now) }
    requires known { KnowsDependents (V.rows view.now) parent known.old }
    requires kid { IsKid (V.rows view.now) parent child }
    requires own { IsByOwn (V.rows view.now) parent child known.old }
    ensures free { IfOk result (λ free. IsTrue free ↔ IsFree (V.rows view.now) parent child) }
    ensures known { OnOk result (KnowsDependents (V.rows view.now) parent known.new) }
{
    if !is_own_free(alloc, view, known, parent)? {
        return Ok(false);
    }
    clear(alloc, known, parent)?;
    match standing_of(alloc, view, known, parent, child)? {
        ChildStanding::Free => Ok(true),
        ChildStanding::Bound => Ok(false),
        ChildStanding::ByOwn => unreachable!(),
    }
}

/// Whether all that depends on the instance itself is shut, where that is shut and isn't known to be
/// cleared.
fn is_own_free<V: View>(
    alloc: Global,
    view: &V,
    known: &mut Dependents,
    parent: u64,
) -> Result<bool, Memory>
    requires sound { IsSound (V.rows view.now) (V.next_inc view.now) }
    requires known { KnowsDependents (V.rows view.now) parent known.old }
    requires left { is_in_set known.old.cleared parent ≡ false }
    ensures free { IfOk result (λ free. IsTrue free ↔ IsFree (V.rows view.now) parent parent) }
    ensures known { OnOk result (KnowsDependents (V.rows view.now) parent known.new) }
{
    let mut behind = None;
    while let Some(child) = view.next_child(parent, behind) {
        if binds_own(alloc, view, known, parent, child)? {
            return Ok(false);
        }
        behind = Some(child);
    }
    Ok(true)
}

/// Whether a child isn't shut with all below it, and is free as the lists say. It depends on the instance
/// itself then, since that isn't known to be cleared.
fn binds_own<V: View>(
    alloc: Global,
    view: &V,
    known: &mut Dependents,
    parent: u64,
    child: u64,
) -> Result<bool, Memory>
    requires sound { IsSound (V.rows view.now) (V.next_inc view.now) }
    requires known { KnowsDependents (V.rows view.now) parent known.old }
    requires kid { IsKid (V.rows view.now) parent child }
    requires left { is_in_set known.old.cleared parent ≡ false }
    ensures binds { IfOk result (λ binds. IsOwnBinding (V.rows view.now) parent child binds) }
    ensures known { OnOk result (KnowsDependents (V.rows view.now) parent known.new) }
    ensures left { OnOk result (is_in_set known.new.cleared parent ≡ false) }
{
    if all_shut(alloc, view, child)? {
        return Ok(false);
    }
    match standing_of(alloc, view, known, parent, child)? {
        ChildStanding::Free => Ok(true),
        ChildStanding::Bound => Ok(false),
        ChildStanding::ByOwn => Ok(false),
    }
}

/// How a child stands, as the lists say.
pub(crate) fn standing_of<V: View>(
    alloc: Global,
    view: &V,
    known: &mut Dependents,
    parent: u64,
    child: u64,
) -> Result<ChildStanding, Memory>
    requires sound { IsSound (V.rows view.now) (V.next_inc view.now) }
    requires known { KnowsDependents (V.rows view.now) parent known.old }
    requires kid { IsKid (V.rows view.now) parent child }
    ensures standing { IfOk result (IsChildStanding (V.rows view.now) parent child known.new) }
    ensures known { OnOk result (KnowsDependents (V.rows view.now) parent known.new) }
    ensures own { OnOk result (is_in_set known.new.cleared parent ≡ is_in_set known.old.cleared parent) }
{
    let mut way = Vec::new(alloc);
    way.push(child)?;
    while let Some(at) = way.pop() {
        let look = look_at(alloc, view, known, parent, at)?;
        if let Some(told) = climb(alloc, view, known, parent, child, &mut way, at, look)? {
            return Ok(told);
        }
    }
    unreachable!()
}

/// Goes on from a node of the way by what its list says: up to one that it waits for, or back, where it waits
/// for none and is cleared. Tells how the child stands, where that is known.
fn climb<V: View>(
    alloc: Global,
    view: &V,
    known: &mut Dependents,
    parent: u64,
    child: u64,
    way: &mut Vec<u64>,
    at: u64,
    look: ClientLook,
) -> Result<Option<ChildStanding>, Memory>
    requires sound { IsSound (V.rows view.now) (V.next_inc view.now) }
    requires known { KnowsDependents (V.rows view.now) parent known.old }
    requires way { IsClimb (V.rows view.now) parent child (way.old.items ++ at ∷ []) }
    requires look { IsLook (V.rows view.now) parent at known.old look }
    ensures climbed { IfOk result (IsClimbed (V.rows view.now) parent child
        known.old.cleared (way.old.items ++ at ∷ []) known.new way.new.items) }
    ensures known { OnOk result (KnowsDependents (V.rows view.now) parent known.new) }
    ensures own { OnOk result (is_in_set known.new.cleared parent ≡ is_in_set known.old.cleared parent) }
{
    match look {
        ClientLook::NoClient => go_back(alloc, view, known, parent, child, way, at),
        ClientLook::Unshut => Ok(Some(ChildStanding::Bound)),
        ClientLook::Own => Ok(Some(ChildStanding::ByOwn)),
        ClientLook::Shut(client) => {
            way.push(at)?;
            way.push(client)?;
            Ok(None)
        }
    }
}

/// Clears a node of the way that waits for nothing, if it isn't the child itself, which is free then.
fn go_back<V: View>(
    alloc: Global,
    view: &V,
    known: &mut Dependents,
    parent: u64,
    child: u64,
    way: &mut Vec<u64>,
    at: u64,
) -> Result<Option<ChildStanding>, Memory>
    requires sound { IsSound (V.rows view.now) (V.next_inc view.now) }
    requires known { KnowsDependents (V.rows view.now) parent known.old }
    requires way { IsClimb (V.rows view.now) parent child (way.old.items ++ at ∷ []) }
    requires none { HasNoClient known.old at }
    ensures climbed { IfOk result (IsClimbed (V.rows view.now) parent child
        known.old.cleared (way.old.items ++ at ∷ []) known.new way.new.items) }
    ensures known { OnOk result (KnowsDependents (V.rows view.now) parent known.new) }
    ensures own { OnOk result (is_in_set known.new.cleared parent ≡ is_in_set known.old.cleared parent) }
{
    if way.is_empty() {
        return Ok(Some(ChildStanding::Free));
    }
    clear(alloc, known, at)?;
    Ok(None)
}

/// What the list of a child says, once what is cleared at its end is left out.
fn look_at<V: View>(
    alloc: Global,
    view: &V,
    known: &mut Dependents,
    parent: u64,
    at: u64,
) -> Result<ClientLook, Memory>
    requires sound { IsSound (V.rows view.now) (V.next_inc view.now) }
    requires known { KnowsDependents (V.rows view.now) parent known.old }
    requires kid { IsKid (V.rows view.now) parent at }
    ensures look { IfOk result (IsLook (V.rows view.now) parent at known.new) }
    ensures known { OnOk result (KnowsDependents (V.rows view.now) parent known.new) }
    ensures cleared { OnOk result (known.new.cleared ≡ known.old.cleared) }
{
    match next_client(alloc, known, at)? {
        None => Ok(ClientLook::NoClient),
        Some(client) => {
            let look = look_up(alloc, view, parent, client)?;
            Ok(look)
        }
    }
}

/// What one that is in a list says: it isn't shut, or isn't known to be cleared.
fn look_up<V: View>(alloc: Global, view: &V, parent: u64, client: u64) -> Result<ClientLook, Memory>
    ensures { IfOk result (IsSeen (V.rows view.now) parent client) }
{
    if client == parent {
        return Ok(look_own(view, parent));
    }
    if all_shut(alloc, view, client)? {
        return Ok(ClientLook::Shut(client));
    }
    Ok(ClientLook::Unshut)
}

/// What the instance itself says, where it is in a list.
fn look_own<V: View>(view: &V, parent: u64) -> ClientLook
    ensures { IsSeen (V.rows view.now) parent parent result }
{
    if is_shut(view, parent) {
        return ClientLook::Own;
    }
    ClientLook::Unshut
}
