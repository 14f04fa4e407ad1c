//! What a new child comes from, directly or through others.
//!
//! Its name is that of no child yet, so a ring that it closes leads from it over children of
//! collections back to it. They are looked for from the new child alone, each once: where none of
//! them comes from a child of its name, there is no ring, and no realm graph has to be made. They
//! aren't looked for either where nothing that was given comes from a child of its name.

ghost use Rattle.std.specs.Prelude.{◌≡◌, ℕ, Some, not, IsTrue, IfOk, OnOk};
ghost use Rattle.std.specs.List.{list_all};
ghost use Rattle.cm_decl.specs.Same.{same_child};
ghost use Rattle.cm_world.specs.RowsInside.{comes_from, is_child_named, wants_none};
ghost use Rattle.cm_walk.specs.Ahead.{is_in_set};
ghost use Rattle.cm_dynamic.specs.Apart as apart;
ghost use Rattle.cm_dynamic.specs.Onward as onward;

use crate::apart::{are_declared_plain, binds_created, is_strong};
use cm_decl::{Decl, Give, Origin};
use cm_names::{ChildName, Memory};
use cm_world::View;
use std::alloc::Global;
use std::collections::BTreeSet;

/// Whether nothing that is declared comes strongly from a child of a collection, and nothing that
/// the new child comes from is a child of its name. `false` says nothing.
pub(crate) fn is_onward<V: View>(
    alloc: Global,
    view: &V,
    parent: u64,
    decl: &Decl,
    name: &ChildName,
    gives: &[Give],
) -> Result<bool, Memory>
    ensures offers { IfOk result (λ told. IsTrue told →
        IsTrue (list_all apart.is_plain_offer decl.now.offers)) }
    ensures usages { IfOk result (λ told. IsTrue told →
        IsTrue (list_all apart.is_plain_use decl.now.uses)) }
    ensures ways { IfOk result (λ told. IsTrue told →
        onward.IsOnward (V.rows view.now) parent name.now gives.now) }
{
    if !are_declared_plain(decl) {
        return Ok(false);
    }
    if is_unwanted(view, parent, name, gives) {
        return Ok(true);
    }
    leads_onward(alloc, view, parent, name, gives)
}

/// Whether nothing that was given to the new child, or to others, comes strongly from a child of
/// its name. `false` says nothing.
fn is_unwanted<V: View>(view: &V, parent: u64, name: &ChildName, gives: &[Give]) -> bool
    ensures { IsTrue result → onward.IsOnward (V.rows view.now) parent name.now gives.now }
{
    if view.is_wanted(name) {
        return false;
    }
    are_of_others(gives, name)
}

/// Whether none of these offers comes strongly from a child of that name.
fn are_of_others(gives: &[Give], name: &ChildName) -> bool
    ensures { result ≡ wants_none name.now gives.now }
{
    gives.iter().all(|give| is_of_other(give, name))
}

/// Whether the offer doesn't come strongly from a child of that name.
fn is_of_other(give: &Give, name: &ChildName) -> bool
    ensures { result ≡ not (comes_from name.now give.now) }
{
    !(is_strong(give.dependency) && is_from(&give.from, name))
}

/// Whether the source is a child of that name.
fn is_from(from: &Origin, name: &ChildName) -> bool
    ensures { result ≡ is_child_named name.now from.now }
{
    match from {
        Origin::Child(child) => is_same(child, name),
        _ => false,
    }
}

/// Whether nothing that the new child comes from is a child of its name. `false` says nothing.
fn leads_onward<V: View>(
    alloc: Global,
    view: &V,
    parent: u64,
    name: &ChildName,
    gives: &[Give],
) -> Result<bool, Memory>
    ensures { IfOk result (λ told. IsTrue told →
        onward.IsOnward (V.rows view.now) parent name.now gives.now) }
{
    let mut seen = BTreeSet::new(alloc);
    let mut ahead = BTreeSet::new(alloc);
    if !put_gives(view, parent, name, gives, &mut seen, &mut ahead)? {
        return Ok(false);
    }
    for _ in 0..u64::MAX {
        let Some(inc) = ahead.pop_first() else {
            return Ok(true);
        };
        if !put_row(view, parent, name, inc, &mut seen, &mut ahead)? {
            return Ok(false);
        }
    }
    Ok(false)
}

/// Puts what the instance was given into the sets, and tells whether none of it comes from a child
/// of the new name.
fn put_row<V: View>(
    view: &V,
    parent: u64,
    name: &ChildName,
    inc: u64,
    seen: &mut BTreeSet<u64>,
    ahead: &mut BTreeSet<u64>,
) -> Result<bool, Memory>
    ensures past { IfOk result (λ past. IsTrue past →
        onward.RowLeadsPast (V.rows view.now) parent name.now seen.new inc) }
    ensures grows { OnOk result (onward.Grows seen.old ahead.old seen.new ahead.new) }
{
    match view.gives(inc) {
        None => Ok(true),
        Some(gives) => put_gives(view, parent, name, gives.as_slice(), seen, ahead),
    }
}

/// Puts the children of collections that these offers strongly come from into the sets, and tells
/// whether none of them is of the new name.
fn put_gives<V: View>(
    view: &V,
    parent: u64,
    name: &ChildName,
    gives: &[Give],
    seen: &mut BTreeSet<u64>,
    ahead: &mut BTreeSet<u64>,
) -> Result<bool, Memory>
    ensures past { IfOk result (λ past. IsTrue past →
        IsTrue (list_all (onward.leads_past (V.rows view.now) parent name.now seen.new) gives.now)) }
    ensures grows { OnOk result (onward.Grows seen.old ahead.old seen.new ahead.new) }
{
    for give in gives {
        if !put_give(view, parent, name, give, seen, ahead)? {
            return Ok(false);
        }
    }
    Ok(true)
}

/// Puts the child of a collection that this offer strongly comes from into the sets, and tells
/// whether it isn't of the new name.
fn put_give<V: View>(
    view: &V,
    parent: u64,
    name: &ChildName,
    give: &Give,
    seen: &mut BTreeSet<u64>,
    ahead: &mut BTreeSet<u64>,
) -> Result<bool, Memory>
    ensures past { IfOk result (λ past. IsTrue past →
        IsTrue (onward.leads_past (V.rows view.now) parent name.now seen.new give.now)) }
    ensures grows { OnOk result (onward.Grows seen.old ahead.old seen.new ahead.new) }
{
    if !binds_created(give.dependency, &give.from) {
        return Ok(true);
    }
    match &give.from {
        Origin::Child(child) => put_child(view, parent, name, child, seen, ahead),
        _ => Ok(true),
    }
}

/// Puts the child of that name into the sets, if there is one, and tells whether it isn't of the
/// new name.
fn put_child<V: View>(
    view: &V,
    parent: u64,
    name: &ChildName,
    child: &ChildName,
    seen: &mut BTreeSet<u64>,
    ahead: &mut BTreeSet<u64>,
) -> Result<bool, Memory>
    ensures past { IfOk result (λ past. IsTrue past →
        IsTrue (onward.is_past (V.rows view.now) parent name.now seen.new child.now)) }
    ensures grows { OnOk result (onward.Grows seen.old ahead.old seen.new ahead.new) }
{
    if is_same(child, name) {
        return Ok(false);
    }
    match view.child(parent, child) {
        None => Ok(true),
        Some(inc) => {
            put(inc, seen, ahead)?;
            Ok(true)
        }
    }
}

/// Puts an instance into the sets, unless it has been seen.
fn put(inc: u64, seen: &mut BTreeSet<u64>, ahead: &mut BTreeSet<u64>) -> Result<(), Memory>
    ensures here { OnOk result (IsTrue (is_in_set seen.new inc)) }
    ensures grows { OnOk result (onward.Grows seen.old ahead.old seen.new ahead.new) }
{
    if !seen.insert(inc)? {
        return Ok(());
    }
    ahead.insert(inc)?;
    Ok(())
}

/// Whether the names are the same.
fn is_same(a: &ChildName, b: &ChildName) -> bool
    ensures { result ≡ same_child a.now b.now }
{
    *a == *b
}
