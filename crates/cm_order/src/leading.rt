//! Whether a node of a level leads: it isn't shut, and all that depends on it is.

ghost use Rattle.std.specs.Prelude.{◌≡◌, None, IsTrue, ◌↔◌, IfOk};
ghost use Rattle.cm_world.specs.Sound.{IsSound};
ghost use Rattle.cm_trees.specs.Kids.{IsKid};
ghost use Rattle.cm_order.specs.Plans.{AreKnown};
ghost use Rattle.cm_order.specs.Search.{IsFreeAt, IsNextLeading};

use crate::below::all_shut;
use crate::clearing::uses_child;
use crate::dependents::Dependents;
use crate::glance::{shut_kids, take_level};
use crate::standing::is_free;
use cm_names::Memory;
use cm_walk::above::is_shut;
use cm_world::View;
use std::alloc::Global;
use std::collections::BTreeMap;

/// The first child behind this one, or of all children, that leads.
pub(crate) fn next_leading<V: View>(
    alloc: Global,
    view: &V,
    levels: &mut BTreeMap<u64, Dependents>,
    parent: u64,
    behind: Option<u64>,
) -> Result<Option<u64>, Memory>
    requires sound { IsSound (V.rows view.now) (V.next_inc view.now) }
    requires levels { AreKnown (V.rows view.now) levels.old }
    ensures next { IfOk result (IsNextLeading (V.rows view.now) parent behind) }
    ensures levels { AreKnown (V.rows view.now) levels.new }
{
    let mut last = behind;
    while let Some(child) = view.next_child(parent, last) {
        let leads = leads_up(alloc, view, levels, parent, child)?;
        if leads {
            return Ok(Some(child));
        }
        last = Some(child);
    }
    Ok(None)
}

/// Whether an instance leads at its own level: it isn't shut, and no child leads there.
pub(crate) fn leads_own<V: View>(
    alloc: Global,
    view: &V,
    levels: &mut BTreeMap<u64, Dependents>,
    inc: u64,
) -> Result<bool, Memory>
    requires sound { IsSound (V.rows view.now) (V.next_inc view.now) }
    requires levels { AreKnown (V.rows view.now) levels.old }
    ensures leads { IfOk result (λ leads. IsTrue leads ↔ IsFreeAt (V.rows view.now) inc inc) }
    ensures levels { AreKnown (V.rows view.now) levels.new }
{
    if is_shut(view, inc) {
        return Ok(false);
    }
    let kids = shut_kids(alloc, view, inc, None)?;
    if kids.all {
        return Ok(true);
    }
    if !uses_child(view, inc) {
        return Ok(false);
    }
    let first = next_leading(alloc, view, levels, inc, None)?;
    Ok(first.is_none())
}

/// Whether a child leads at the level of its parent.
pub(crate) fn leads_up<V: View>(
    alloc: Global,
    view: &V,
    levels: &mut BTreeMap<u64, Dependents>,
    parent: u64,
    child: u64,
) -> Result<bool, Memory>
    requires sound { IsSound (V.rows view.now) (V.next_inc view.now) }
    requires kid { IsKid (V.rows view.now) parent child }
    requires levels { AreKnown (V.rows view.now) levels.old }
    ensures leads { IfOk result (λ leads.
        IsTrue leads ↔ IsFreeAt (V.rows view.now) parent child) }
    ensures levels { AreKnown (V.rows view.now) levels.new }
{
    if all_shut(alloc, view, child)? {
        return Ok(false);
    }
    let mut known = take_level(alloc, view, levels, parent)?;
    let free = is_free(alloc, view, &mut known, parent, child)?;
    levels.insert(parent, known)?;
    Ok(free)
}
