//! The instances at and below one.

ghost use Rattle.std.specs.Prelude.{◌≡◌, ◌||◌, ◌&&◌, ◌==◌, ℕ, map, IfOk, OnOk};
ghost use Rattle.cm_world.specs.Rows.{is_live, subtree};
ghost use Rattle.cm_world.specs.Sound.{IsOrderly};
ghost use Rattle.cm_walk.specs.Ahead.{is_in_set, is_child};

use cm_names::Memory;
use cm_world::View;
use std::alloc::Global;
use std::collections::BTreeSet;

/// The instances at and below the given one, by increasing incarnations; none where it doesn't live.
/// `Err` where memory runs out. It goes to these alone, and finds each in a logarithm.
pub fn rows_below<V: View>(alloc: Global, view: &V, top: u64) -> Result<Vec<u64>, Memory>
    ensures found { let below = subtree (V.rows view.now) top in
        IfOk result (λ found. found.items ≡ map (λ r. r.inc) below) }
    ensures orderly { IsOrderly (V.rows view.now) (V.next_inc view.now) }
{
    let mut found = Vec::new(alloc);
    let mut ahead = alone(alloc, view, top)?;
    'next: while let Some(inc) = ahead.pop_first() {
        put_children(view, inc, &mut ahead)?;
        found.push(inc)?;
    }
    Ok(found)
}

/// The set of the instance alone, if it lives.
fn alone<V: View>(alloc: Global, view: &V, inc: u64) -> Result<BTreeSet<u64>, Memory>
    ensures alone { IfOk result (λ ahead. (q : ℕ) →
        is_in_set ahead q ≡ (is_live (V.rows view.now) inc && q == inc)) }
    ensures orderly { IsOrderly (V.rows view.now) (V.next_inc view.now) }
{
    match view.facts(inc) {
        None => Ok(BTreeSet::new(alloc)),
        Some(_facts) => set_of(alloc, inc),
    }
}

/// The set of one instance.
fn set_of(alloc: Global, inc: u64) -> Result<BTreeSet<u64>, Memory>
    ensures { IfOk result (λ set. (q : ℕ) → is_in_set set q ≡ (q == inc)) }
{
    let mut set = BTreeSet::new(alloc);
    set.insert(inc)?;
    Ok(set)
}

/// Puts the children of an instance into the set, those that are being destroyed too.
fn put_children<V: View>(view: &V, parent: u64, ahead: &mut BTreeSet<u64>) -> Result<(), Memory>
    requires { IsOrderly (V.rows view.now) (V.next_inc view.now) }
    ensures { OnOk result ((q : ℕ) → is_in_set ahead.new q
        ≡ (is_in_set ahead.old q || is_child (V.rows view.now) parent q)) }
{
    let mut after = None;
    'next: while let Some(child) = view.next_child(parent, after) {
        ahead.insert(child)?;
        after = Some(child);
    }
    Ok(())
}
