//! Where a moniker leads, in a counted number of looks.

ghost use Rattle.std.specs.Prelude.{◌≡◌, ◌+◌, ◌-◌, ◌*◌, ◌≤◌, IsTrue, IfSome, drop, length};
ghost use Rattle.cm_world.specs.Located.{located_from};
ghost use Rattle.cm_world.specs.Offering as offering;
ghost use Rattle.cm_world.specs.Rows.{is_live};
ghost use Rattle.cm_world.specs.Sound.{IsOrderly};
ghost use Rattle.cm_walk.specs.Leading.{LeadsDownTo};

use crate::above::is_gone;
use cm_names::Moniker;
use cm_world::{Located, StepCount, Store, View};
use std::sync::ledger::Ledger;

/// Where the moniker leads from the root, in at most two looks a name: each look at this tree takes a step
/// of this counter, and of no other. The tree is orderly and its root lives. It takes no memory.
///
/// `Missing` tells how many names are found; a number above 2^32 - 1 is told as that.
pub fn locate<L: Ledger, S: Store<L>>(
    store: &S,
    moniker: &Moniker,
    steps: &mut StepCount<L>,
) -> Located
    requires orderly { IsOrderly (S.rows store.now) (S.next_inc store.now) }
    requires root { IsTrue (is_live (S.rows store.now) 0) }
    ensures located { result ≡ located_from (S.rows store.now) 0 0 moniker.now.parts }
    ensures cost { steps.new ≤ steps.old + 2 * length moniker.now.parts }
{
    locate_below(store, moniker, 0, 0, steps)
}

/// Where the moniker leads from this instance, to which its first `count` names lead, as `locate` does. Each
/// name behind those takes two looks at most.
pub fn locate_below<L: Ledger, S: Store<L>>(
    store: &S,
    moniker: &Moniker,
    from: u64,
    count: usize,
    steps: &mut StepCount<L>,
) -> Located
    requires orderly { IsOrderly (S.rows store.now) (S.next_inc store.now) }
    requires lives { IsTrue (is_live (S.rows store.now) from) }
    requires within { count ≤ length moniker.now.parts }
    ensures located { result ≡ located_from (S.rows store.now) from count (drop count moniker.now.parts) }
    ensures cost { steps.new ≤ steps.old + 2 * (length moniker.now.parts - count) }
{
    let mut at = from;
    for depth in count..moniker.parts.len() {
        if !store.is_resolved(at, steps) {
            return Located::Unresolved(at);
        }
        match store.child(at, moniker.parts.at(depth), steps) {
            None => return Located::Missing(told_index(depth)),
            Some(next) => at = next,
        }
    }
    Located::Found(at)
}

/// How many of the moniker's first names lead from the root to this instance, where they lead there and it
/// isn't gone: as many as its own moniker has. `None` says nothing; it comes, too, where no moniker is kept
/// with the row.
pub fn names_leading_to<V: View>(view: &V, moniker: &Moniker, inc: u64) -> Option<usize>
    requires { IsOrderly (V.rows view.now) (V.next_inc view.now) }
    ensures { IfSome result (LeadsDownTo (V.rows view.now) moniker.now.parts inc) }
{
    if is_gone(view, inc) {
        return None;
    }
    let Some(own) = view.moniker_at(inc) else {
        return None;
    };
    if moniker.starts_with(own) {
        return Some(own.parts.len());
    }
    None
}

/// An index as it is told.
fn told_index(index: usize) -> u32
    ensures { result ≡ offering.told_index index }
{
    match u32::try_from(index) {
        Ok(index) => index,
        Err(_) => u32::MAX,
    }
}
