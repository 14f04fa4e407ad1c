//! Hops, and where the instances that they name stand.

ghost use Rattle.std.specs.Prelude.{◌≡◌, IfOk, Some, option_and_then};
ghost use Rattle.cm_world.specs.Rows.{row_of, moniker_of};
ghost use Rattle.cm_world.specs.Sound.{IsOrderly};
ghost use Rattle.cm_world.specs.Stations as spec;
ghost use Rattle.cm_walk.specs.Walking.{IsHopPlaced};

use cm_decl::Kind;
use cm_names::{Chain, List, Memory, Moniker, Name, Shared};
use cm_world::{Hop, StepKind, View};
use std::alloc::Global;

/// For so many names a moniker has room at first.
const FIRST_ROOM: usize = 8;

/// Where the instance stands: the names from the root down to it. Where it doesn't live, that of
/// the root. `Err` where memory runs out.
pub fn moniker<V: View>(alloc: Global, view: &V, inc: u64) -> Result<Moniker, Memory>
    ensures { IfOk result (λ made. made ≡ moniker_of (V.rows view.now) inc) }
{
    match view.moniker_at(inc) {
        Some(kept) => Ok(kept.clone()?),
        None => names_up(alloc, view, inc),
    }
}

/// The moniker of an instance for which none is kept, made of the names on the way up to the root.
fn names_up<V: View>(alloc: Global, view: &V, inc: u64) -> Result<Moniker, Memory>
    ensures { IfOk result (λ made. made ≡ moniker_of (V.rows view.now) inc) }
{
    let mut names = Vec::with_capacity(alloc, FIRST_ROOM)?;
    let mut at = inc;
    'up: while let Some(place) = view.place(at) {
        names.push(place.name.get().clone()?)?;
        at = place.parent;
    }
    names.reverse();
    let listed = Shared::new(alloc, List::from_vec(names))?;
    Ok(Moniker {
        parts: Chain::from_list(listed),
    })
}

/// The parent of the instance, or `None` where it is the root or doesn't live.
pub fn parent<V: View>(view: &V, inc: u64) -> Option<u64>
    ensures parent { result ≡ option_and_then (λ r. r.parent) (row_of (V.rows view.now) inc) }
    ensures orderly { IsOrderly (V.rows view.now) (V.next_inc view.now) }
{
    match view.facts(inc) {
        Some(facts) => facts.parent,
        None => None,
    }
}

/// Where the parent of this hop's instance stands: the names of the hop but the last one, which it
/// shares. `Err` where memory runs out.
pub(crate) fn moniker_above<V: View>(
    alloc: Global,
    view: &V,
    here: &Hop,
    parent: u64,
) -> Result<Moniker, Memory>
    requires orderly { IsOrderly (V.rows view.now) (V.next_inc view.now) }
    requires placed { IsHopPlaced (V.rows view.now) here.now }
    requires parent { let row = row_of (V.rows view.now) here.now.inc in
        option_and_then (λ r. r.parent) row ≡ Some parent }
    ensures { IfOk result (λ made. made ≡ moniker_of (V.rows view.now) parent) }
{
    let parts = &here.moniker.parts;
    let above = parts.upto(alloc, parts.len().saturating_sub(1))?;
    Ok(Moniker { parts: above })
}

/// A hop at the instance, which stands there, that no row of a declaration states: it states no
/// rights and no availability, and counts as strong.
pub(crate) fn bare_hop<V: View>(
    view: &V,
    step: StepKind,
    inc: u64,
    moniker: Moniker,
    kind: Kind,
    name: &Name,
) -> Result<Hop, Memory>
    requires { moniker ≡ moniker_of (V.rows view.now) inc }
    ensures { IfOk result (λ hop. hop ≡ spec.bare_hop (V.rows view.now) step inc kind name.now) }
{
    let name = name.clone()?;
    Ok(Hop {
        step,
        inc,
        moniker,
        kind,
        name,
        rights: None,
        availability: None,
        strong: true,
    })
}
