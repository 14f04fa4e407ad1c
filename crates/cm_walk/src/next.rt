//! What comes after a station of a route.

ghost use Rattle.std.specs.Prelude.{◌≡◌, IfOk, Some, option_and_then};
ghost use Rattle.std.specs.Option.{option_copied};
ghost use Rattle.cm_world.specs.Rows.{row_of, child_of, decl_of};
ghost use Rattle.cm_world.specs.RowsInside.{name_of};
ghost use Rattle.cm_world.specs.declared.row.Row.{Row};
ghost use Rattle.cm_world.specs.NextStation as spec;
ghost use Rattle.cm_world.specs.Sound.{IsOrderly};
ghost use Rattle.cm_walk.specs.Walking.{as_station, as_next, is_no_child, EndsAt, IsHopPlaced};

use crate::find;
use crate::hop::{bare_hop, moniker, moniker_above};
use crate::station::{
    HopStation, StationSource, builtin_station, capability_station, expose_station,
    framework_station, offer_station,
};
use cm_decl::{Capability, Decl, Give, Kind, Offer, Origin};
use cm_names::{CapPath, ChildName, Memory, Name};
use cm_world::{Hop, StepKind, View, Why};
use std::alloc::Global;

/// What comes after a station.
#[derive(Drop)]
pub(crate) enum NextOnWalk<'a> {
    /// Another station.
    To(HopStation<'a>),
    /// Nothing: the station is an end, which provides the capability at this path.
    Ends(CapPath),
    /// What the declaration of this instance says, which isn't resolved.
    Needs(u64),
    /// Nothing: the capability is left out on purpose.
    FromVoid,
    /// A child that isn't there.
    NoChild,
    /// A hop that is missing, and why.
    Misses(Hop, Why),
}

impl<'a> NextOnWalk<'a> {
    /// Whether a child isn't there.
    pub(crate) fn is_no_child(&self) -> bool
        ensures { result ≡ is_no_child (as_next self.now) }
    {
        match self {
            NextOnWalk::NoChild => true,
            _ => false,
        }
    }
}

/// What comes after the station. `Err` where memory runs out.
pub(crate) fn next_of<'a, V: View>(
    alloc: Global,
    view: &'a V,
    station: &HopStation<'a>,
) -> Result<NextOnWalk<'a>, Memory>
    requires placed { IsHopPlaced (V.rows view.now) station.now.hop }
    ensures next { IfOk result (λ found. as_next found
        ≡ spec.next_of (V.rows view.now) (V.builtins view.now) (as_station station.now)) }
    ensures path { IfOk result (λ found. EndsAt (as_station station.now) found) }
{
    match &station.source {
        StationSource::End(path) => Ok(NextOnWalk::Ends(path.clone()?)),
        StationSource::Row(from, name, _) => from_origin(alloc, view, &station.hop, name, from),
    }
}

/// What comes from an origin that is named at the hop.
fn from_origin<'a, V: View>(
    alloc: Global,
    view: &'a V,
    here: &Hop,
    name: &'a Name,
    from: &Origin,
) -> Result<NextOnWalk<'a>, Memory>
    requires placed { IsHopPlaced (V.rows view.now) here.now }
    ensures { IfOk result (λ found. as_next found
        ≡ spec.next_from (V.rows view.now) (V.builtins view.now) here.now.inc here.now.kind
        name.now from.now) }
{
    match from {
        Origin::Parent => above(alloc, view, here, name),
        Origin::Child(child) => below(alloc, view, view.child(here.inc, child), here.kind, name),
        Origin::Own => own(view, here, name),
        Origin::Framework => {
            let moniker = here.moniker.clone()?;
            let station = framework_station(alloc, view, here.inc, moniker, here.kind, name)?;
            Ok(NextOnWalk::To(station))
        }
        Origin::Void => Ok(NextOnWalk::FromVoid),
    }
}

/// What comes from the parent of the hop's instance, or from above the root.
fn above<'a, V: View>(
    alloc: Global,
    view: &'a V,
    here: &Hop,
    name: &'a Name,
) -> Result<NextOnWalk<'a>, Memory>
    requires placed { IsHopPlaced (V.rows view.now) here.now }
    ensures { IfOk result (λ found. as_next found
        ≡ spec.from_above (V.rows view.now) (V.builtins view.now) here.now.kind name.now (row_of
        (V.rows view.now) here.now.inc)) }
{
    let Some(facts) = view.facts(here.inc) else {
        return Ok(NextOnWalk::NoChild);
    };
    match facts.parent {
        None => builtin(view, here, name),
        Some(parent) => offered(alloc, view, parent, here, name),
    }
}

/// The capability above the root, which is the hop's instance.
fn builtin<'a, V: View>(view: &'a V, here: &Hop, name: &'a Name) -> Result<NextOnWalk<'a>, Memory>
    requires placed { IsHopPlaced (V.rows view.now) here.now }
    ensures { IfOk result (λ found. as_next found
        ≡ spec.by_builtin (V.rows view.now) here.now.inc here.now.kind name.now
        (spec.builtin_of (V.builtins view.now) here.now.kind name.now)) }
{
    let moniker = here.moniker.clone()?;
    match view.builtin(here.kind, name) {
        Some(builtin) => {
            let station = builtin_station(view, here.inc, moniker, builtin)?;
            Ok(NextOnWalk::To(station))
        }
        None => {
            let hop = bare_hop(
                view,
                StepKind::BuiltinHop,
                here.inc,
                moniker,
                here.kind,
                name,
            )?;
            Ok(NextOnWalk::Misses(hop, Why::NoBuiltin))
        }
    }
}

/// What the parent offers to the hop's instance.
fn offered<'a, V: View>(
    alloc: Global,
    view: &'a V,
    parent: u64,
    here: &Hop,
    name: &'a Name,
) -> Result<NextOnWalk<'a>, Memory>
    requires placed { IsHopPlaced (V.rows view.now) here.now }
    requires parent { let row = row_of (V.rows view.now) here.now.inc in
        option_and_then (λ r. r.parent) row ≡ Some parent }
    ensures { IfOk result (λ found. (r : Row) → row_of (V.rows view.now) here.now.inc ≡ Some r
        → r.parent ≡ Some parent → as_next found
        ≡ spec.offered_by (V.rows view.now) parent r here.now.kind name.now (decl_of
        (V.rows view.now) parent)) }
{
    let Some(decl) = view.decl(parent) else {
        return Ok(NextOnWalk::Needs(parent));
    };
    let moniker = moniker_above(alloc, view, here, parent)?;
    match offered_by(view, decl, parent, here, name) {
        Some(give) => {
            let station = offer_station(view, parent, moniker, give)?;
            Ok(NextOnWalk::To(station))
        }
        None => {
            let hop = bare_hop(view, StepKind::OfferHop, parent, moniker, here.kind, name)?;
            Ok(NextOnWalk::Misses(hop, Why::NoOffer))
        }
    }
}

/// What the hop's instance is offered by its parent, which has this declaration, else by its
/// creation.
fn offered_by<'a, V: View>(
    view: &'a V,
    decl: &'a Decl,
    parent: u64,
    here: &Hop,
    name: &Name,
) -> Option<&'a Give>
    requires orderly { IsOrderly (V.rows view.now) (V.next_inc view.now) }
    requires placed { IsHopPlaced (V.rows view.now) here.now }
    requires parent { let row = row_of (V.rows view.now) here.now.inc in
        option_and_then (λ r. r.parent) row ≡ Some parent }
    ensures { (r : Row) → row_of (V.rows view.now) here.now.inc ≡ Some r
        → option_and_then (decl_of (V.rows view.now)) r.parent ≡ Some decl.now
        → option_copied result
        ≡ option_and_then (λ c. spec.offered decl.now c r.gives here.now.kind name.now) r.name }
{
    let child = name_at(view, parent, here)?;
    if let Some(offer) = offered_to(view, decl, here.inc, child, here.kind, name) {
        return Some(&offer.give);
    }
    let gives = view.gives(here.inc)?;
    find::give(gives.as_slice(), here.kind, name)
}

/// The name of the hop's instance among the children of this parent, the last one of the hop.
fn name_at<'a, V: View>(view: &'a V, parent: u64, here: &'a Hop) -> Option<&'a ChildName>
    requires orderly { IsOrderly (V.rows view.now) (V.next_inc view.now) }
    requires placed { IsHopPlaced (V.rows view.now) here.now }
    requires parent { let row = row_of (V.rows view.now) here.now.inc in
        option_and_then (λ r. r.parent) row ≡ Some parent }
    ensures { option_copied result ≡ name_of (V.rows view.now) here.now.inc }
{
    match here.moniker.parts.last() {
        Some(name) => Some(name),
        None => view.name(here.inc),
    }
}

/// The offer to the instance, which has this name, by this declaration of its parent.
fn offered_to<'a, V: View>(
    view: &V,
    decl: &'a Decl,
    inc: u64,
    child: &ChildName,
    kind: Kind,
    name: &Name,
) -> Option<&'a Offer>
    ensures { (r : Row) → row_of (V.rows view.now) inc ≡ Some r → r.name ≡ Some child.now
        → option_and_then (decl_of (V.rows view.now)) r.parent ≡ Some decl.now
        → option_copied result ≡ spec.offer_of decl.now child.now kind name.now }
{
    let index = view.offer_at(inc, kind, name)?;
    find::offer(decl, child, kind, name, index)
}

/// What comes from a child, if it is there.
fn below<'a, V: View>(
    alloc: Global,
    view: &'a V,
    child: Option<u64>,
    kind: Kind,
    name: &'a Name,
) -> Result<NextOnWalk<'a>, Memory>
    ensures { IfOk result (λ found. as_next found
        ≡ spec.from_child (V.rows view.now) kind name.now child) }
{
    let Some(inc) = child else {
        return Ok(NextOnWalk::NoChild);
    };
    let Some(decl) = view.decl(inc) else {
        return Ok(NextOnWalk::Needs(inc));
    };
    let moniker = moniker(alloc, view, inc)?;
    match exposed(view, decl, inc, kind, name) {
        Some(give) => {
            let station = expose_station(view, inc, moniker, give)?;
            Ok(NextOnWalk::To(station))
        }
        None => {
            let hop = bare_hop(view, StepKind::ExposeHop, inc, moniker, kind, name)?;
            Ok(NextOnWalk::Misses(hop, Why::NoExpose))
        }
    }
}

/// What comes from the hop's instance itself.
fn own<'a, V: View>(view: &'a V, here: &Hop, name: &'a Name) -> Result<NextOnWalk<'a>, Memory>
    requires placed { IsHopPlaced (V.rows view.now) here.now }
    ensures { IfOk result (λ found. as_next found
        ≡ spec.by_capability (V.rows view.now) here.now.inc (option_and_then
        (λ d. spec.capability_of d here.now.kind name.now) (decl_of (V.rows view.now)
        here.now.inc))) }
{
    let Some(decl) = view.decl(here.inc) else {
        return Ok(NextOnWalk::NoChild);
    };
    match provided(view, decl, here.inc, here.kind, name) {
        Some(capability) => {
            let moniker = here.moniker.clone()?;
            let station = capability_station(view, here.inc, moniker, capability)?;
            Ok(NextOnWalk::To(station))
        }
        None => Ok(NextOnWalk::NoChild),
    }
}

/// The expose of that kind and name by the instance, which has this declaration.
fn exposed<'a, V: View>(
    view: &V,
    decl: &'a Decl,
    inc: u64,
    kind: Kind,
    name: &Name,
) -> Option<&'a Give>
    requires { decl_of (V.rows view.now) inc ≡ Some decl.now }
    ensures { option_copied result ≡ spec.give_of decl.now.exposes kind name.now }
{
    let index = view.expose_at(inc, kind, name)?;
    find::exposed(decl, kind, name, index)
}

/// The capability of that kind and name of the instance, which has this declaration.
fn provided<'a, V: View>(
    view: &V,
    decl: &'a Decl,
    inc: u64,
    kind: Kind,
    name: &Name,
) -> Option<&'a Capability>
    requires { decl_of (V.rows view.now) inc ≡ Some decl.now }
    ensures { option_copied result ≡ spec.capability_of decl.now kind name.now }
{
    let index = view.capability_at(inc, kind, name)?;
    find::capability(decl, kind, name, index)
}
