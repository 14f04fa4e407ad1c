//! The walk from hop to hop.

ghost use Rattle.std.specs.Prelude.{◌≡◌, List as Seq, Some, IfOk, find, option_map};
ghost use Rattle.std.specs.Option.{option_copied};
ghost use Rattle.std.specs.Str.{bytes_eq};
ghost use Rattle.cm_world.specs.declared.route.Walked.TheVariants as walked;
ghost use Rattle.cm_world.specs.NextStation as to;
ghost use Rattle.cm_world.specs.Route as spec;
ghost use Rattle.cm_world.specs.Rows.{decl_of};
ghost use Rattle.cm_world.specs.Stations.{Station as Place};
ghost use Rattle.cm_world.specs.Sound.{IsOrderly};
ghost use Rattle.cm_world.specs.Ending.{KeepsDown};
ghost use Rattle.cm_walk.specs.Walking.{as_station, as_next, as_named};
ghost use Rattle.cm_walk.specs.Walking.{IsBehind, IsHopPlaced, refused};

use crate::find;
use crate::hop::{bare_hop, moniker};
use crate::next::{NextOnWalk, next_of};
use crate::station::{HopStation, expose_station, offer_station, use_station};
use crate::trail::Trail;
use cm_decl::{Decl, Kind, Usage};
use cm_names::{CapPath, Memory, Name, Shared};
use cm_world::{Hop, Start, StepKind, View, Walked, Why};
use std::alloc::Global;

/// What a start names.
#[derive(Drop)]
pub(crate) enum Begun<'a> {
    /// A use, an expose or an offer.
    At(HopStation<'a>),
    /// A use or an offer that isn't there.
    NoUse,
    /// An expose that isn't there: the hop that is missing.
    NoneExposed(Hop),
}

/// Walks from the start along the route of the capability, to the first hop at which something is
/// decided.
///
/// At each hop these are tried in order: the child that it names isn't there (`NoInstance`); it is
/// an offer or an expose at which less availability stands than at the hop before
/// (`AvailabilityTooWeak`); it states rights that the asked ones aren't within (`RightsTooWeak`);
/// then what comes next: a row without a declaration (`Need`), the void (`Void`), a hop that is
/// missing (`NoOffer`, `NoExpose`, `NoBuiltin`, at the missing hop), or the provider (`Given`). A
/// use alone asks for rights by itself; from another start the nearest rights that a hop states are
/// those that are asked. The availability that stands at a hop is the one that it states, or, where
/// it takes over that of its target, the one at the hop before.
///
/// `NoSuchUse` comes exactly where no use of the instance has the path, or no offer the index, and
/// `Failed` with `NoExpose` where a start at an expose finds none. Of an instance that doesn't live
/// or isn't resolved the answer is one of these two. `Err` comes where memory runs out, and there
/// alone.
///
/// The rules are those of "Capability routing" and "Capability availability" (fuchsia.dev); their
/// order at one hop is this project's own choice.
pub fn walk<V: View>(alloc: Global, view: &V, start: Start) -> Result<Walked, Memory>
    ensures { IfOk result (λ walked. spec.IsWalked (V.rows view.now)
        (V.builtins view.now) start walked) }
{
    match begin(alloc, view, &start)? {
        Begun::At(station) => follow(alloc, view, station),
        Begun::NoUse => Ok(Walked::NoSuchUse),
        Begun::NoneExposed(hop) => failed(alloc, hop, Why::NoExpose),
    }
}

/// The walk that fails at this hop.
fn failed(alloc: Global, hop: Hop, why: Why) -> Result<Walked, Memory>
    ensures { IfOk result (λ made. made ≡ walked.Failed hop why) }
{
    let hop = Shared::new(alloc, hop)?;
    Ok(Walked::Failed(hop, why))
}

/// The walk that ends at this hop, which leaves the capability out on purpose.
fn voided(alloc: Global, hop: Hop) -> Result<Walked, Memory>
    ensures { IfOk result (λ made. made ≡ walked.Void hop) }
{
    let hop = Shared::new(alloc, hop)?;
    Ok(Walked::Void(hop))
}

/// Where a walk begins: at the use, the expose or the offer that its start names, or that there is none.
/// `walk` asks it once, before its first hop.
fn begin<'a, V: View>(alloc: Global, view: &'a V, start: &Start) -> Result<Begun<'a>, Memory>
    ensures named { IfOk result (λ begun. as_named begun
        ≡ spec.named_by (V.rows view.now) start.now) }
    ensures orderly { IsOrderly (V.rows view.now) (V.next_inc view.now) }
{
    match start {
        Start::UseAt(inc, path) => begin_use(alloc, view, *inc, path),
        Start::ExposeAt(inc, name) => begin_expose(alloc, view, *inc, name),
        Start::OfferAt(inc, index) => begin_offer(alloc, view, *inc, *index),
    }
}

/// The use of that path.
fn begin_use<'a, V: View>(
    alloc: Global,
    view: &'a V,
    inc: u64,
    path: &CapPath,
) -> Result<Begun<'a>, Memory>
    ensures named { IfOk result (λ begun. as_named begun
        ≡ spec.named_by (V.rows view.now) (Start.UseAt inc path.now)) }
    ensures orderly { IsOrderly (V.rows view.now) (V.next_inc view.now) }
{
    let Some(decl) = view.decl(inc) else {
        return Ok(Begun::NoUse);
    };
    match used(view, decl, inc, path) {
        Some(usage) => {
            let moniker = moniker(alloc, view, inc)?;
            let station = use_station(view, inc, moniker, usage)?;
            Ok(Begun::At(station))
        }
        None => Ok(Begun::NoUse),
    }
}

/// The first use of that path by the instance, which has this declaration.
fn used<'a, V: View>(view: &V, decl: &'a Decl, inc: u64, path: &CapPath) -> Option<&'a Usage>
    requires { decl_of (V.rows view.now) inc ≡ Some decl.now }
    ensures { option_copied result ≡ find (λ u. bytes_eq u.path path.now) decl.now.uses }
{
    let index = view.use_at(inc, path)?;
    find::usage(decl, path, index)
}

/// The offer at that index.
fn begin_offer<'a, V: View>(
    alloc: Global,
    view: &'a V,
    inc: u64,
    index: u32,
) -> Result<Begun<'a>, Memory>
    ensures named { IfOk result (λ begun. as_named begun
        ≡ spec.named_by (V.rows view.now) (Start.OfferAt inc index)) }
    ensures orderly { IsOrderly (V.rows view.now) (V.next_inc view.now) }
{
    let Some(decl) = view.decl(inc) else {
        return Ok(Begun::NoUse);
    };
    match decl.offers.get(index as usize) {
        Some(offer) => {
            let moniker = moniker(alloc, view, inc)?;
            let station = offer_station(view, inc, moniker, &offer.give)?;
            Ok(Begun::At(station))
        }
        None => Ok(Begun::NoUse),
    }
}

/// The expose of that name. A missing one has the kind of a protocol.
fn begin_expose<'a, V: View>(
    alloc: Global,
    view: &'a V,
    inc: u64,
    name: &Name,
) -> Result<Begun<'a>, Memory>
    ensures named { IfOk result (λ begun. as_named begun
        ≡ spec.named_by (V.rows view.now) (Start.ExposeAt inc name.now)) }
    ensures orderly { IsOrderly (V.rows view.now) (V.next_inc view.now) }
{
    let found = match view.decl(inc) {
        Some(decl) => find::expose(decl, name),
        None => None,
    };
    let moniker = moniker(alloc, view, inc)?;
    match found {
        Some(give) => {
            let station = expose_station(view, inc, moniker, give)?;
            Ok(Begun::At(station))
        }
        None => {
            let hop = bare_hop(
                view,
                StepKind::ExposeHop,
                inc,
                moniker,
                Kind::Protocol,
                name,
            )?;
            Ok(Begun::NoneExposed(hop))
        }
    }
}

/// Walks from the station to what is decided.
fn follow<'a, V: View>(alloc: Global, view: &'a V, first: HopStation<'a>) -> Result<Walked, Memory>
    requires orderly { IsOrderly (V.rows view.now) (V.next_inc view.now) }
    requires down { KeepsDown (as_station first) }
    requires placed { IsHopPlaced (V.rows view.now) first.hop }
    ensures { IfOk result (λ walked. spec.IsRouteVerdict (V.rows view.now) (V.builtins view.now)
        (as_station first.entry) walked) }
{
    let mut trail = Trail::new(alloc, &first.hop)?;
    let mut here = first;
    'walk: loop {
        let next = next_of(alloc, view, &here)?;
        if let Some(why) = refusal(&trail, &here.hop, &next) {
            return failed(alloc, here.into_hop(), why);
        }
        match next {
            NextOnWalk::To(station) => {
                trail.push(here, &station.hop)?;
                here = station;
            }
            NextOnWalk::Ends(path) => return arrive(alloc, &mut trail, here, path),
            NextOnWalk::Needs(inc) => return Ok(Walked::Need(inc)),
            NextOnWalk::FromVoid => return voided(alloc, here.into_hop()),
            NextOnWalk::NoChild => return failed(alloc, here.into_hop(), Why::NoInstance),
            NextOnWalk::Misses(hop, why) => return failed(alloc, hop, why),
        }
    }
}

/// Why the walk ends at the hop, if it does by the hop itself or by a child that isn't there.
fn refusal(trail: &Trail, hop: &Hop, next: &NextOnWalk<'_>) -> Option<Why>
    ensures { (prefix : Seq Place) (s : Place) → s.hop ≡ hop.now → IsBehind prefix s trail.now
        → option_map (walked.Failed hop.now) result ≡ refused prefix s (as_next next.now) }
{
    if next.is_no_child() {
        return Some(Why::NoInstance);
    }
    trail.too_weak(hop)
}

/// Gives the route that ends at this station, which provides the capability at this path.
fn arrive<'a>(
    alloc: Global,
    trail: &mut Trail,
    here: HopStation<'a>,
    path: CapPath,
) -> Result<Walked, Memory>
    ensures { IfOk result (λ walked. (prefix : Seq Place) → IsBehind prefix (as_station here.entry) trail.old
        → path ≡ (as_station here.entry).path
        → Some walked ≡ spec.said_by prefix (as_station here.entry) to.Ends) }
{
    let route = trail.take_route(alloc, here.into_hop(), &path)?;
    let route = Shared::new(alloc, route)?;
    Ok(Walked::Given(route))
}
