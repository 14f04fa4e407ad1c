//! What a walk keeps of the hops that it has passed, and how it judges the next one.

ghost use Rattle.std.specs.Prelude.{◌≡◌, ◌++◌, ◌∷◌, [], List as Seq, IfOk, OnOk, None, reverse};
ghost use Rattle.std.specs.Prelude.{option_map, option_to_list, if◌then◌else◌};
ghost use Rattle.cm_decl.specs.Clashes.{or_else};
ghost use Rattle.cm_world.specs.declared.route.Hop.{Hop as OneHop};
ghost use Rattle.cm_world.specs.declared.route.Walked.TheVariants as walked;
ghost use Rattle.cm_world.specs.Route as spec;
ghost use Rattle.cm_world.specs.Stations.{Station as Place};
ghost use Rattle.cm_walk.specs.Walking.{as_station, subdir_of, path_at as whole_path, standing_by, IsBehind};

use crate::station::{HopStation, StationSource};
use cm_names::{Availability, CapPath, List, Memory, Rights, SubDir, Text};
use cm_world::{Hop, Provider, Route, StepKind, Why};
use std::alloc::Global;
use std::mem;

/// For so many hops a trail has room at first: those of a use, of an offer and of the capability.
const FIRST_ROOM: usize = 3;

/// What is kept of the stations before the one that is tried.
#[derive(Drop)]
pub(crate) struct Trail {
    /// Their hops, from the start on.
    hops: List<Hop>,
    /// The subdirectories that they state, in the same order.
    subdirs: List<SubDir>,
    /// The availability that stands at the last of them.
    availability: Option<Availability>,
    /// Whether the route begins at a use: then only that use asks for rights.
    from_use: bool,
    /// The rights that are asked, those that the tried station states counted.
    asked: Option<Rights>,
}

impl Trail {
    /// The trail before the first station, which has this hop. It has room for the hops of a route
    /// that leads up to the root, where that isn't too deep. `Err` where memory runs out.
    pub(crate) fn new(alloc: Global, first: &Hop) -> Result<Trail, Memory>
        ensures { IfOk result (λ made. (s : Place) → s.hop ≡ first.now → IsBehind [] s made) }
    {
        Ok(Trail {
            hops: List::with_capacity(alloc, FIRST_ROOM)?,
            subdirs: List::new(alloc),
            availability: None,
            from_use: first.step == StepKind::UseHop,
            asked: first.rights,
        })
    }

    /// Why the hop is too weak, if it is: in its availability, else in its rights.
    pub(crate) fn too_weak(&self, hop: &Hop) -> Option<Why>
        ensures { (prefix : Seq Place) (s : Place) → s.hop ≡ hop.now → IsBehind prefix s self.now
            → option_map (walked.Failed hop.now) result ≡ or_else (spec.weak_availability prefix s)
            (spec.weak_rights prefix s) }
    {
        match self.too_unsure(hop) {
            Some(why) => Some(why),
            None => self.too_narrow(hop),
        }
    }

    /// Whether more availability stands at the hop before than at this offer or expose.
    fn too_unsure(&self, hop: &Hop) -> Option<Why>
        ensures { option_map (walked.Failed hop.now) result ≡
            (if spec.is_offer_or_expose hop.now.step
            then spec.unless_fitting hop.now self.now.availability
            (standing_by self.now.availability hop.now.availability) else None) }
    {
        match hop.step {
            StepKind::OfferHop | StepKind::ExposeHop => unfitting(
                self.availability,
                standing_then(self.availability, hop.availability),
            ),
            _ => None,
        }
    }

    /// Whether more rights are asked than the hop states.
    fn too_narrow(&self, hop: &Hop) -> Option<Why>
        ensures { option_map (walked.Failed hop.now) result
            ≡ spec.unless_within hop.now self.now.asked hop.now.rights }
    {
        match (self.asked, hop.rights) {
            (Some(asked), Some(stated)) => {
                if stated.contains(asked) {
                    None
                } else {
                    Some(Why::RightsTooWeak(asked, stated))
                }
            }
            _ => None,
        }
    }

    /// Puts this station at the end, before the next one, which has this hop. `Err` where memory
    /// runs out.
    pub(crate) fn push(&mut self, here: HopStation<'_>, next: &Hop) -> Result<(), Memory>
        ensures { OnOk result ((prefix : Seq Place) (t : Place)
            → IsBehind prefix (as_station here.entry) self.old → t.hop ≡ next.now
            → IsBehind (prefix ++ as_station here.entry ∷ []) t self.new) }
    {
        self.asked = asked_then(self.from_use, self.asked, next.rights);
        self.availability = standing_then(self.availability, here.hop.availability);
        push_subdir(&mut self.subdirs, &here.source)?;
        self.hops.push(here.into_hop())?;
        Ok(())
    }

    /// Takes out the route that ends at this hop, where the capability is provided at this path.
    pub(crate) fn take_route(
        &mut self,
        alloc: Global,
        hop: Hop,
        path: &CapPath,
    ) -> Result<Route, Memory>
        ensures { IfOk result (λ made. (prefix : Seq Place) (s : Place) → IsBehind prefix s self.old
            → s.hop
            ≡ hop → s.path ≡ path.now → made ≡ spec.route_of prefix s) }
    {
        let rights = self.asked;
        let provider = provider(&hop)?;
        let subdirs = mem::replace(&mut self.subdirs, List::new(alloc));
        let path = path_at(alloc, hop.step, path, subdirs)?;
        let mut hops = mem::replace(&mut self.hops, List::new(alloc));
        hops.push(hop)?;
        Ok(Route {
            hops,
            path,
            rights,
            provider,
        })
    }
}

/// The availability that stands at a hop which states this one, after a hop where that one stands.
fn standing_then(before: Option<Availability>, stated: Option<Availability>) -> Option<Availability>
    ensures { result ≡ standing_by before stated }
{
    let Some(availability) = stated else {
        return before;
    };
    match availability.stated_itself() {
        Some(own) => Some(own),
        None => before,
    }
}

/// Why what is given isn't enough for what is asked, if it isn't.
fn unfitting(asked: Option<Availability>, given: Option<Availability>) -> Option<Why>
    ensures { (hop : OneHop) → option_map (walked.Failed hop) result
        ≡ spec.unless_fitting hop asked given }
{
    match (asked, given) {
        (Some(asked), Some(given)) => {
            if Availability::fits(asked, given) {
                None
            } else {
                Some(Why::AvailabilityTooWeak(asked, given))
            }
        }
        _ => None,
    }
}

/// The rights that are asked, once the next station states these.
fn asked_then(from_use: bool, asked: Option<Rights>, stated: Option<Rights>) -> Option<Rights>
    ensures { result ≡ (if from_use then asked else or_else asked stated) }
{
    if from_use {
        return asked;
    }
    match asked {
        Some(rights) => Some(rights),
        None => stated,
    }
}

/// Puts the subdirectory that the station's row states at the end, if there is one.
fn push_subdir(subdirs: &mut List<SubDir>, source: &StationSource<'_>) -> Result<(), Memory>
    ensures { OnOk result (subdirs.new ≡ subdirs.old ++ option_to_list (subdir_of source.now)) }
{
    match source {
        StationSource::Row(_from, _name, Some(subdir)) => {
            subdirs.push(subdir.clone()?)?;
            Ok(())
        }
        _ => Ok(()),
    }
}

/// Who provides the capability at an end.
fn provider(hop: &Hop) -> Result<Provider, Memory>
    ensures { IfOk result (λ made. made ≡ spec.provider_of hop.now) }
{
    match hop.step {
        StepKind::CapabilityHop => {
            let moniker = hop.moniker.clone()?;
            Ok(Provider::Instance(hop.inc, moniker))
        }
        StepKind::BuiltinHop => Ok(Provider::Builtin),
        _ => Ok(Provider::Framework),
    }
}

/// Where the capability stands at its provider: the end's path with the subdirectories after it,
/// the last one first. What the framework provides has its path alone.
fn path_at(
    alloc: Global,
    end: StepKind,
    path: &CapPath,
    subdirs: List<SubDir>,
) -> Result<Text, Memory>
    ensures { IfOk result (λ text. text ≡ whole_path end path.now (reverse subdirs)) }
{
    if end == StepKind::FrameworkHop {
        return Text::from_str(alloc, path.as_str());
    }
    let mut subdirs = subdirs.into_vec();
    subdirs.reverse();
    path.join(alloc, subdirs.as_slice())
}
