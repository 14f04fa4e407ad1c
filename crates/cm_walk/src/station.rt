//! The stations of a route: its hops, each with the source that the declaration's row names.

ghost use Rattle.std.specs.Prelude.{◌≡◌, IfOk, Some};
ghost use Rattle.cm_decl.specs.Graph as graph;
ghost use Rattle.cm_world.specs.Rows.{moniker_of};
ghost use Rattle.cm_world.specs.Stations as spec;
ghost use Rattle.cm_walk.specs.Walking.{as_station};

use crate::hop::bare_hop;
use cm_decl::{Capability, Give, Kind, Origin, Usage};
use cm_names::{Availability, CapPath, Dependency, Memory, Moniker, Name, Rights, SubDir};
use cm_world::{Builtin, Hop, StepKind, View};
use std::alloc::Global;

/// A hop, with what leads on from it.
#[derive(Drop)]
pub(crate) struct HopStation<'a> {
    pub hop: Hop,
    pub source: StationSource<'a>,
}

impl<'a> HopStation<'a> {
    /// The hop alone.
    pub(crate) fn into_hop(self) -> Hop
        ensures { result ≡ self.entry.hop }
    {
        self.hop
    }
}

/// What leads on from a hop.
#[derive(Drop)]
pub(crate) enum StationSource<'a> {
    /// The row of a declaration: where it says that the capability comes from, the name there,
    /// and the part of the directory that it passes on, if it isn't the whole.
    Row(&'a Origin, &'a Name, &'a Option<SubDir>),
    /// Nothing: the hop is an end, which provides the capability at this path.
    End(CapPath),
}

/// The station of a use of the instance, which stands there.
pub(crate) fn use_station<'a, V: View>(
    view: &V,
    inc: u64,
    moniker: Moniker,
    usage: &'a Usage,
) -> Result<HopStation<'a>, Memory>
    requires { moniker ≡ moniker_of (V.rows view.now) inc }
    ensures { IfOk result (λ made. as_station made
        ≡ spec.use_station (V.rows view.now) inc usage.now) }
{
    let bare = bare_hop(
        view,
        StepKind::UseHop,
        inc,
        moniker,
        usage.kind,
        &usage.name,
    )?;
    let source = StationSource::Row(&usage.from, &usage.name, &usage.subdir);
    let strong = is_strong(usage.dependency);
    Ok(HopStation {
        hop: stating(bare, usage.rights, usage.availability, strong),
        source,
    })
}

/// The hop with what its row states.
fn stating(bare: Hop, rights: Option<Rights>, availability: Availability, strong: bool) -> Hop
    ensures { result ≡ record bare {
      rights = rights;
      availability = Some availability;
      strong = strong;
    } }
{
    let mut hop = bare;
    hop.rights = rights;
    hop.availability = Some(availability);
    hop.strong = strong;
    hop
}

/// Whether the dependency is strong.
fn is_strong(dependency: Dependency) -> bool
    ensures { result ≡ graph.is_strong dependency }
{
    match dependency {
        Dependency::Strong => true,
        Dependency::Weak => false,
    }
}

/// The station of what is given: its hop has its name at the target.
fn give_station<'a, V: View>(
    view: &V,
    step: StepKind,
    inc: u64,
    moniker: Moniker,
    give: &'a Give,
    strong: bool,
) -> Result<HopStation<'a>, Memory>
    requires { moniker ≡ moniker_of (V.rows view.now) inc }
    ensures { IfOk result (λ made. as_station made
        ≡ spec.give_station (V.rows view.now) step inc give.now strong) }
{
    let bare = bare_hop(view, step, inc, moniker, give.kind, &give.target_name)?;
    let source = StationSource::Row(&give.from, &give.source_name, &give.subdir);
    Ok(HopStation {
        hop: stating(bare, give.rights, give.availability, strong),
        source,
    })
}

/// The station of an offer of the instance.
pub(crate) fn offer_station<'a, V: View>(
    view: &V,
    inc: u64,
    moniker: Moniker,
    give: &'a Give,
) -> Result<HopStation<'a>, Memory>
    requires { moniker ≡ moniker_of (V.rows view.now) inc }
    ensures { IfOk result (λ made. as_station made
        ≡ spec.offer_station (V.rows view.now) inc give.now) }
{
    give_station(
        view,
        StepKind::OfferHop,
        inc,
        moniker,
        give,
        is_strong(give.dependency),
    )
}

/// The station of an expose of the instance, which counts as strong.
pub(crate) fn expose_station<'a, V: View>(
    view: &V,
    inc: u64,
    moniker: Moniker,
    give: &'a Give,
) -> Result<HopStation<'a>, Memory>
    requires { moniker ≡ moniker_of (V.rows view.now) inc }
    ensures { IfOk result (λ made. as_station made
        ≡ spec.expose_station (V.rows view.now) inc give.now) }
{
    give_station(view, StepKind::ExposeHop, inc, moniker, give, true)
}

/// The station of an end that states these rights and provides the capability at this path.
fn end_station<'a>(
    bare: Hop,
    rights: Option<Rights>,
    path: &'a CapPath,
) -> Result<HopStation<'a>, Memory>
    ensures { IfOk result (λ made. as_station made
        ≡ spec.end_station (record bare { rights = rights }) path.now) }
{
    let path = path.clone()?;
    let mut hop = bare;
    hop.rights = rights;
    Ok(HopStation {
        hop,
        source: StationSource::End(path),
    })
}

/// The station of a capability that the instance provides.
pub(crate) fn capability_station<'a, V: View>(
    view: &V,
    inc: u64,
    moniker: Moniker,
    capability: &'a Capability,
) -> Result<HopStation<'a>, Memory>
    requires { moniker ≡ moniker_of (V.rows view.now) inc }
    ensures { IfOk result (λ made. as_station made
        ≡ spec.capability_station (V.rows view.now) inc capability.now) }
{
    let step = StepKind::CapabilityHop;
    let bare = bare_hop(view, step, inc, moniker, capability.kind, &capability.name)?;
    end_station(bare, capability.rights, &capability.path)
}

/// The station of a capability that stands above the root.
pub(crate) fn builtin_station<'a, V: View>(
    view: &V,
    inc: u64,
    moniker: Moniker,
    builtin: &'a Builtin,
) -> Result<HopStation<'a>, Memory>
    requires { moniker ≡ moniker_of (V.rows view.now) inc }
    ensures { IfOk result (λ made. as_station made
        ≡ spec.builtin_station (V.rows view.now) inc builtin.now) }
{
    let step = StepKind::BuiltinHop;
    let bare = bare_hop(view, step, inc, moniker, builtin.kind, &builtin.name)?;
    end_station(bare, builtin.rights, &builtin.path)
}

/// The station of what the framework provides to the instance, at the path `/svc/` and its name.
pub(crate) fn framework_station<'a, V: View>(
    alloc: Global,
    view: &V,
    inc: u64,
    moniker: Moniker,
    kind: Kind,
    name: &'a Name,
) -> Result<HopStation<'a>, Memory>
    requires { moniker ≡ moniker_of (V.rows view.now) inc }
    ensures { IfOk result (λ made. as_station made
        ≡ spec.framework_station (V.rows view.now) inc kind name.now) }
{
    let hop = bare_hop(view, StepKind::FrameworkHop, inc, moniker, kind, name)?;
    let path = CapPath::service(alloc, name)?;
    Ok(HopStation {
        hop,
        source: StationSource::End(path),
    })
}
