//! Routes, by which a capability comes from its provider to a client.
//!
//! The rules are those of "Capability routing" and of the pages on protocol and directory
//! capabilities of Fuchsia's component framework (fuchsia.dev).

use cm_decl::Kind;
use cm_names::{Availability, CapPath, List, Moniker, Name, Plain, Rights, Shared, Text};

/// What a hop of a route is.
#[derive(Clone, Copy, PartialEq, Eq)]
pub enum StepKind {
    /// A use of the client, written `use`.
    UseHop,
    /// An offer of a parent, written `offer`.
    OfferHop,
    /// An expose of a child, written `expose`.
    ExposeHop,
    /// A capability that an instance provides itself, written `capability`.
    CapabilityHop,
    /// A capability that the framework provides, written `framework`.
    FrameworkHop,
    /// A capability that stands above the root, written `builtin`.
    BuiltinHop,
}

impl Plain for StepKind {
    ghost use Rattle.std.proofs.Common.{rules};

    ghost exact = { Prim.search rules };
}

/// A hop of a route: one row of one declaration, or what stands in the place of one.
#[derive(Clone)]
pub struct Hop {
    /// What it is.
    pub step: StepKind,
    /// The instance whose declaration has the row.
    pub inc: u64,
    /// Where that instance stands.
    pub moniker: Moniker,
    /// The kind of the capability.
    pub kind: Kind,
    /// The name of the capability at this hop: of an offer or an expose the name at its target.
    pub name: Name,
    /// The rights that the row states, if it states some.
    pub rights: Option<Rights>,
    /// The availability that a use, an offer or an expose states.
    pub availability: Option<Availability>,
    /// Whether the target stops before the source; only a use and an offer may be weak.
    pub strong: bool,
}

impl Drop for Hop {
    /// Called where the value goes: gives back the memory of its parts.
    fn drop(self) {
        let Hop {
            step: _,
            inc: _,
            moniker: _,
            kind: _,
            name: _,
            rights: _,
            availability: _,
            strong: _,
        } = self;
    }
}

impl Plain for Hop {
    ghost use Rattle.std.proofs.Common.{rules};

    ghost exact = { Prim.search rules };
}

/// Who provides the capability at the end of a route.
#[derive(Clone)]
pub enum Provider {
    /// An instance: its incarnation, and where it stands.
    Instance(u64, Moniker),
    /// The component framework itself.
    Framework,
    /// What stands above the root.
    Builtin,
}

impl Drop for Provider {
    /// Called where the value goes: gives back the memory of its parts.
    fn drop(self) {
        match self {
            Provider::Instance(_, _) => {}
            Provider::Framework | Provider::Builtin => {}
        }
    }
}

impl Plain for Provider {
    ghost use Rattle.std.proofs.Common.{rules};

    ghost exact = { Prim.search rules };
}

/// A whole route, from the client to the provider.
#[derive(Clone)]
pub struct Route {
    /// Its hops, from the use, the expose or the offer that it begins with to the provider's.
    pub hops: List<Hop>,
    /// Where the capability stands at its provider: the provider's path with the subdirectories
    /// of the hops after it, in the order from the provider to the client.
    pub path: Text,
    /// The rights that a directory is opened with; `None` for a protocol.
    pub rights: Option<Rights>,
    /// Who provides it.
    pub provider: Provider,
}

impl Drop for Route {
    /// Called where the value goes: gives back the memory of its parts.
    fn drop(self) {
        let Route {
            hops: _,
            path: _,
            rights: _,
            provider: _,
        } = self;
    }
}

impl Plain for Route {
    ghost use Rattle.std.proofs.Common.{rules};

    ghost exact = { Prim.search rules };
}

/// Why there is no route.
#[derive(Clone, Copy)]
pub enum Why {
    /// The parent offers no such capability.
    NoOffer,
    /// The child exposes no such capability.
    NoExpose,
    /// There is no child of that name.
    NoInstance,
    /// No such capability stands above the root.
    NoBuiltin,
    /// This availability stands at the hop before, and at this hop a weaker one.
    AvailabilityTooWeak(Availability, Availability),
    /// These rights are asked, and this hop states others only.
    RightsTooWeak(Rights, Rights),
}

impl Plain for Why {
    ghost use Rattle.std.proofs.Common.{rules};

    ghost exact = { Prim.search rules };
}

/// Where a route begins.
pub enum Start {
    /// At the use of an instance that has this path.
    UseAt(u64, CapPath),
    /// At the expose of an instance that has this name at its target.
    ExposeAt(u64, Name),
    /// At the offer of an instance that stands at this index in its declaration.
    OfferAt(u64, u32),
}

impl Drop for Start {
    /// Called where the value goes: gives back the memory of its parts.
    fn drop(self) {
        match self {
            Start::UseAt(_, _) => {}
            Start::ExposeAt(_, _) => {}
            Start::OfferAt(_, _) => {}
        }
    }
}

/// What a walk along a route comes to.
#[derive(Drop, Clone)]
pub enum Walked {
    /// The capability is given by this route.
    Given(Shared<Route>),
    /// There is no route: the first hop that fails, and why.
    Failed(Shared<Hop>, Why),
    /// The walk needs the declaration of this instance, which isn't resolved.
    Need(u64),
    /// The capability is left out on purpose, by this hop.
    Void(Shared<Hop>),
    /// The instance has no use of that path, or no offer at that index.
    NoSuchUse,
}

impl Plain for Walked {
    ghost use Rattle.std.proofs.Common.{rules};

    ghost exact = { Prim.search rules };
}
