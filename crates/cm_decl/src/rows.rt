//! The rows of a declaration.
//!
//! Each type is a row of one section of Fuchsia's component manifest reference (fuchsia.dev),
//! with every default filled in.

use crate::copies::{four, three, two};
use crate::{Kind, Origin};
use cm_names::{Availability, CapPath, Dependency, Name, Plain, Rights, SubDir, Text};
use std::alloc::AllocError;

/// A child that the manifest declares: a row of `children`.
#[derive(Debug, PartialEq, Eq)]
pub struct Child {
    /// Its name among the children and collections of this component.
    pub name: Name,
    /// Where its manifest is, as the manifest writes it: 1 to 4,096 bytes from 0x21 to 0x7E.
    pub url: Text,
    /// Whether it starts together with its parent (`startup`: `eager`), and not only when it
    /// is needed (`lazy`).
    pub eager: bool,
    /// The environment that it is given; `None` for that of its parent.
    pub environment: Option<Name>,
}

impl Drop for Child {
    /// Called where the value goes: gives back the memory of its parts.
    fn drop(self) {
        let Child {
            name: _,
            url: _,
            eager: _,
            environment: _,
        } = self;
    }
}

impl Clone for Child {
    ghost use Rattle.std.specs.Prelude.{◌≡◌};

    ghost is_clone = { λ a b. b ≡ a };

    /// A copy, which contracts see as the same value. `Err` comes where memory runs out.
    fn clone(&self) -> Result<Child, AllocError> {
        let (name, url, environment) = three(&self.name, &self.url, &self.environment)?;
        Ok(Child {
            name,
            url,
            eager: self.eager,
            environment,
        })
    }
}

impl Plain for Child {
    ghost exact = { λ a b same. same };
}

/// How long an instance in a collection stays: `durability` of a collection.
#[derive(Debug, Clone, Copy, PartialEq, Eq)]
pub enum Durability {
    /// Until it is destroyed, or its parent stops or is destroyed.
    Transient,
    /// Until it has run once, or until one of these comes before.
    SingleRun,
}

impl Plain for Durability {
    ghost use Rattle.std.proofs.Common.{rules};

    ghost exact = { Prim.search rules };
}

/// A place for children that are created while the component runs: a row of `collections`.
#[derive(Debug, PartialEq, Eq)]
pub struct Collection {
    /// Its name among the children and collections of this component.
    pub name: Name,
    /// How long its instances stay.
    pub durability: Durability,
    /// Whether a child may be created with offers of its own (`allowed_offers`:
    /// `static_and_dynamic`), and not with the declared ones alone (`static_only`).
    pub dynamic_offers: bool,
    /// The environment that its instances are given; `None` for that of their parent.
    pub environment: Option<Name>,
}

impl Drop for Collection {
    /// Called where the value goes: gives back the memory of its parts.
    fn drop(self) {
        let Collection {
            name: _,
            durability: _,
            dynamic_offers: _,
            environment: _,
        } = self;
    }
}

impl Clone for Collection {
    ghost use Rattle.std.specs.Prelude.{◌≡◌};

    ghost is_clone = { λ a b. b ≡ a };

    /// A copy, which contracts see as the same value. `Err` comes where memory runs out.
    fn clone(&self) -> Result<Collection, AllocError> {
        let (name, environment) = two(&self.name, &self.environment)?;
        Ok(Collection {
            name,
            durability: self.durability,
            dynamic_offers: self.dynamic_offers,
            environment,
        })
    }
}

impl Plain for Collection {
    ghost exact = { λ a b same. same };
}

/// A capability that the component itself provides: a row of `capabilities`.
#[derive(Debug, PartialEq, Eq)]
pub struct Capability {
    /// What it is.
    pub kind: Kind,
    /// Its name among the capabilities of this component.
    pub name: Name,
    /// Where it stands in the outgoing directory of the component.
    pub path: CapPath,
    /// The rights that a directory is provided with; `None` for a protocol.
    pub rights: Option<Rights>,
}

impl Drop for Capability {
    /// Called where the value goes: gives back the memory of its parts.
    fn drop(self) {
        let Capability {
            kind: _,
            name: _,
            path: _,
            rights: _,
        } = self;
    }
}

impl Clone for Capability {
    ghost use Rattle.std.specs.Prelude.{◌≡◌};

    ghost is_clone = { λ a b. b ≡ a };

    /// A copy, which contracts see as the same value. `Err` comes where memory runs out.
    fn clone(&self) -> Result<Capability, AllocError> {
        let (name, path) = two(&self.name, &self.path)?;
        Ok(Capability {
            kind: self.kind,
            name,
            path,
            rights: self.rights,
        })
    }
}

impl Plain for Capability {
    ghost exact = { λ a b same. same };
}

/// A capability that the component uses: a row of `use`. A valid declaration has none from `void`.
#[derive(Debug, PartialEq, Eq)]
pub struct Usage {
    /// What is used.
    pub kind: Kind,
    /// The name that the capability has at its source.
    pub name: Name,
    /// Where it comes from.
    pub from: Origin,
    /// Where it stands in the namespace of the component.
    pub path: CapPath,
    /// The rights that are asked for a directory; `None` for a protocol.
    pub rights: Option<Rights>,
    /// The part of the directory that is used, if it isn't the whole.
    pub subdir: Option<SubDir>,
    /// Whether the component stops before its source: with `Strong` it does.
    pub dependency: Dependency,
    /// How much the component needs it.
    pub availability: Availability,
}

impl Drop for Usage {
    /// Called where the value goes: gives back the memory of its parts.
    fn drop(self) {
        let Usage {
            kind: _,
            name: _,
            from: _,
            path: _,
            rights: _,
            subdir: _,
            dependency: _,
            availability: _,
        } = self;
    }
}

impl Clone for Usage {
    ghost use Rattle.std.specs.Prelude.{◌≡◌};

    ghost is_clone = { λ a b. b ≡ a };

    /// A copy, which contracts see as the same value. `Err` comes where memory runs out.
    fn clone(&self) -> Result<Usage, AllocError> {
        let (name, from, path, subdir) = four(&self.name, &self.from, &self.path, &self.subdir)?;
        Ok(Usage {
            kind: self.kind,
            name,
            from,
            path,
            rights: self.rights,
            subdir,
            dependency: self.dependency,
            availability: self.availability,
        })
    }
}

impl Plain for Usage {
    ghost exact = { λ a b same. same };
}

/// A capability that is passed on: what a row of `offer` and a row of `expose` have in common,
/// and what a child that is created is offered.
#[derive(Debug, PartialEq, Eq)]
pub struct Give {
    /// What is given.
    pub kind: Kind,
    /// The name that the capability has at its source.
    pub source_name: Name,
    /// Where it comes from. A valid declaration has no expose from `parent`.
    pub from: Origin,
    /// The name that the capability has at its target.
    pub target_name: Name,
    /// The most rights that are passed on of a directory; `None` where the row states none.
    pub rights: Option<Rights>,
    /// The part of the directory that is given, if it isn't the whole.
    pub subdir: Option<SubDir>,
    /// Whether the target stops before the source: with `Strong` it does. An expose that was read
    /// from a manifest has `Strong`.
    pub dependency: Dependency,
    /// How surely it is given.
    pub availability: Availability,
}

impl Drop for Give {
    /// Called where the value goes: gives back the memory of its parts.
    fn drop(self) {
        let Give {
            kind: _,
            source_name: _,
            from: _,
            target_name: _,
            rights: _,
            subdir: _,
            dependency: _,
            availability: _,
        } = self;
    }
}

impl Clone for Give {
    ghost use Rattle.std.specs.Prelude.{◌≡◌};

    ghost is_clone = { λ a b. b ≡ a };

    /// A copy, which contracts see as the same value. `Err` comes where memory runs out.
    fn clone(&self) -> Result<Give, AllocError> {
        let (source_name, from, target_name, subdir) = four(
            &self.source_name,
            &self.from,
            &self.target_name,
            &self.subdir,
        )?;
        Ok(Give {
            kind: self.kind,
            source_name,
            from,
            target_name,
            rights: self.rights,
            subdir,
            dependency: self.dependency,
            availability: self.availability,
        })
    }
}

impl Plain for Give {
    ghost exact = { λ a b same. same };
}

/// A capability that is passed on to a child or to all children in a collection: a row of
/// `offer`.
#[derive(Debug, Clone, PartialEq, Eq)]
pub struct Offer {
    /// The name of the child or the collection.
    pub to: Name,
    /// What is offered.
    pub give: Give,
}

impl Drop for Offer {
    /// Called where the value goes: gives back the memory of its parts.
    fn drop(self) {
        let Offer { to: _, give: _ } = self;
    }
}

impl Plain for Offer {
    ghost use Rattle.std.proofs.Common.{rules};

    ghost exact = { Prim.search rules };
}
