//! Declarations.

use crate::copies::four;
use crate::{
    Capability, Child, Collection, DebugUse, Environment, Give, Offer, Storage, StorageOffer,
    StorageUse, Usage,
};
use cm_names::{List, Name, Plain};
use std::alloc::AllocError;

/// What a component manifest declares.
///
/// Each list stands in the order of the manifest, with one row for each name and, among the
/// offers, for each name and target: for the first name all targets, then for the next.
///
/// This is the component declaration of Fuchsia's component framework documentation
/// (fuchsia.dev), with the sections that this project serves.
#[derive(Debug, PartialEq, Eq)]
pub struct Decl {
    /// The runner of the component's program, if it has a program.
    pub runner: Option<Name>,
    /// The children that are always there.
    pub children: List<Child>,
    /// The collections that children can be created in.
    pub collections: List<Collection>,
    /// The capabilities that the component itself provides.
    pub capabilities: List<Capability>,
    /// The capabilities that it uses.
    pub uses: List<Usage>,
    /// What it passes on to its children and collections.
    pub offers: List<Offer>,
    /// What it passes on to its parent.
    pub exposes: List<Give>,
    /// The environments that children and collections are given.
    pub environments: List<Environment>,
    /// The protocols that it uses from its own environment.
    pub debug_uses: List<DebugUse>,
    /// The storages that it provides.
    pub storages: List<Storage>,
    /// The storages that it uses.
    pub storage_uses: List<StorageUse>,
    /// The storages that it passes on to its children and collections.
    pub storage_offers: List<StorageOffer>,
}

impl Drop for Decl {
    /// Called where the value goes: gives back the memory of its parts.
    fn drop(self) {
        let Decl {
            runner: _,
            children: _,
            collections: _,
            capabilities: _,
            uses: _,
            offers: _,
            exposes: _,
            environments: _,
            debug_uses: _,
            storages: _,
            storage_uses: _,
            storage_offers: _,
        } = self;
    }
}

impl Clone for Decl {
    ghost use Rattle.std.specs.Prelude.{◌≡◌};

    ghost is_clone = { λ a b. b ≡ a };

    /// A copy, which contracts see as the same value. `Err` comes where memory runs out.
    fn clone(&self) -> Result<Decl, AllocError> {
        let parts = four(
            &self.runner,
            &self.children,
            &self.collections,
            &self.capabilities,
        )?;
        let routes = four(&self.uses, &self.offers, &self.exposes, &self.environments)?;
        let (debug_uses, storages, storage_uses, storage_offers) = four(
            &self.debug_uses,
            &self.storages,
            &self.storage_uses,
            &self.storage_offers,
        )?;
        let (runner, children, collections, capabilities) = parts;
        let (uses, offers, exposes, environments) = routes;
        Ok(Decl {
            runner,
            children,
            collections,
            capabilities,
            uses,
            offers,
            exposes,
            environments,
            debug_uses,
            storages,
            storage_uses,
            storage_offers,
        })
    }
}

impl Plain for Decl {
    ghost exact = { λ a b same. same };
}
