//! Storage: a place of its own for each instance that uses it.

use crate::Origin;
use crate::copies::four;
use cm_names::{CapPath, Name, Plain, SubDir};
use std::alloc::AllocError;

/// A storage that the component provides from a directory: a row of `capabilities`.
#[derive(Debug, PartialEq, Eq)]
pub struct Storage {
    /// Its name among the storages of this component.
    pub name: Name,
    /// Where its directory comes from. A valid declaration has `parent`, `self` and children in no
    /// collection alone; whether such a child is declared isn't judged.
    pub from: Origin,
    /// The name that the directory has at its source (`backing_dir`).
    pub backing: Name,
    /// The part of the directory that is used, if it isn't the whole.
    pub subdir: Option<SubDir>,
    /// Whether an instance without an id gets a place by its moniker (`storage_id`:
    /// `static_instance_id_or_moniker`), and not none (`static_instance_id`).
    pub by_moniker: bool,
}

impl Drop for Storage {
    /// Called where the value goes: gives back the memory of its parts.
    fn drop(self) {
        let Storage {
            name: _,
            from: _,
            backing: _,
            subdir: _,
            by_moniker: _,
        } = self;
    }
}

impl Clone for Storage {
    ghost use Rattle.std.specs.Prelude.{◌≡◌};

    ghost is_clone = { λ a b. b ≡ a };

    /// A copy, which contracts see as the same value. `Err` comes where memory runs out.
    fn clone(&self) -> Result<Storage, AllocError> {
        let (name, from, backing, subdir) = four(
            &self.name,
            &self.from,
            &self.backing,
            &self.subdir,
        )?;
        Ok(Storage {
            name,
            from,
            backing,
            subdir,
            by_moniker: self.by_moniker,
        })
    }
}

impl Plain for Storage {
    ghost exact = { λ a b same. same };
}

/// A storage that the component uses, always from its parent: a row of `use`.
#[derive(Debug, Clone, PartialEq, Eq)]
pub struct StorageUse {
    /// The name that the storage has at its source.
    pub name: Name,
    /// Where it stands in the namespace of the component.
    pub path: CapPath,
}

impl Drop for StorageUse {
    /// Called where the value goes: gives back the memory of its parts.
    fn drop(self) {
        let StorageUse { name: _, path: _ } = self;
    }
}

impl Plain for StorageUse {
    ghost use Rattle.std.proofs.Common.{rules};

    ghost exact = { Prim.search rules };
}

/// A storage that is passed on to a child or to all children in a collection: a row of `offer`.
#[derive(Debug, PartialEq, Eq)]
pub struct StorageOffer {
    /// The name of the child or the collection.
    pub to: Name,
    /// The name that the storage has at its source.
    pub source_name: Name,
    /// Where it comes from. A valid declaration has `parent`, `self` and `void` alone.
    pub from: Origin,
    /// The name that the storage has at its target.
    pub target_name: Name,
}

impl Drop for StorageOffer {
    /// Called where the value goes: gives back the memory of its parts.
    fn drop(self) {
        let StorageOffer {
            to: _,
            source_name: _,
            from: _,
            target_name: _,
        } = self;
    }
}

impl Clone for StorageOffer {
    ghost use Rattle.std.specs.Prelude.{◌≡◌};

    ghost is_clone = { λ a b. b ≡ a };

    /// A copy, which contracts see as the same value. `Err` comes where memory runs out.
    fn clone(&self) -> Result<StorageOffer, AllocError> {
        let (to, source_name, from, target_name) = four(
            &self.to,
            &self.source_name,
            &self.from,
            &self.target_name,
        )?;
        Ok(StorageOffer {
            to,
            source_name,
            from,
            target_name,
        })
    }
}

impl Plain for StorageOffer {
    ghost exact = { λ a b same. same };
}
