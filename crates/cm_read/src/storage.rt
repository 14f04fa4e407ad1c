//! Storages in `capabilities`, `use` and `offer`.

ghost use Rattle.cm_plain.specs.JsonTree.{view};
ghost use Rattle.cm_read.specs.Items as spec;
ghost use Rattle.cm_read.specs.ReadingInside.{GivesReading};

use crate::both::both;
use crate::fault::{ItemPlace, ReadFault};
use crate::fields::{name_of, names_of, needed, path_of, subdir_of};
use crate::rows::{CapabilityRow, UseRow, one_row};
use crate::words::{availability_of, static_from_of, storage_id_of, storage_use_from_of};
use cm_decl::{Storage, StorageUse};
use cm_names::{List, Name};
use cm_plain::JsonTree;
use std::alloc::Global;

/// The row of a storage that is provided.
pub fn storage_capability(
    alloc: Global,
    at: ItemPlace,
    item: &JsonTree<'_>,
) -> Result<List<CapabilityRow>, ReadFault>
    ensures { GivesReading result (spec.storage_at at (view item.now)) }
{
    let read = both(
        both(
            name_of(alloc, at, item, "storage"),
            static_from_of(alloc, at, item),
        ),
        both(
            name_of(alloc, at, item, "backing_dir"),
            both(
                subdir_of(alloc, at, item, "subdir"),
                storage_id_of(alloc, at, item),
            ),
        ),
    )?;
    let ((name, from), (backing, (subdir, by_moniker))) = read;
    let row = CapabilityRow::Storage(Storage {
        name,
        from,
        backing,
        subdir,
        by_moniker,
    });
    one_row(alloc, row)
}

/// The row of a storage that is used; its availability isn't kept.
#[tactic(auto, unfolding(crate::specs::Items::storage_use_at, crate::specs::Items::storage_name_at))]
pub fn storage_use(
    alloc: Global,
    at: ItemPlace,
    item: &JsonTree<'_>,
) -> Result<List<UseRow>, ReadFault>
    ensures { GivesReading result (spec.storage_use_at at (view item.now)) }
{
    let read = both(
        both(
            name_of(alloc, at, item, "storage"),
            storage_use_from_of(alloc, at, item),
        ),
        both(
            path_of(alloc, at, item, "path"),
            availability_of(alloc, at, item),
        ),
    )?;
    let ((name, ()), (path, _)) = read;
    one_row(alloc, UseRow::Storage(StorageUse { name, path }))
}

/// The names of storages that are offered, one or more.
#[tactic(auto, unfolding(crate::specs::Items::storage_names_at))]
pub fn storage_names_of(
    alloc: Global,
    at: ItemPlace,
    item: &JsonTree<'_>,
) -> Result<List<Name>, ReadFault>
    ensures { GivesReading result (spec.storage_names_at at (view item.now)) }
{
    let value = needed(alloc, at, item, "storage")?;
    names_of(alloc, at, value, "storage")
}
