//! The items of `children`, `collections`, `capabilities` and `use`.

ghost use Rattle.std.specs.Prelude.{◌≡◌};
ghost use Rattle.cm_plain.specs.JsonTree.{view};
ghost use Rattle.cm_read.specs.Items as spec;
ghost use Rattle.cm_read.specs.ReadingInside.{GivesReading};

use crate::both::both;
use crate::fault::{ItemPlace, ReadFault, fault};
use crate::fields::{
    name_of, names_of, needed, object_of, path_in, path_of, rights_of, subdir_of, url_of,
};
use crate::known::{Object, check_keys};
use crate::number::{KIND_COUNT, NOT_WITH_MANY};
use crate::rows::{CapabilityRow, Sort, UseRow, one_row, protocol_rows, uses_from};
use crate::sections::SectionItem;
use crate::storage::{storage_capability, storage_use};
use crate::words::{
    allowed_offers_of, availability_of, dependency_of, durability_of, environment_of, startup_of,
    use_from_of, use_source_of,
};
use cm_decl::{Capability, Child, Collection, Kind, Usage};
use cm_names::{CapPath, List, Name};
use cm_plain::JsonTree;
use cm_write::word_of;
use std::alloc::Global;

/// The row of an item of `children`, whose fields are known.
#[tactic(auto, unfolding(crate::specs::Items::child_row_at))]
fn child_row(alloc: Global, at: ItemPlace, item: &JsonTree<'_>) -> Result<List<Child>, ReadFault>
    ensures { GivesReading result (spec.child_row_at at (view item.now)) }
{
    let read = both(
        both(
            name_of(alloc, at, item, "name"),
            url_of(alloc, at, item, "url"),
        ),
        both(startup_of(alloc, at, item), environment_of(alloc, at, item)),
    )?;
    let ((name, url), (eager, environment)) = read;
    let row = Child {
        name,
        url,
        eager,
        environment,
    };
    one_row(alloc, row)
}

impl SectionItem for Child {
    ghost use Rattle.cm_read.specs.Items.{child_at};

    ghost reads = { λ _. child_at };

    /// An item of `children` gives one row.
    #[tactic(auto, unfolding(crate::specs::Items::child_at))]
    fn read(
        alloc: Global,
        at: ItemPlace,
        _children: &[Child],
        item: &JsonTree<'_>,
    ) -> Result<List<Child>, ReadFault> {
        let members = object_of(alloc, at, item)?;
        check_keys(alloc, at, Object::Child, members)?;
        child_row(alloc, at, item)
    }
}

/// The row of an item of `collections`, whose fields are known.
#[tactic(auto, unfolding(crate::specs::Items::collection_row_at))]
fn collection_row(
    alloc: Global,
    at: ItemPlace,
    item: &JsonTree<'_>,
) -> Result<List<Collection>, ReadFault>
    ensures { GivesReading result (spec.collection_row_at at (view item.now)) }
{
    let read = both(
        both(
            name_of(alloc, at, item, "name"),
            durability_of(alloc, at, item),
        ),
        both(
            allowed_offers_of(alloc, at, item),
            environment_of(alloc, at, item),
        ),
    )?;
    let ((name, durability), (dynamic_offers, environment)) = read;
    let row = Collection {
        name,
        durability,
        dynamic_offers,
        environment,
    };
    one_row(alloc, row)
}

impl SectionItem for Collection {
    ghost use Rattle.cm_read.specs.Items.{collection_at};

    ghost reads = { λ _. collection_at };

    /// An item of `collections` gives one row.
    #[tactic(auto, unfolding(crate::specs::Items::collection_at))]
    fn read(
        alloc: Global,
        at: ItemPlace,
        _children: &[Child],
        item: &JsonTree<'_>,
    ) -> Result<List<Collection>, ReadFault> {
        let members = object_of(alloc, at, item)?;
        check_keys(alloc, at, Object::Collection, members)?;
        collection_row(alloc, at, item)
    }
}

/// What an item of a manifest is about: a protocol, a directory or a storage, by the one field of these
/// three that it has.
#[tactic(auto, unfolding(crate::specs::Items::sort_at))]
pub fn sort_of(alloc: Global, at: ItemPlace, item: &JsonTree<'_>) -> Result<Sort, ReadFault>
    ensures { GivesReading result (spec.sort_at at (view item.now)) }
{
    match (
        item.get("protocol"),
        item.get("directory"),
        item.get("storage"),
    ) {
        (Some(_), None, None) => Ok(Sort::Routed(Kind::Protocol)),
        (None, Some(_), None) => Ok(Sort::Routed(Kind::Directory)),
        (None, None, Some(_)) => Ok(Sort::Storage),
        _ => Err(fault(alloc, at, KIND_COUNT, "")),
    }
}

/// The kind of an item with exactly one of the two fields.
#[tactic(auto, unfolding(crate::specs::Items::kind_at))]
pub fn kind_of(alloc: Global, at: ItemPlace, item: &JsonTree<'_>) -> Result<Kind, ReadFault>
    ensures { GivesReading result (spec.kind_at at (view item.now)) }
{
    match (item.get("protocol"), item.get("directory")) {
        (Some(_), None) => Ok(Kind::Protocol),
        (None, Some(_)) => Ok(Kind::Directory),
        _ => Err(fault(alloc, at, KIND_COUNT, "")),
    }
}

/// The name of a directory that is provided or used.
#[tactic(auto, unfolding(crate::specs::Items::directory_name_at))]
fn directory_name_of(alloc: Global, at: ItemPlace, item: &JsonTree<'_>) -> Result<Name, ReadFault>
    ensures { GivesReading result (spec.directory_name_at at (view item.now)) }
{
    name_of(alloc, at, item, "directory")
}

/// The names of an item of that kind, one or more.
#[tactic(auto, unfolding(crate::specs::Items::item_names_at))]
pub fn item_names_of(
    alloc: Global,
    kind: Kind,
    at: ItemPlace,
    item: &JsonTree<'_>,
) -> Result<List<Name>, ReadFault>
    ensures { GivesReading result (spec.item_names_at kind at (view item.now)) }
{
    let value = needed(alloc, at, item, word_of(kind))?;
    names_of(alloc, at, value, word_of(kind))
}

/// The path that a value beside a protocol's names is.
#[tactic(auto, unfolding(crate::specs::Items::protocol_path_in_at))]
fn protocol_path_in(
    alloc: Global,
    at: ItemPlace,
    names: &[Name],
    value: &JsonTree<'_>,
) -> Result<CapPath, ReadFault>
    ensures { GivesReading result (spec.protocol_path_in_at at names.now (view value.now)) }
{
    let path = path_in(alloc, at, value, "path")?;
    if names.len() > 1 {
        return Err(fault(alloc, at, NOT_WITH_MANY, "path"));
    }
    Ok(path)
}

/// `path` beside a protocol's names, which may be missing.
#[tactic(auto, unfolding(crate::specs::Items::protocol_path_at))]
fn protocol_path_of(
    alloc: Global,
    at: ItemPlace,
    names: &[Name],
    item: &JsonTree<'_>,
) -> Result<Option<CapPath>, ReadFault>
    ensures { GivesReading result (spec.protocol_path_at at names.now (view item.now)) }
{
    let Some(value) = item.get("path") else {
        return Ok(None);
    };
    let path = protocol_path_in(alloc, at, names, value)?;
    Ok(Some(path))
}

/// The rows of a protocol that is provided, one for each name.
#[tactic(auto, unfolding(crate::specs::Items::protocol_capability_at))]
fn protocol_capability(
    alloc: Global,
    at: ItemPlace,
    item: &JsonTree<'_>,
) -> Result<List<CapabilityRow>, ReadFault>
    ensures { GivesReading result (spec.protocol_capability_at at (view item.now)) }
{
    let names = item_names_of(alloc, Kind::Protocol, at, item)?;
    let path = protocol_path_of(alloc, at, names.as_slice(), item)?;
    Ok(protocol_rows(alloc, &path, names.as_slice())?)
}

/// The row of a directory that is provided.
#[tactic(auto, unfolding(crate::specs::Items::directory_capability_at))]
fn directory_capability(
    alloc: Global,
    at: ItemPlace,
    item: &JsonTree<'_>,
) -> Result<List<CapabilityRow>, ReadFault>
    ensures { GivesReading result (spec.directory_capability_at at (view item.now)) }
{
    let read = both(
        both(
            directory_name_of(alloc, at, item),
            path_of(alloc, at, item, "path"),
        ),
        rights_of(alloc, at, item, "rights"),
    )?;
    let ((name, path), rights) = read;
    let row = CapabilityRow::Capability(Capability {
        kind: Kind::Directory,
        name,
        path,
        rights: Some(rights),
    });
    one_row(alloc, row)
}

impl SectionItem for CapabilityRow {
    ghost use Rattle.cm_read.specs.Items.{capability_at};

    ghost reads = { λ _. capability_at };

    /// An item of `capabilities` gives a row for each name: a protocol, a directory or a storage.
    #[tactic(auto, unfolding(crate::specs::Items::capability_at))]
    fn read(
        alloc: Global,
        at: ItemPlace,
        _children: &[Child],
        item: &JsonTree<'_>,
    ) -> Result<List<CapabilityRow>, ReadFault> {
        let members = object_of(alloc, at, item)?;
        let sort = sort_of(alloc, at, item)?;
        check_keys(alloc, at, Object::Capability(sort), members)?;
        match sort {
            Sort::Routed(Kind::Protocol) => protocol_capability(alloc, at, item),
            Sort::Routed(Kind::Directory) => directory_capability(alloc, at, item),
            Sort::Storage => storage_capability(alloc, at, item),
        }
    }
}

/// The rows of protocols with these names that are used, one for each.
#[tactic(auto, unfolding(crate::specs::Items::protocols_used_at))]
fn protocols_used(
    alloc: Global,
    at: ItemPlace,
    names: &[Name],
    item: &JsonTree<'_>,
) -> Result<List<UseRow>, ReadFault>
    ensures { GivesReading result (spec.protocols_used_at at names.now (view item.now)) }
{
    let read = both(
        both(
            use_source_of(alloc, at, item),
            protocol_path_of(alloc, at, names, item),
        ),
        both(
            dependency_of(alloc, at, item),
            availability_of(alloc, at, item),
        ),
    )?;
    let ((from, path), (dependency, availability)) = read;
    Ok(uses_from(alloc, from, path, dependency, availability, names)?)
}

/// The rows of a protocol that is used, one for each name.
#[tactic(auto, unfolding(crate::specs::Items::protocol_use_at))]
fn protocol_use(
    alloc: Global,
    at: ItemPlace,
    item: &JsonTree<'_>,
) -> Result<List<UseRow>, ReadFault>
    ensures { GivesReading result (spec.protocol_use_at at (view item.now)) }
{
    let names = item_names_of(alloc, Kind::Protocol, at, item)?;
    protocols_used(alloc, at, names.as_slice(), item)
}

/// The row of a directory that is used.
#[tactic(auto, unfolding(crate::specs::Items::directory_use_at))]
fn directory_use(
    alloc: Global,
    at: ItemPlace,
    item: &JsonTree<'_>,
) -> Result<List<UseRow>, ReadFault>
    ensures { GivesReading result (spec.directory_use_at at (view item.now)) }
{
    let read = both(
        both(
            both(
                directory_name_of(alloc, at, item),
                use_from_of(alloc, at, item),
            ),
            both(
                path_of(alloc, at, item, "path"),
                rights_of(alloc, at, item, "rights"),
            ),
        ),
        both(
            subdir_of(alloc, at, item, "subdir"),
            both(
                dependency_of(alloc, at, item),
                availability_of(alloc, at, item),
            ),
        ),
    )?;
    let (((name, from), (path, rights)), (subdir, (dependency, availability))) = read;
    let row = UseRow::Usage(Usage {
        kind: Kind::Directory,
        name,
        from,
        path,
        rights: Some(rights),
        subdir,
        dependency,
        availability,
    });
    one_row(alloc, row)
}

impl SectionItem for UseRow {
    ghost use Rattle.cm_read.specs.Items.{use_at};

    ghost reads = { λ _. use_at };

    /// An item of `use` gives a row for each name: a protocol, a directory or a storage.
    #[tactic(auto, unfolding(crate::specs::Items::use_at))]
    fn read(
        alloc: Global,
        at: ItemPlace,
        _children: &[Child],
        item: &JsonTree<'_>,
    ) -> Result<List<UseRow>, ReadFault> {
        let members = object_of(alloc, at, item)?;
        let sort = sort_of(alloc, at, item)?;
        check_keys(alloc, at, Object::Use(sort), members)?;
        match sort {
            Sort::Routed(Kind::Protocol) => protocol_use(alloc, at, item),
            Sort::Routed(Kind::Directory) => directory_use(alloc, at, item),
            Sort::Storage => storage_use(alloc, at, item),
        }
    }
}
