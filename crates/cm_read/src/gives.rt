//! The items of `offer` and `expose`.

ghost use Rattle.std.specs.Prelude.{◌≡◌, map, IfOk};
ghost use Rattle.std.specs.List.{flat_map};
ghost use Rattle.cm_plain.specs.JsonTree.{view};
ghost use Rattle.cm_read.specs.Items as spec;
ghost use Rattle.cm_read.specs.Parts as parts;
ghost use Rattle.cm_read.specs.ReadingInside.{GivesReading};

use crate::both::both;
use crate::fault::{ItemPlace, ReadFault, fault};
use crate::fields::{name_in, needed, object_of, references_of, rights_in, subdir_of};
use crate::items::{item_names_of, kind_of, sort_of};
use crate::known::{Object, check_keys};
use crate::number::NOT_WITH_MANY;
use crate::rows::{AskedTerms, OfferRow, Sort, Terms, give_rows, offer_rows, storage_offers_from};
use crate::sections::SectionItem;
use crate::storage::storage_names_of;
use crate::words::{
    dependency_of, expose_from_of, expose_to_of, given_availability_of, offer_from_of, settle,
    source_unknown_of, storage_from_of,
};
use cm_decl::{Child, Give, Kind, Origin};
use cm_names::{Dependency, List, Memory, Name, Rights};
use cm_plain::JsonTree;
use std::alloc::Global;

/// The target name that a value is.
#[tactic(auto, unfolding(crate::specs::Items::as_in_at))]
fn as_in(
    alloc: Global,
    at: ItemPlace,
    names: &[Name],
    value: &JsonTree<'_>,
) -> Result<Name, ReadFault>
    ensures { GivesReading result (spec.as_in_at at names.now (view value.now)) }
{
    let name = name_in(alloc, at, value, "as")?;
    if names.len() > 1 {
        return Err(fault(alloc, at, NOT_WITH_MANY, "as"));
    }
    Ok(name)
}

/// The name at the target, by `as`, if the item states one.
#[tactic(auto, unfolding(crate::specs::Items::as_at))]
pub fn as_of(
    alloc: Global,
    at: ItemPlace,
    names: &[Name],
    item: &JsonTree<'_>,
) -> Result<Option<Name>, ReadFault>
    ensures { GivesReading result (spec.as_at at names.now (view item.now)) }
{
    let Some(value) = item.get("as") else {
        return Ok(None);
    };
    let name = as_in(alloc, at, names, value)?;
    Ok(Some(name))
}

/// The rights that an offer or an expose states, if it does.
#[tactic(auto, unfolding(crate::specs::Items::given_rights_at))]
fn given_rights_of(
    alloc: Global,
    at: ItemPlace,
    item: &JsonTree<'_>,
) -> Result<Option<Rights>, ReadFault>
    ensures { GivesReading result (spec.given_rights_at at (view item.now)) }
{
    let Some(value) = item.get("rights") else {
        return Ok(None);
    };
    let rights = rights_in(alloc, at, value, "rights")?;
    Ok(Some(rights))
}

/// `to` of an offer, which has to be there.
#[tactic(auto, unfolding(crate::specs::Items::targets_at))]
fn targets_of(alloc: Global, at: ItemPlace, item: &JsonTree<'_>) -> Result<List<Name>, ReadFault>
    ensures { GivesReading result (spec.targets_at at (view item.now)) }
{
    let value = needed(alloc, at, item, "to")?;
    references_of(alloc, at, value, "to")
}

/// What an item asks of what it gives by these names, with the dependency that was read.
#[tactic(auto, unfolding(crate::specs::Parts::asked_at))]
fn asked_of(
    alloc: Global,
    at: ItemPlace,
    names: &[Name],
    dependency: Result<Dependency, ReadFault>,
    item: &JsonTree<'_>,
) -> Result<AskedTerms, ReadFault>
    ensures { parts.GivesAsked dependency at names.now (view item.now) result }
{
    let read = both(
        both(
            as_of(alloc, at, names, item),
            given_rights_of(alloc, at, item),
        ),
        both(
            both(subdir_of(alloc, at, item, "subdir"), dependency),
            both(
                given_availability_of(alloc, at, item),
                source_unknown_of(alloc, at, item),
            ),
        ),
    )?;
    let ((target, rights), ((subdir, dependency), (availability, unknown))) = read;
    Ok(AskedTerms {
        target,
        rights,
        subdir,
        dependency,
        availability,
        unknown,
    })
}

/// The terms of an item of that kind from that source, beside these declared children.
fn terms_by(kind: Kind, from: Origin, children: &[Child], asked: AskedTerms) -> Terms
    ensures { result ≡ parts.terms_by kind children.now from asked }
{
    Terms {
        kind,
        from: settle(from, asked.unknown, children),
        target: asked.target,
        rights: asked.rights,
        subdir: asked.subdir,
        dependency: asked.dependency,
        availability: asked.availability,
    }
}

/// For each name in turn a row for each target.
fn offer_each(
    alloc: Global,
    terms: &Terms,
    names: &[Name],
    targets: &[Name],
) -> Result<List<OfferRow>, Memory>
    ensures { IfOk result (λ rows. rows
        ≡ flat_map (spec.offer_rows targets.now) (map (spec.give_row terms.now) names.now)) }
{
    let gives = give_rows(alloc, terms, names)?;
    offer_rows(alloc, targets, gives.as_slice())
}

/// The rows of an offer by its terms and its targets, for each name one for each target.
fn offer_by(
    alloc: Global,
    terms: Terms,
    names: &[Name],
    targets: List<Name>,
) -> Result<List<OfferRow>, Memory>
    ensures { IfOk result (λ rows. rows
        ≡ flat_map (spec.offer_rows targets) (map (spec.give_row terms) names.now)) }
{
    offer_each(alloc, &terms, names, targets.as_slice())
}

/// The rows of protocols or directories with these names that are offered.
#[tactic(auto, unfolding(crate::specs::Items::offered_at))]
fn offered(
    alloc: Global,
    kind: Kind,
    at: ItemPlace,
    children: &[Child],
    names: &[Name],
    item: &JsonTree<'_>,
) -> Result<List<OfferRow>, ReadFault>
    ensures { GivesReading result (spec.offered_at kind children.now at names.now (view item.now)) }
{
    let read = both(
        both(offer_from_of(alloc, at, item), targets_of(alloc, at, item)),
        asked_of(alloc, at, names, dependency_of(alloc, at, item), item),
    )?;
    let ((from, targets), asked) = read;
    let terms = terms_by(kind, from, children, asked);
    Ok(offer_by(alloc, terms, names, targets)?)
}

/// The rows of a protocol or a directory that is offered: for each name in turn one for each target.
#[tactic(auto, unfolding(crate::specs::Items::routed_offer_at))]
fn routed_offer(
    alloc: Global,
    kind: Kind,
    at: ItemPlace,
    children: &[Child],
    item: &JsonTree<'_>,
) -> Result<List<OfferRow>, ReadFault>
    ensures { GivesReading result (spec.routed_offer_at kind children.now at (view item.now)) }
{
    let names = item_names_of(alloc, kind, at, item)?;
    offered(alloc, kind, at, children, names.as_slice(), item)
}

/// The rows of storages with these names that are offered; their availability isn't kept.
#[tactic(auto, unfolding(crate::specs::Items::storages_offered_at))]
fn storages_offered(
    alloc: Global,
    at: ItemPlace,
    names: &[Name],
    item: &JsonTree<'_>,
) -> Result<List<OfferRow>, ReadFault>
    ensures { GivesReading result (spec.storages_offered_at at names.now (view item.now)) }
{
    let read = both(
        both(
            storage_from_of(alloc, at, item),
            targets_of(alloc, at, item),
        ),
        both(
            as_of(alloc, at, names, item),
            given_availability_of(alloc, at, item),
        ),
    )?;
    let ((from, targets), (target, _)) = read;
    Ok(storage_offers_from(alloc, from, target, targets, names)?)
}

/// The rows of a storage that is offered; its availability isn't kept.
#[tactic(auto, unfolding(crate::specs::Items::storage_offer_at))]
fn storage_offer(
    alloc: Global,
    at: ItemPlace,
    item: &JsonTree<'_>,
) -> Result<List<OfferRow>, ReadFault>
    ensures { GivesReading result (spec.storage_offer_at at (view item.now)) }
{
    let names = storage_names_of(alloc, at, item)?;
    storages_offered(alloc, at, names.as_slice(), item)
}

impl SectionItem for OfferRow {
    ghost use Rattle.cm_read.specs.Items.{offer_at};

    ghost reads = { offer_at };

    /// An item of `offer` gives a row for each name and target. The declared children say which sources
    /// may be missing.
    #[tactic(auto, unfolding(crate::specs::Items::offer_at))]
    fn read(
        alloc: Global,
        at: ItemPlace,
        children: &[Child],
        item: &JsonTree<'_>,
    ) -> Result<List<OfferRow>, ReadFault> {
        let members = object_of(alloc, at, item)?;
        let sort = sort_of(alloc, at, item)?;
        check_keys(alloc, at, Object::Offer(sort), members)?;
        match sort {
            Sort::Routed(kind) => routed_offer(alloc, kind, at, children, item),
            Sort::Storage => storage_offer(alloc, at, item),
        }
    }
}

/// A row for each name, of terms that are handed over.
fn expose_by(alloc: Global, terms: Terms, names: &[Name]) -> Result<List<Give>, Memory>
    ensures { IfOk result (λ rows. rows ≡ map (spec.give_row terms) names.now) }
{
    give_rows(alloc, &terms, names)
}

/// The rows of protocols or directories with these names that are exposed, one for each.
#[tactic(auto, unfolding(crate::specs::Items::exposed_at))]
fn exposed(
    alloc: Global,
    kind: Kind,
    at: ItemPlace,
    children: &[Child],
    names: &[Name],
    item: &JsonTree<'_>,
) -> Result<List<Give>, ReadFault>
    ensures { GivesReading result (spec.exposed_at kind children.now at names.now (view item.now)) }
{
    let read = both(
        both(
            expose_from_of(alloc, at, item),
            expose_to_of(alloc, at, item),
        ),
        asked_of(alloc, at, names, Ok(Dependency::Strong), item),
    )?;
    let ((from, ()), asked) = read;
    let terms = terms_by(kind, from, children, asked);
    Ok(expose_by(alloc, terms, names)?)
}

impl SectionItem for Give {
    ghost use Rattle.cm_read.specs.Items.{expose_at};

    ghost reads = { expose_at };

    /// An item of `expose` gives a row for each name. The declared children say which sources may be
    /// missing.
    #[tactic(auto, unfolding(crate::specs::Items::expose_at))]
    fn read(
        alloc: Global,
        at: ItemPlace,
        children: &[Child],
        item: &JsonTree<'_>,
    ) -> Result<List<Give>, ReadFault> {
        let members = object_of(alloc, at, item)?;
        let kind = kind_of(alloc, at, item)?;
        check_keys(alloc, at, Object::Expose(kind), members)?;
        let names = item_names_of(alloc, kind, at, item)?;
        exposed(alloc, kind, at, children, names.as_slice(), item)
    }
}
