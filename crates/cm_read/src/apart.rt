//! The rows of a section with several kinds of them, each kind in a list of its own.

ghost use Rattle.std.specs.Prelude.{◌≡◌, [], ◌∷◌, ◌++◌, filter_map, OnOk};
ghost use Rattle.cm_read.specs.Items as spec;
ghost use Rattle.cm_read.specs.Parts as parts;

use crate::rows::{CapabilityRow, OfferRow, UseRow};
use cm_decl::{Capability, DebugUse, Decl, Offer, Storage, StorageOffer, StorageUse, Usage};
use cm_names::{List, Memory};

/// Puts a row at the end of the list of its kind.
fn put_capability(
    routed: &mut List<Capability>,
    storages: &mut List<Storage>,
    row: CapabilityRow,
) -> Result<(), Memory>
    ensures routed { OnOk result
        (routed.new ≡ routed.old ++ filter_map spec.capability_in (row ∷ [])) }
    ensures storages { OnOk result
        (storages.new ≡ storages.old ++ filter_map spec.storage_in (row ∷ [])) }
{
    match row {
        CapabilityRow::Capability(row) => routed.push(row),
        CapabilityRow::Storage(row) => storages.push(row),
    }
}

/// The rows of `capabilities`: what is routed, and the storages.
#[tactic(auto, using(crate::proofs::lemmas::Row::part_more, crate::proofs::lemmas::Row::part_all))]
fn part_capabilities(
    routed: &mut List<Capability>,
    storages: &mut List<Storage>,
    rows: List<CapabilityRow>,
) -> Result<(), Memory>
    ensures routed { OnOk result
        (routed.new ≡ routed.old ++ filter_map spec.capability_in rows) }
    ensures storages { OnOk result
        (storages.new ≡ storages.old ++ filter_map spec.storage_in rows) }
{
    for row in rows.into_vec() {
        put_capability(routed, storages, row)?;
    }
    Ok(())
}

/// Puts a row at the end of the list of its kind.
fn put_use(
    routed: &mut List<Usage>,
    debug: &mut List<DebugUse>,
    storages: &mut List<StorageUse>,
    row: UseRow,
) -> Result<(), Memory>
    ensures routed { OnOk result
        (routed.new ≡ routed.old ++ filter_map spec.usage_in (row ∷ [])) }
    ensures debug { OnOk result
        (debug.new ≡ debug.old ++ filter_map spec.debug_use_in (row ∷ [])) }
    ensures storages { OnOk result
        (storages.new ≡ storages.old ++ filter_map spec.storage_use_in (row ∷ [])) }
{
    match row {
        UseRow::Usage(row) => routed.push(row),
        UseRow::Debug(row) => debug.push(row),
        UseRow::Storage(row) => storages.push(row),
    }
}

/// The rows of `use` by their kinds.
#[tactic(auto, using(crate::proofs::lemmas::Row::part_more, crate::proofs::lemmas::Row::part_all))]
fn part_uses(
    routed: &mut List<Usage>,
    debug: &mut List<DebugUse>,
    storages: &mut List<StorageUse>,
    rows: List<UseRow>,
) -> Result<(), Memory>
    ensures routed { OnOk result
        (routed.new ≡ routed.old ++ filter_map spec.usage_in rows) }
    ensures debug { OnOk result
        (debug.new ≡ debug.old ++ filter_map spec.debug_use_in rows) }
    ensures storages { OnOk result
        (storages.new ≡ storages.old ++ filter_map spec.storage_use_in rows) }
{
    for row in rows.into_vec() {
        put_use(routed, debug, storages, row)?;
    }
    Ok(())
}

/// Puts a row at the end of the list of its kind.
fn put_offer(
    routed: &mut List<Offer>,
    storages: &mut List<StorageOffer>,
    row: OfferRow,
) -> Result<(), Memory>
    ensures routed { OnOk result
        (routed.new ≡ routed.old ++ filter_map spec.offer_in (row ∷ [])) }
    ensures storages { OnOk result
        (storages.new ≡ storages.old ++ filter_map spec.storage_offer_in (row ∷ [])) }
{
    match row {
        OfferRow::Offer(row) => routed.push(row),
        OfferRow::Storage(row) => storages.push(row),
    }
}

/// The rows of `offer`: of what is routed, and of storages.
#[tactic(auto, using(crate::proofs::lemmas::Row::part_more, crate::proofs::lemmas::Row::part_all))]
fn part_offers(
    routed: &mut List<Offer>,
    storages: &mut List<StorageOffer>,
    rows: List<OfferRow>,
) -> Result<(), Memory>
    ensures routed { OnOk result
        (routed.new ≡ routed.old ++ filter_map spec.offer_in rows) }
    ensures storages { OnOk result
        (storages.new ≡ storages.old ++ filter_map spec.storage_offer_in rows) }
{
    for row in rows.into_vec() {
        put_offer(routed, storages, row)?;
    }
    Ok(())
}

/// Puts the rows of `capabilities`, `use` and `offer` at the ends of the lists of their kinds.
pub fn put_rows(
    decl: &mut Decl,
    capabilities: List<CapabilityRow>,
    uses: List<UseRow>,
    offers: List<OfferRow>,
) -> Result<(), Memory>
    ensures { OnOk result (decl.new ≡ parts.with_rows decl.old capabilities uses offers) }
{
    part_capabilities(&mut decl.capabilities, &mut decl.storages, capabilities)?;
    part_uses(
        &mut decl.uses,
        &mut decl.debug_uses,
        &mut decl.storage_uses,
        uses,
    )?;
    part_offers(&mut decl.offers, &mut decl.storage_offers, offers)?;
    Ok(())
}
