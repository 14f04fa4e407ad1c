//! The rows that an item gives.

ghost use Rattle.std.specs.Prelude.{◌≡◌, [], ◌∷◌, ◌++◌, map, IfOk, OnOk, unwrap_or, Ok};
ghost use Rattle.std.specs.List.{flat_map};
ghost use Rattle.cm_read.specs.Environments as environments;
ghost use Rattle.cm_read.specs.Items as spec;
ghost use Rattle.cm_read.specs.ReadingInside.{GivesReading};

use crate::fault::ReadFault;
use cm_decl::copies::{three, two};
use cm_decl::{
    Capability, Child, Collection, DebugUse, Environment, Give, Kind, Offer, Origin, Registration,
    Storage, StorageOffer, StorageUse, Usage,
};
use cm_names::{Availability, CapPath, Dependency, List, Memory, Name, Rights, SubDir};
use std::alloc::Global;

/// What an item of a section with storage is about.
#[derive(Clone, Copy)]
pub enum Sort {
    /// A capability that is routed, of this kind.
    Routed(Kind),
    /// A storage.
    Storage,
}

/// A row of `capabilities`.
#[derive(Drop)]
pub enum CapabilityRow {
    /// A capability that is routed.
    Capability(Capability),
    /// A storage.
    Storage(Storage),
}

/// A row of `use`.
#[derive(Drop)]
pub enum UseRow {
    /// Of a capability that is routed.
    Usage(Usage),
    /// Of a debug protocol.
    Debug(DebugUse),
    /// Of a storage.
    Storage(StorageUse),
}

/// A row of `offer`.
#[derive(Drop)]
pub enum OfferRow {
    /// Of a capability that is routed.
    Offer(Offer),
    /// Of a storage.
    Storage(StorageOffer),
}

/// Where a protocol that is used comes from.
#[derive(Drop)]
pub enum UseSource {
    /// An origin, from which it is routed.
    From(Origin),
    /// The debug registrations of the environment.
    Debug,
}

/// What an environment registers.
#[derive(Clone, Copy)]
pub enum Registry {
    /// Runners: `runners`.
    Runners,
    /// Debug protocols: `debug`.
    Debug,
}

/// The rows of all sections that list them.
#[derive(Drop)]
pub struct SectionRows {
    /// The rows of `children`.
    pub children: List<Child>,
    /// The rows of `collections`.
    pub collections: List<Collection>,
    /// The rows of `capabilities`.
    pub capabilities: List<CapabilityRow>,
    /// The rows of `use`.
    pub uses: List<UseRow>,
    /// The rows of `offer`.
    pub offers: List<OfferRow>,
    /// The rows of `expose`.
    pub exposes: List<Give>,
    /// The rows of `environments`.
    pub environments: List<Environment>,
}

/// A list of this one row. The fault is `Memory`, where memory runs out.
pub fn one_row<T: Drop>(alloc: Global, row: T) -> Result<List<T>, ReadFault>
    ensures { GivesReading result (Ok (row ∷ [])) }
{
    let mut rows = List::new(alloc);
    rows.push(row)?;
    Ok(rows)
}

/// The given path, or the default one of the name.
fn path_for(alloc: Global, given: &Option<CapPath>, name: &Name) -> Result<CapPath, Memory>
    ensures { IfOk result (λ path. path ≡ spec.path_of given.now name.now) }
{
    match given {
        Some(path) => Ok(path.clone()?),
        None => CapPath::service(alloc, name),
    }
}

/// The row of a protocol that is provided.
fn protocol_row(alloc: Global, path: &Option<CapPath>, name: &Name) -> Result<Capability, Memory>
    ensures { IfOk result (λ row. row ≡ spec.protocol_row path.now name.now) }
{
    Ok(Capability {
        kind: Kind::Protocol,
        name: name.clone()?,
        path: path_for(alloc, path, name)?,
        rights: None,
    })
}

/// The capabilities of these protocols, one for each name.
pub fn protocol_rows(
    alloc: Global,
    path: &Option<CapPath>,
    names: &[Name],
) -> Result<List<CapabilityRow>, Memory>
    ensures { IfOk result (λ rows. rows ≡ map (spec.protocol_capability_row path.now) names.now) }
{
    let mut rows = List::new(alloc);
    for name in names {
        let row = protocol_row(alloc, path, name)?;
        rows.push(CapabilityRow::Capability(row))?;
    }
    Ok(rows)
}

/// The row of a protocol that is used.
fn protocol_usage(
    alloc: Global,
    from: &Origin,
    path: &Option<CapPath>,
    dependency: Dependency,
    availability: Availability,
    name: &Name,
) -> Result<Usage, Memory>
    ensures { IfOk result
        (λ row. row ≡ spec.protocol_usage from.now path.now dependency availability name.now) }
{
    let path = path_for(alloc, path, name)?;
    let (name, from) = two(name, from)?;
    Ok(Usage {
        kind: Kind::Protocol,
        name,
        from,
        path,
        rights: None,
        subdir: None,
        dependency,
        availability,
    })
}

/// The use of a debug protocol.
fn debug_use(alloc: Global, path: &Option<CapPath>, name: &Name) -> Result<DebugUse, Memory>
    ensures { IfOk result (λ row. row ≡ spec.debug_use path.now name.now) }
{
    Ok(DebugUse {
        name: name.clone()?,
        path: path_for(alloc, path, name)?,
    })
}

/// The row of a protocol that is used; a debug use keeps neither its dependency nor its
/// availability.
fn protocol_use_row(
    alloc: Global,
    from: &UseSource,
    path: &Option<CapPath>,
    dependency: Dependency,
    availability: Availability,
    name: &Name,
) -> Result<UseRow, Memory>
    ensures { IfOk result
        (λ row. row ≡ spec.protocol_use_row from.now path.now dependency availability name.now) }
{
    match from {
        UseSource::From(from) => {
            let usage = protocol_usage(alloc, from, path, dependency, availability, name)?;
            Ok(UseRow::Usage(usage))
        }
        UseSource::Debug => {
            let usage = debug_use(alloc, path, name)?;
            Ok(UseRow::Debug(usage))
        }
    }
}

/// The uses of these protocols, one for each name.
fn protocol_use_rows(
    alloc: Global,
    from: &UseSource,
    path: &Option<CapPath>,
    dependency: Dependency,
    availability: Availability,
    names: &[Name],
) -> Result<List<UseRow>, Memory>
    ensures { IfOk result
        (λ rows. rows
        ≡ map (spec.protocol_use_row from.now path.now dependency availability) names.now) }
{
    let mut rows = List::new(alloc);
    for name in names {
        rows.push(protocol_use_row(alloc, from, path, dependency, availability, name)?)?;
    }
    Ok(rows)
}

/// The uses of these protocols from this source and at this path, one for each name.
pub fn uses_from(
    alloc: Global,
    from: UseSource,
    path: Option<CapPath>,
    dependency: Dependency,
    availability: Availability,
    names: &[Name],
) -> Result<List<UseRow>, Memory>
    ensures { IfOk result (λ rows. rows
        ≡ map (spec.protocol_use_row from path dependency availability) names.now) }
{
    protocol_use_rows(alloc, &from, &path, dependency, availability, names)
}

/// The given target name, or the name itself.
fn target_for(target: &Option<Name>, name: &Name) -> Result<Name, Memory>
    ensures { IfOk result (λ made. made ≡ unwrap_or target.now name.now) }
{
    match target {
        Some(target) => Ok(target.clone()?),
        None => Ok(name.clone()?),
    }
}

/// What the rows of one item of `offer` or `expose` have in common.
#[derive(Drop)]
pub struct Terms {
    /// What is given.
    pub kind: Kind,
    /// Where it comes from.
    pub from: Origin,
    /// `as`, if it is there.
    pub target: Option<Name>,
    /// `rights`, if they are there.
    pub rights: Option<Rights>,
    /// `subdir`, if it is there.
    pub subdir: Option<SubDir>,
    /// `dependency`.
    pub dependency: Dependency,
    /// `availability`.
    pub availability: Availability,
}

/// What an item of `offer` or `expose` asks of what it gives.
#[derive(Drop)]
pub struct AskedTerms {
    /// `as`, if it is there.
    pub target: Option<Name>,
    /// `rights`, if they are there.
    pub rights: Option<Rights>,
    /// `subdir`, if it is there.
    pub subdir: Option<SubDir>,
    /// `dependency`, which an expose has not: there it is `Strong`.
    pub dependency: Dependency,
    /// `availability`.
    pub availability: Availability,
    /// Whether the source may be missing.
    pub unknown: bool,
}

/// What an offer or an expose with these terms gives under one name.
fn give_row(terms: &Terms, name: &Name) -> Result<Give, Memory>
    ensures { IfOk result (λ row. row ≡ spec.give_row terms.now name.now) }
{
    let target_name = target_for(&terms.target, name)?;
    let (source_name, from, subdir) = three(name, &terms.from, &terms.subdir)?;
    Ok(Give {
        kind: terms.kind,
        source_name,
        from,
        target_name,
        rights: terms.rights,
        subdir,
        dependency: terms.dependency,
        availability: terms.availability,
    })
}

/// What an offer or an expose with these terms gives, a row for each name.
pub fn give_rows(alloc: Global, terms: &Terms, names: &[Name]) -> Result<List<Give>, Memory>
    ensures { IfOk result (λ rows. rows ≡ map (spec.give_row terms.now) names.now) }
{
    let mut rows = List::new(alloc);
    for name in names {
        rows.push(give_row(terms, name)?)?;
    }
    Ok(rows)
}

/// The offer of this to one target.
fn offer_row(give: &Give, to: &Name) -> Result<Offer, Memory>
    ensures { IfOk result (λ row. row ≡ spec.offer_row give.now to.now) }
{
    let (to, give) = two(to, give)?;
    Ok(Offer { to, give })
}

/// Puts a row for each target at the end.
fn push_offers(rows: &mut List<OfferRow>, targets: &[Name], give: &Give) -> Result<(), Memory>
    ensures { OnOk result (rows.new ≡ rows.old ++ spec.offer_rows targets.now give.now) }
{
    for to in targets {
        let row = offer_row(give, to)?;
        rows.push(OfferRow::Offer(row))?;
    }
    Ok(())
}

/// For each name in turn, a row for each target.
pub fn offer_rows(alloc: Global, targets: &[Name], gives: &[Give]) -> Result<List<OfferRow>, Memory>
    ensures { IfOk result (λ rows. rows ≡ flat_map (spec.offer_rows targets.now) gives.now) }
{
    let mut rows = List::new(alloc);
    for give in gives {
        push_offers(&mut rows, targets, give)?;
    }
    Ok(rows)
}

/// The row of a storage that is offered to a target.
fn storage_offer(
    from: &Origin,
    target: &Option<Name>,
    name: &Name,
    to: &Name,
) -> Result<StorageOffer, Memory>
    ensures { IfOk result (λ row. row ≡ spec.storage_offer from.now target.now name.now to.now) }
{
    let target_name = target_for(target, name)?;
    let (to, source_name, from) = three(to, name, from)?;
    Ok(StorageOffer {
        to,
        source_name,
        from,
        target_name,
    })
}

/// Puts a row for each target at the end.
fn push_storage_offers(
    rows: &mut List<OfferRow>,
    from: &Origin,
    target: &Option<Name>,
    targets: &[Name],
    name: &Name,
) -> Result<(), Memory>
    ensures { OnOk result (rows.new
        ≡ rows.old ++ spec.storage_offer_rows from.now target.now targets.now name.now) }
{
    for to in targets {
        let row = storage_offer(from, target, name, to)?;
        rows.push(OfferRow::Storage(row))?;
    }
    Ok(())
}

/// For each name in turn, a row for each target.
fn storage_offer_rows(
    alloc: Global,
    from: &Origin,
    target: &Option<Name>,
    targets: &[Name],
    names: &[Name],
) -> Result<List<OfferRow>, Memory>
    ensures { IfOk result (λ rows. rows
        ≡ flat_map (spec.storage_offer_rows from.now target.now targets.now) names.now) }
{
    let mut rows = List::new(alloc);
    for name in names {
        push_storage_offers(&mut rows, from, target, targets, name)?;
    }
    Ok(rows)
}

/// The offers of these storages from this source under this target name, for each one for each target.
pub fn storage_offers_from(
    alloc: Global,
    from: Origin,
    target: Option<Name>,
    targets: List<Name>,
    names: &[Name],
) -> Result<List<OfferRow>, Memory>
    ensures { IfOk result (λ rows. rows
        ≡ flat_map (spec.storage_offer_rows from target targets) names.now) }
{
    storage_offer_rows(alloc, &from, &target, targets.as_slice(), names)
}

/// The registration of one name.
fn registration_row(
    from: &Origin,
    target: &Option<Name>,
    name: &Name,
) -> Result<Registration, Memory>
    ensures { IfOk result
        (λ row. row ≡ environments.registration from.now target.now name.now) }
{
    let target = target_for(target, name)?;
    let (name, from) = two(name, from)?;
    Ok(Registration { name, from, target })
}

/// A registration for each name.
fn registration_rows(
    alloc: Global,
    from: &Origin,
    target: &Option<Name>,
    names: &[Name],
) -> Result<List<Registration>, Memory>
    ensures { IfOk result
        (λ rows. rows ≡ map (environments.registration from.now target.now) names.now) }
{
    let mut rows = List::new(alloc);
    for name in names {
        rows.push(registration_row(from, target, name)?)?;
    }
    Ok(rows)
}

/// The registrations of these names from this source under this target name, one for each.
pub fn registrations_from(
    alloc: Global,
    from: Origin,
    target: Option<Name>,
    names: &[Name],
) -> Result<List<Registration>, Memory>
    ensures { IfOk result
        (λ rows. rows ≡ map (environments.registration from target) names.now) }
{
    registration_rows(alloc, &from, &target, names)
}
