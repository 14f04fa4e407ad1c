//! The validator.

ghost use Rattle.std.specs.Prelude.{◌≡◌, not, IsTrue, IfOk, IfErr};
ghost use Rattle.std.specs.List.{list_all, list_any};
ghost use Rattle.cm_decl.specs.Valid as valid;
ghost use Rattle.cm_decl.specs.Valid.{IsValid};
ghost use Rattle.cm_valid.specs.Cycles as spec;
ghost use Rattle.cm_valid.specs.ReportsInside.{Reports};

use crate::ValidFault;
use crate::pass::first_fault;
use cm_decl::{
    Decl, Environment, Give, Offer, Origin, Registration, Section, Storage, StorageOffer, Usage,
};
use cm_deps::{Order, order_of};
use cm_names::Dependency;
use std::alloc::Global;
use std::marker::Model;

/// A declaration that is valid, which contracts see as the declaration.
#[derive(Debug, Drop)]
pub struct ValidDecl {
    decl: Decl,
}

impl Model for ValidDecl {
    ghost use Rattle.cm_decl.specs.declared.decl.Decl.{Decl};
    ghost use Rattle.cm_decl.specs.Valid.{IsValid};

    ghost Value = { Decl };

    ghost view = { λ valid. valid.decl };

    ghost invariant = { λ valid. IsValid valid.decl };
}

/// The declaration, if it is valid; else its first fault. A declaration that is refused is dropped.
///
/// `decl` has no use from `void` and no expose from `parent`, and its registrations and storages
/// come from where they may, as in each that is read from a manifest: [`is_well_formed`] tells.
/// [`ValidFault`] says when each fault comes; `Err(Memory)` where memory runs out.
///
/// This is what Fuchsia's component manager does with each declaration that it resolves
/// (`fuchsia.component.decl` and the component manifest reference, fuchsia.dev).
pub fn validate(alloc: Global, decl: Decl) -> Result<ValidDecl, ValidFault>
    requires well_formed { IsTrue (valid.is_well_formed decl) }
    ensures same { IfOk result (λ valid. valid ≡ decl) }
    ensures valid { IfOk result (λ _. IsValid decl) }
    ensures fault { IfErr result (Reports decl) }
{
    check(alloc, &decl)?;
    Ok(ValidDecl { decl })
}

/// Whether no use is from `void`, no expose from `parent`, and environments and storage come from
/// where they may, which [`validate`] takes for granted.
pub fn is_well_formed(decl: &Decl) -> bool
    ensures { result ≡ valid.is_well_formed decl.now }
{
    is_never_void(decl.uses.as_slice())
        && (is_never_parent(decl.exposes.as_slice()) && is_further_formed(decl))
}

/// Whether environments and storage come from where they may.
fn is_further_formed(decl: &Decl) -> bool
    ensures { result ≡ valid.is_further_formed decl.now }
{
    are_environments(decl.environments.as_slice())
        && (are_storages(decl.storages.as_slice())
            && are_storage_offers(decl.storage_offers.as_slice()))
}

/// Whether all registrations of all these environments come from where they may.
fn are_environments(environments: &[Environment]) -> bool
    ensures { result ≡ list_all valid.is_environment environments.now }
{
    environments
        .iter()
        .all(|environment| is_environment(environment))
}

/// Whether all these storages come from where they may.
fn are_storages(storages: &[Storage]) -> bool
    ensures { result ≡ list_all (λ s. valid.is_static_source s.from) storages.now }
{
    storages
        .iter()
        .all(|storage| is_static_source(&storage.from))
}

/// Whether all these offers of storages come from where they may.
fn are_storage_offers(offers: &[StorageOffer]) -> bool
    ensures { result ≡ list_all (λ o. valid.is_storage_source o.from) offers.now }
{
    offers.iter().all(|offer| is_storage_source(&offer.from))
}

/// Whether all registrations of an environment come from where they may.
fn is_environment(environment: &Environment) -> bool
    ensures { result ≡ valid.is_environment environment.now }
{
    are_registrations(environment.runners.as_slice())
        && are_registrations(environment.debug.as_slice())
}

/// Whether all these registrations come from where they may.
fn are_registrations(registrations: &[Registration]) -> bool
    ensures { result ≡ valid.are_registrations registrations.now }
{
    registrations
        .iter()
        .all(|registration| is_static_source(&registration.from))
}

/// Whether it is the parent, the component itself or a child in no collection.
fn is_static_source(from: &Origin) -> bool
    ensures { result ≡ valid.is_static_source from.now }
{
    match from {
        Origin::Parent | Origin::Own => true,
        Origin::Child(child) => child.coll.is_none(),
        Origin::Framework | Origin::Void => false,
    }
}

/// Whether it is the parent, the component itself or `void`.
fn is_storage_source(from: &Origin) -> bool
    ensures { result ≡ valid.is_storage_source from.now }
{
    matches!(from, Origin::Parent | Origin::Own | Origin::Void)
}

/// Whether no use is from `void`.
fn is_never_void(uses: &[Usage]) -> bool
    ensures { result ≡ list_all (λ u. not (valid.is_void u.from)) uses.now }
{
    uses.iter().all(|usage| !is_void(&usage.from))
}

/// Whether no expose is from `parent`.
fn is_never_parent(exposes: &[Give]) -> bool
    ensures { result ≡ list_all (λ g. not (valid.is_parent g.from)) exposes.now }
{
    exposes.iter().all(|give| !is_parent(&give.from))
}

/// Whether a source is `void`, from which no use may be.
fn is_void(from: &Origin) -> bool
    ensures { result ≡ valid.is_void from.now }
{
    matches!(from, Origin::Void)
}

/// Whether a source is `parent`, from which no expose may be.
fn is_parent(from: &Origin) -> bool
    ensures { result ≡ valid.is_parent from.now }
{
    matches!(from, Origin::Parent)
}

/// Whether a row strongly depends on a child.
fn binds_child(dependency: Dependency, from: &Origin) -> bool
    ensures { result ≡ spec.binds_child dependency from.now }
{
    match from {
        Origin::Child(_) => dependency == Dependency::Strong,
        _ => false,
    }
}

/// Whether something of these is strongly used of a child.
fn uses_child(uses: &[Usage]) -> bool
    ensures { result ≡ list_any (λ u. spec.binds_child u.dependency u.from) uses.now }
{
    uses.iter()
        .any(|usage| binds_child(usage.dependency, &usage.from))
}

/// Whether something of these is strongly offered of a child.
fn offers_child(offers: &[Offer]) -> bool
    ensures { result ≡ list_any (λ o. spec.binds_child o.give.dependency o.give.from) offers.now }
{
    offers.iter().any(|offer| binds_child(offer.give.dependency, &offer.give.from))
}

/// Whether the component itself or one of its children strongly depends on a child. Where none does,
/// nothing depends on itself.
fn needs_child(decl: &Decl) -> bool
    ensures { result ≡ spec.needs_child decl.now }
{
    uses_child(decl.uses.as_slice()) || offers_child(decl.offers.as_slice())
}

/// Whether a declaration is valid: its first fault, if it has one, as [`validate`] tells it. It is
/// well-formed as there.
pub fn check(alloc: Global, decl: &Decl) -> Result<(), ValidFault>
    requires well_formed { IsTrue (valid.is_well_formed decl.now) }
    ensures valid { IfOk result (λ _. IsValid decl.now) }
    ensures fault { IfErr result (Reports decl.now) }
{
    if let Some(found) = first_fault(alloc, decl)? {
        return Err(found.report(alloc));
    }
    if !needs_child(decl) {
        return Ok(());
    }
    match order_of(alloc, decl, &[])? {
        Order::Ordered(_) => Ok(()),
        Order::Cycle(cycle) => Err(ValidFault::Bad {
            number: 58,
            section: Section::Graph,
            index: 0,
            against: None,
            cycle,
        }),
    }
}

impl ValidDecl {
    /// The declaration that was found valid, borrowed.
    pub fn decl(&self) -> &Decl
        ensures same { result.now ≡ self.now }
        ensures valid { IsValid self.now }
    {
        &self.decl
    }

    /// The declaration that was found valid.
    pub fn into_decl(self) -> Decl
        ensures same { result ≡ self }
        ensures valid { IsValid result }
    {
        let ValidDecl { decl } = self;
        decl
    }
}
