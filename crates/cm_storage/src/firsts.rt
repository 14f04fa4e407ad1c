//! The storage offers of a declaration, found by whom they are to and by their name there.

ghost use Rattle.std.specs.Prelude.{◌≡◌, IfOk, OnOk, find};
ghost use Rattle.std.specs.Option.{option_copied};
ghost use Rattle.cm_storage.specs.Way as spec;
ghost use Rattle.cm_storage.specs.OfferIndex.{IsIndexOf, IsPutInIndex, is_by};

use crate::way::{storage_offer_of, target};
use cm_decl::{Decl, StorageOffer};
use cm_names::{ChildName, Memory, Name};
use std::alloc::Global;
use std::collections::HashMap;
use std::marker::Model;

/// Up to so many offers are gone through one by one.
const FEW: usize = 6;

/// Offers by their name at their target and by the target, the first of equals.
type Index<'a> = HashMap<(&'a str, &'a str), &'a StorageOffer>;

/// A declaration, for those who look for many of its storage offers. Contracts see it as the
/// declaration.
pub(crate) struct OfferIndex<'a> {
    /// The declaration whose storages and offers these are.
    decl: &'a Decl,
    index: Option<Index<'a>>,
}

impl<'a> Drop for OfferIndex<'a> {
    /// Called where the value goes: gives back the memory of its parts.
    fn drop(self) {
        let OfferIndex { decl: _, index: _ } = self;
    }
}

impl<'a> Model for OfferIndex<'a> {
    ghost use Rattle.std.specs.Prelude.{IfSome};
    ghost use Rattle.cm_decl.specs.declared.decl.Decl.{Decl};
    ghost use Rattle.cm_storage.specs.OfferIndex.{IsIndexOf};

    ghost Value = { Decl };

    ghost view = { λ a. a.decl.now };

    ghost invariant = { λ a. IfSome a.index (IsIndexOf a.decl.now.storage_offers) };
}

impl<'a> OfferIndex<'a> {
    /// Lays out the offers of a declaration. `Err` where memory runs out.
    pub(crate) fn of(alloc: Global, decl: &'a Decl) -> Result<OfferIndex<'a>, Memory>
        ensures { IfOk result (λ made. made ≡ decl.now) }
    {
        let offers = decl.storage_offers.as_slice();
        if offers.len() <= FEW {
            return Ok(OfferIndex { decl, index: None });
        }
        let index = index_of(alloc, offers)?;
        Ok(OfferIndex {
            decl,
            index: Some(index),
        })
    }

    /// The declaration.
    pub(crate) fn decl(&self) -> &'a Decl
        ensures { result.now ≡ self.now }
    {
        self.decl
    }

    /// The first offer of a storage to the child, or to its collection, that has that name there.
    pub(crate) fn offer(&self, child: &'a ChildName, name: &'a Name) -> Option<&'a StorageOffer>
        ensures { option_copied result ≡ spec.storage_offer_of self.now child.now name.now }
    {
        match &self.index {
            None => storage_offer_of(self.decl, child, name),
            Some(index) => {
                let offers = self.decl.storage_offers.as_slice();
                found_in(offers, index, name.as_str(), target(child).as_str())
            }
        }
    }
}

/// The offers, the first of each name and target.
fn index_of(alloc: Global, offers: &[StorageOffer]) -> Result<Index<'_>, Memory>
    ensures { IfOk result (IsIndexOf offers.now) }
{
    let mut index = HashMap::new(alloc);
    for offer in offers {
        put(&mut index, offer)?;
    }
    Ok(index)
}

/// Puts an offer into the index, unless one to the same target has its name there.
fn put<'a>(index: &mut Index<'a>, offer: &'a StorageOffer) -> Result<(), Memory>
    ensures { OnOk result (IsPutInIndex offer.now index.old index.new) }
{
    let key = (offer.target_name.as_str(), offer.to.as_str());
    if index.contains_key(&key) {
        return Ok(());
    }
    index.insert(key, offer)?;
    Ok(())
}

/// The first of these offers by that name to that target.
fn found_in<'a>(
    offers: &'a [StorageOffer],
    index: &Index<'a>,
    name: &'a str,
    to: &'a str,
) -> Option<&'a StorageOffer>
    requires { IsIndexOf offers.now index.now }
    ensures { option_copied result ≡ find (is_by name.now to.now) offers.now }
{
    let _offers = offers;
    match index.get(&(name, to)) {
        Some(offer) => Some(*offer),
        None => None,
    }
}
