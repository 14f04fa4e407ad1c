//! Children of collections that nothing strongly comes from.
//!
//! A ring of siblings that isn't one of the declaration alone passes through children of
//! collections, from each of which something strongly comes. A declaration has no such source, so
//! only offers that were made to children alone can close a ring: where a new child has none of
//! that kind, it stands in no ring, and no realm graph has to be made.

ghost use Rattle.std.specs.Prelude.{◌≡◌, ◌&&◌, not, IsTrue};
ghost use Rattle.std.specs.List.{list_all};
ghost use Rattle.cm_decl.specs.Graph.{is_strong as passes_strong};
ghost use Rattle.cm_dynamic.specs.Apart as apart;

use cm_decl::{Decl, Give, Offer, Origin, Usage};
use cm_names::Dependency;

/// Whether nothing that the instance declares and nothing of these offers comes strongly from a
/// child of a collection.
pub(crate) fn is_apart(decl: &Decl, gives: &[Give]) -> bool
    ensures given { IsTrue result → IsTrue (list_all apart.is_plain_give gives.now) }
    ensures offers { IsTrue result → IsTrue (list_all apart.is_plain_offer decl.now.offers) }
    ensures usages { IsTrue result → IsTrue (list_all apart.is_plain_use decl.now.uses) }
{
    is_plain(gives) && are_declared_plain(decl)
}

/// Whether nothing that the instance declares comes strongly from a child of a collection.
pub(crate) fn are_declared_plain(decl: &Decl) -> bool
    ensures { result ≡ (list_all apart.is_plain_offer decl.now.offers
        && list_all apart.is_plain_use decl.now.uses) }
{
    are_offers_plain(decl.offers.as_slice()) && are_uses_plain(decl.uses.as_slice())
}

/// Whether none of these offers comes strongly from a child of a collection.
fn is_plain(gives: &[Give]) -> bool
    ensures { result ≡ list_all apart.is_plain_give gives.now }
{
    gives.iter().all(|give| is_plain_give(give))
}

/// Whether the offer doesn't come strongly from a child of a collection.
fn is_plain_give(give: &Give) -> bool
    ensures { result ≡ apart.is_plain_give give.now }
{
    !binds_created(give.dependency, &give.from)
}

/// Whether none of these declared offers comes strongly from a child of a collection.
fn are_offers_plain(offers: &[Offer]) -> bool
    ensures { result ≡ list_all apart.is_plain_offer offers.now }
{
    offers.iter().all(|offer| is_plain_offer(offer))
}

/// Whether the declared offer doesn't come strongly from a child of a collection.
fn is_plain_offer(offer: &Offer) -> bool
    ensures { result ≡ apart.is_plain_offer offer.now }
{
    !binds_created(offer.give.dependency, &offer.give.from)
}

/// Whether nothing of these is used strongly from a child of a collection.
fn are_uses_plain(uses: &[Usage]) -> bool
    ensures { result ≡ list_all apart.is_plain_use uses.now }
{
    uses.iter().all(|usage| is_plain_use(usage))
}

/// Whether it isn't used strongly from a child of a collection.
fn is_plain_use(usage: &Usage) -> bool
    ensures { result ≡ apart.is_plain_use usage.now }
{
    !binds_created(usage.dependency, &usage.from)
}

/// Whether something comes strongly from a child of a collection.
pub(crate) fn binds_created(dependency: Dependency, from: &Origin) -> bool
    ensures { result ≡ apart.binds_created dependency from.now }
{
    is_strong(dependency) && is_from_created(from)
}

/// Whether the dependency is strong.
pub(crate) fn is_strong(dependency: Dependency) -> bool
    ensures { result ≡ passes_strong dependency }
{
    dependency == Dependency::Strong
}

/// Whether the source is a child of a collection.
fn is_from_created(from: &Origin) -> bool
    ensures { result ≡ apart.is_from_created from.now }
{
    match from {
        Origin::Child(child) => child.coll.is_some(),
        _ => false,
    }
}
