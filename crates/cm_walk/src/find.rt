//! Rows of a declaration, by their kind and name.

ghost use Rattle.std.specs.Prelude.{◌≡◌, ◌&&◌, Some, find, option_map};
ghost use Rattle.std.specs.Option.{option_copied};
ghost use Rattle.std.specs.Str.{bytes_eq};
ghost use Rattle.cm_decl.specs.Graph.{target_of};
ghost use Rattle.cm_decl.specs.Same as same;
ghost use Rattle.cm_world.specs.NextStation as spec;
ghost use Rattle.cm_world.specs.Offering.{offer_index, told_index};
ghost use Rattle.cm_world.specs.RowsInside.{use_index, expose_index, capability_index};

use cm_decl::{Capability, Decl, Give, Kind, Offer, Usage};
use cm_names::{CapPath, ChildName, Name};

/// The first use of that path, if its index is told as this one. Which one an index of 2^32 - 1
/// tells has to be looked for.
pub(crate) fn usage<'a>(decl: &'a Decl, path: &CapPath, index: u32) -> Option<&'a Usage>
    ensures { option_map told_index (use_index decl.now path.now) ≡ Some index
        → option_copied result ≡ find (λ u. bytes_eq u.path path.now) decl.now.uses }
{
    if index < u32::MAX {
        return decl.uses.get(index as usize);
    }
    search_use(decl, path)
}

/// The first use of that path.
fn search_use<'a>(decl: &'a Decl, path: &CapPath) -> Option<&'a Usage>
    ensures { option_copied result ≡ find (λ u. bytes_eq u.path path.now) decl.now.uses }
{
    decl.uses
        .as_slice()
        .iter()
        .find(|usage| usage.path.as_str() == path.as_str())
}

/// The first expose of that name, whatever its kind.
pub(crate) fn expose<'a>(decl: &'a Decl, name: &Name) -> Option<&'a Give>
    ensures { option_copied result ≡ find (λ g. bytes_eq g.target_name name.now) decl.now.exposes }
{
    decl.exposes
        .as_slice()
        .iter()
        .find(|give| give.target_name.as_str() == name.as_str())
}

/// The first of these gives that has that kind, and that name at its target.
pub(crate) fn give<'a>(gives: &'a [Give], kind: Kind, name: &Name) -> Option<&'a Give>
    ensures { option_copied result ≡ spec.give_of gives.now kind name.now }
{
    gives.iter().find(|give| is_kind(give.kind, kind) && give.target_name.as_str() == name.as_str())
}

/// The first expose of that kind and target name, if its index is told as this one. Which one an
/// index of 2^32 - 1 tells has to be looked for.
pub(crate) fn exposed<'a>(decl: &'a Decl, kind: Kind, name: &Name, index: u32) -> Option<&'a Give>
    ensures { option_map told_index (expose_index decl.now kind name.now) ≡ Some index
        → option_copied result ≡ spec.give_of decl.now.exposes kind name.now }
{
    if index < u32::MAX {
        return decl.exposes.get(index as usize);
    }
    give(decl.exposes.as_slice(), kind, name)
}

/// The first capability of that kind and name, if its index is told as this one. Which one an index
/// of 2^32 - 1 tells has to be looked for.
pub(crate) fn capability<'a>(
    decl: &'a Decl,
    kind: Kind,
    name: &Name,
    index: u32,
) -> Option<&'a Capability>
    ensures { option_map told_index (capability_index decl.now kind name.now) ≡ Some index
        → option_copied result ≡ spec.capability_of decl.now kind name.now }
{
    if index < u32::MAX {
        return decl.capabilities.get(index as usize);
    }
    search_capability(decl, kind, name)
}

/// The first capability of that kind and name.
fn search_capability<'a>(decl: &'a Decl, kind: Kind, name: &Name) -> Option<&'a Capability>
    ensures { option_copied result ≡ spec.capability_of decl.now kind name.now }
{
    decl.capabilities.as_slice().iter().find(|capability| is_kind(capability.kind, kind)
        && capability.name.as_str() == name.as_str())
}

/// The first offer of that kind to the child, or to its collection, that has that name there, if
/// its index is told as this one. Which one an index of 2^32 - 1 tells has to be looked for.
pub(crate) fn offer<'a>(
    decl: &'a Decl,
    child: &ChildName,
    kind: Kind,
    name: &Name,
    index: u32,
) -> Option<&'a Offer>
    ensures { option_map told_index (offer_index decl.now kind name.now child.now) ≡ Some index
        → option_copied result ≡ spec.offer_of decl.now child.now kind name.now }
{
    if index < u32::MAX {
        return decl.offers.get(index as usize);
    }
    search_offer(decl, child, kind, name)
}

/// The first offer of that kind to the child, or to its collection, that has that name there.
fn search_offer<'a>(decl: &'a Decl, child: &ChildName, kind: Kind, name: &Name) -> Option<&'a Offer>
    ensures { option_copied result ≡ spec.offer_of decl.now child.now kind name.now }
{
    decl.offers
        .as_slice()
        .iter()
        .find(|offer| is_offer_to(offer, child, kind, name))
}

/// Whether the offer is to the child or to its collection, and has that kind and name there.
fn is_offer_to(offer: &Offer, child: &ChildName, kind: Kind, name: &Name) -> bool
    ensures { result ≡ spec.is_offer_to child.now kind name.now offer.now }
{
    offer.to.as_str() == target(child).as_str()
        && (is_kind(offer.give.kind, kind) && offer.give.target_name.as_str() == name.as_str())
}

/// The name that an offer to the child is to: that of its collection, if it is in one, else its
/// own.
fn target(child: &ChildName) -> &Name
    ensures { result.now ≡ target_of child.now }
{
    match &child.coll {
        Some(coll) => coll,
        None => &child.name,
    }
}

/// Whether the kinds are the same.
fn is_kind(a: Kind, b: Kind) -> bool
    ensures { result ≡ same.same_kind a b }
{
    a == b
}
