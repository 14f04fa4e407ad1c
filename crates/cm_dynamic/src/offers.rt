//! The faults of offers that are made to a child when it is created.

ghost use Rattle.std.specs.Prelude.{◌≡◌, ◌&&◌, ◌||◌, option_map};
ghost use Rattle.std.specs.List.{list_any};
ghost use Rattle.std.specs.Str.{bytes_eq};
ghost use Rattle.cm_decl.specs.Dynamic as spec;
ghost use Rattle.cm_decl.specs.Breaks.{has_undeclared_source};
ghost use Rattle.cm_decl.specs.Rules as rule;
ghost use Rattle.cm_decl.specs.Same as same;
ghost use Rattle.cm_world.specs.Create.{is_child_there};

use cm_decl::{Capability, Decl, Give, Kind, Offer, Origin};
use cm_names::{ChildName, Name};
use cm_world::View;

/// The first bad offer to a new child of a collection: its index and the number of its fault.
pub(crate) fn bad_give<V: View>(
    view: &V,
    decl: &Decl,
    parent: u64,
    coll: &Name,
    gives: &[Give],
) -> Option<(usize, u8)>
    ensures { result ≡ spec.bad_give decl.now (is_child_there (V.rows view.now) parent)
        coll.now gives.now }
{
    for (index, give) in gives.iter().enumerate() {
        if let Some(number) = give_fault(view, decl, parent, coll, &gives[..index], give) {
            return Some((index, number));
        }
    }
    None
}

/// The number of the first fault of an offer, behind the offers that stand before it:
///
/// - 51 where its source is a child that isn't there;
/// - 52 where the parent doesn't declare what is offered from itself, or a directory is offered
///   from the framework;
/// - 54 where the collection or an earlier offer has its target name;
/// - 57 where it is from void and its availability doesn't allow that.
fn give_fault<V: View>(
    view: &V,
    decl: &Decl,
    parent: u64,
    coll: &Name,
    before: &[Give],
    give: &Give,
) -> Option<u8>
    ensures { result ≡ option_map rule.number_of (spec.give_fault decl.now
        (is_child_there (V.rows view.now) parent) coll.now before.now give.now) }
{
    if is_unknown(view, decl, parent, &give.from) {
        return Some(51);
    }
    if is_undeclared(decl, give) {
        return Some(52);
    }
    if is_repeated(decl, coll, before, give) {
        return Some(54);
    }
    if is_required_void(give) {
        return Some(57);
    }
    None
}

/// Whether the source is a child that isn't there.
fn is_unknown<V: View>(view: &V, decl: &Decl, parent: u64, from: &Origin) -> bool
    ensures { result ≡ rule.is_unknown (spec.is_there decl.now
        (is_child_there (V.rows view.now) parent)) from.now }
{
    match from {
        Origin::Child(child) => !is_there(view, decl, parent, child),
        _ => false,
    }
}

/// Whether a child is declared, or was created in a collection and isn't being destroyed.
fn is_there<V: View>(view: &V, decl: &Decl, parent: u64, child: &ChildName) -> bool
    ensures { result ≡ spec.is_there decl.now (is_child_there (V.rows view.now) parent) child.now }
{
    match child.coll {
        None => is_declared(decl, &child.name),
        Some(_) => view.child(parent, child).is_some(),
    }
}

/// Whether a child of that name is declared.
fn is_declared(decl: &Decl, name: &Name) -> bool
    ensures { result ≡ list_any (λ k. bytes_eq k.name name.now) decl.now.children }
{
    decl.children
        .as_slice()
        .iter()
        .any(|child| child.name == *name)
}

/// Whether the source is the parent itself without such a capability, or the framework for a
/// directory.
fn is_undeclared(decl: &Decl, give: &Give) -> bool
    ensures { result ≡ has_undeclared_source decl.now give.now }
{
    match give.from {
        Origin::Own => !is_capability(decl, give.kind, &give.source_name),
        Origin::Framework => is_kind(give.kind, Kind::Directory),
        _ => false,
    }
}

/// Whether a capability of that kind and name is declared.
fn is_capability(decl: &Decl, kind: Kind, name: &Name) -> bool
    ensures { result ≡ rule.is_capability decl.now kind name.now }
{
    decl.capabilities
        .as_slice()
        .iter()
        .any(|capability| is_that(capability, kind, name))
}

/// Whether the capability has that kind and name.
fn is_that(capability: &Capability, kind: Kind, name: &Name) -> bool
    ensures { result ≡ (same.same_kind capability.now.kind kind
        && bytes_eq capability.now.name name.now) }
{
    is_kind(capability.kind, kind) && capability.name == *name
}

/// Whether the kinds are the same.
fn is_kind(a: Kind, b: Kind) -> bool
    ensures { result ≡ same.same_kind a b }
{
    a == b
}

/// Whether the declared offers to the collection, or the offers that stand before, have the
/// target name of an offer.
fn is_repeated(decl: &Decl, coll: &Name, before: &[Give], give: &Give) -> bool
    ensures { result ≡ (spec.is_offered decl.now coll.now give.now.target_name
        || list_any (λ h. bytes_eq h.target_name give.now.target_name) before.now) }
{
    is_offered(decl, coll, &give.target_name) || is_given(before, &give.target_name)
}

/// Whether something of that name is offered to the collection.
fn is_offered(decl: &Decl, coll: &Name, name: &Name) -> bool
    ensures { result ≡ spec.is_offered decl.now coll.now name.now }
{
    decl.offers
        .as_slice()
        .iter()
        .any(|offer| is_to(offer, coll, name))
}

/// Whether the offer is to the collection and has that name there.
fn is_to(offer: &Offer, coll: &Name, name: &Name) -> bool
    ensures { result ≡
        (bytes_eq offer.now.to coll.now && bytes_eq offer.now.give.target_name name.now) }
{
    offer.to == *coll && offer.give.target_name == *name
}

/// Whether one of the offers has that target name.
fn is_given(gives: &[Give], name: &Name) -> bool
    ensures { result ≡ list_any (λ h. bytes_eq h.target_name name.now) gives.now }
{
    gives.iter().any(|give| give.target_name == *name)
}

/// Whether a capability that has to be there is from void.
fn is_required_void(give: &Give) -> bool
    ensures { result ≡ rule.is_required_void give.now }
{
    match give.from {
        Origin::Void => !give.availability.allows_void(),
        _ => false,
    }
}
