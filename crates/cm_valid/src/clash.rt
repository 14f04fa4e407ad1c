//! The first of the earlier rows of a section that a row clashes with.

ghost use Rattle.std.specs.Prelude.{◌≡◌, ◌||◌, position};
ghost use Rattle.std.specs.Str.{bytes_eq};
ghost use Rattle.cm_decl.specs.Clashes as spec;
ghost use Rattle.cm_decl.specs.Rules as rule;

use cm_decl::{Capability, Child, Collection, Give, Offer, Usage};
use cm_names::{CapPath, Name};

/// The first of the children that has the name.
pub(crate) fn child_named(children: &[Child], name: &Name) -> Option<usize>
    ensures { result ≡ position (λ child. bytes_eq child.name name.now) children.now }
{
    children.iter().position(|child| child.name == *name)
}

/// The first of the collections that has the name.
pub(crate) fn collection_named(collections: &[Collection], name: &Name) -> Option<usize>
    ensures { result ≡ position (λ collection. bytes_eq collection.name name.now) collections.now }
{
    collections
        .iter()
        .position(|collection| collection.name == *name)
}

/// The first of the capabilities, of whatever kind, that has the name.
pub(crate) fn capability_named(capabilities: &[Capability], name: &Name) -> Option<usize>
    ensures { result ≡ position (λ capability. bytes_eq capability.name name.now) capabilities.now }
{
    capabilities
        .iter()
        .position(|capability| capability.name == *name)
}

/// The first of the uses that has the path.
pub(crate) fn same_path(uses: &[Usage], path: &CapPath) -> Option<usize>
    ensures { result ≡ position (λ usage. bytes_eq usage.path path.now) uses.now }
{
    uses.iter().position(|usage| usage.path == *path)
}

/// The first of the uses whose path lies inside the path, or the other way round.
pub(crate) fn nested_path(uses: &[Usage], path: &CapPath) -> Option<usize>
    ensures { result ≡ position (λ usage.
        (rule.is_inside usage.path path.now || rule.is_inside path.now usage.path)) uses.now }
{
    uses.iter().position(|usage| are_nested(&usage.path, path))
}

/// Whether one of the paths lies inside the other.
fn are_nested(first: &CapPath, second: &CapPath) -> bool
    ensures { result ≡
        (rule.is_inside first.now second.now || rule.is_inside second.now first.now) }
{
    is_inside(first, second) || is_inside(second, first)
}

/// Whether the first path lies inside the second one.
fn is_inside(path: &CapPath, outer: &CapPath) -> bool
    ensures { result ≡ rule.is_inside path.now outer.now }
{
    path.is_inside(outer)
}

/// The first of the offers, of whatever kind, that has the target and the target name of this.
pub(crate) fn same_target(offers: &[Offer], this: &Offer) -> Option<usize>
    ensures { result ≡ position (λ offer. spec.same_target offer this.now) offers.now }
{
    offers.iter().position(|offer| offer.to == this.to
        && offer.give.target_name == this.give.target_name)
}

/// The first of the exposes, of whatever kind, that has the target name.
pub(crate) fn expose_named(exposes: &[Give], name: &Name) -> Option<usize>
    ensures { result ≡ position (λ give. bytes_eq give.target_name name.now) exposes.now }
{
    exposes.iter().position(|give| give.target_name == *name)
}
