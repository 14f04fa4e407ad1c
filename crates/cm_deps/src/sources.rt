//! Which nodes a node strongly depends on.

ghost use Rattle.std.specs.Prelude.{◌≡◌, ◌∷◌, [], ℕ, length, IfOk, OnOk, List as Seq, false};
ghost use Rattle.std.specs.Str.{bytes_eq};
ghost use Rattle.cm_decl.specs.declared.decl.Decl.{Decl as Declaration};
ghost use Rattle.cm_decl.specs.Graph as spec;
ghost use Rattle.cm_deps.specs.Nodes.{IsIncreasing};
ghost use Rattle.cm_deps.specs.Sources.{IsEdges, IsOffered, Lists, ListsMore};
ghost use Rattle.cm_deps.specs.Sources.{numbers_at, strong_sources};

use crate::nodes::number;
use cm_decl::{Decl, DynChild, Give, Node, Offer, Origin};
use cm_names::{ChildName, Dependency, List, Memory, Name};
use std::alloc::Global;
use std::collections::BTreeMap;

/// The node that a source is, if it is one.
fn node_of(source: &Origin) -> Result<Option<Node>, Memory>
    ensures { IfOk result (λ node. node ≡ spec.node_of source.now) }
{
    match source {
        Origin::Own => Ok(Some(Node::Own)),
        Origin::Child(child) => Ok(Some(Node::Child(child.clone()?))),
        Origin::Parent | Origin::Framework | Origin::Void => Ok(None),
    }
}

/// Whether a dependency is strong: the one that depends has to stop first.
pub(crate) fn is_strong(dependency: Dependency) -> bool
    ensures { result ≡ spec.is_strong dependency }
{
    dependency == Dependency::Strong
}

/// Puts the number of the node that a source is into the list, if it is one.
fn add_source(nodes: &[Node], source: &Origin, numbers: &mut List<usize>) -> Result<(), Memory>
    requires { IsIncreasing nodes.now }
    ensures { OnOk result (ListsMore nodes.now (source.now ∷ []) numbers.old numbers.new) }
{
    let Some(node) = node_of(source)? else {
        return Ok(());
    };
    match number(nodes, &node) {
        None => Ok(()),
        Some(place) => numbers.push(place),
    }
}

/// Puts the numbers of the sources of what is given strongly into the list.
fn add_gives(nodes: &[Node], gives: &[Give], numbers: &mut List<usize>) -> Result<(), Memory>
    requires { IsIncreasing nodes.now }
    ensures { OnOk result (ListsMore nodes.now (strong_sources gives.now) numbers.old numbers.new) }
{
    for give in gives {
        if is_strong(give.dependency) {
            add_source(nodes, &give.from, numbers)?;
        }
    }
    Ok(())
}

/// The numbers of the children that the component itself strongly uses.
fn own_numbers(alloc: Global, nodes: &[Node], decl: &Decl) -> Result<List<usize>, Memory>
    requires { IsIncreasing nodes.now }
    ensures { IfOk result (Lists nodes.now (spec.own_sources decl.now)) }
{
    let mut numbers = List::new(alloc);
    for usage in decl.uses.as_slice() {
        if is_strong(usage.dependency) && is_from_child(&usage.from) {
            add_source(nodes, &usage.from, &mut numbers)?;
        }
    }
    Ok(numbers)
}

/// Whether the source is a child.
fn is_from_child(source: &Origin) -> bool
    ensures { result ≡ spec.is_from_child source.now }
{
    matches!(source, Origin::Child(_))
}

/// For each name that something is strongly offered to, the numbers of the sources.
pub(crate) fn offered(
    alloc: Global,
    nodes: &[Node],
    offers: &[Offer],
) -> Result<BTreeMap<Name, List<usize>>, Memory>
    requires { IsIncreasing nodes.now }
    ensures { IfOk result (IsOffered nodes.now offers.now) }
{
    let mut numbers = BTreeMap::new(alloc);
    for offer in offers {
        if is_strong(offer.give.dependency) {
            add_offer(alloc, nodes, offer, &mut numbers)?;
        }
    }
    Ok(numbers)
}

/// Puts the number of the source of an offer into the list of its target.
fn add_offer(
    alloc: Global,
    nodes: &[Node],
    offer: &Offer,
    numbers: &mut BTreeMap<Name, List<usize>>,
) -> Result<(), Memory>
    requires { IsIncreasing nodes.now }
    ensures here { OnOk result (ListsMore nodes.now (offer.now.give.from ∷ [])
        (numbers_at numbers.old offer.now.to) (numbers_at numbers.new offer.now.to)) }
    ensures others { OnOk result ((name : Seq ℕ) → (bytes_eq offer.now.to name ≡ false) →
        numbers_at numbers.new name ≡ numbers_at numbers.old name) }
{
    let mut list = numbers.remove(&offer.to).unwrap_or(List::new(alloc));
    add_source(nodes, &offer.give.from, &mut list)?;
    numbers.insert(offer.to.clone()?, list)?;
    Ok(())
}

/// The numbers that a node strongly depends on by what the declaration says.
fn declared_numbers(
    alloc: Global,
    nodes: &[Node],
    decl: &Decl,
    offered: &BTreeMap<Name, List<usize>>,
    node: &Node,
) -> Result<List<usize>, Memory>
    requires increasing { IsIncreasing nodes.now }
    requires offered { IsOffered nodes.now decl.now.offers offered.now }
    ensures { IfOk result (Lists nodes.now (spec.sources_of decl.now [] node.now)) }
{
    match node {
        Node::Own => own_numbers(alloc, nodes, decl),
        Node::Child(child) => offered_numbers(alloc, offered, target_of(child)),
    }
}

/// The name that an offer to a child is to: that of its collection, if it is in one, else its own.
fn target_of(child: &ChildName) -> &Name
    ensures { result.now ≡ spec.target_of child.now }
{
    match &child.coll {
        None => &child.name,
        Some(coll) => coll,
    }
}

/// A copy of the list at a name.
fn offered_numbers(
    alloc: Global,
    offered: &BTreeMap<Name, List<usize>>,
    name: &Name,
) -> Result<List<usize>, Memory>
    ensures { IfOk result (λ numbers. numbers ≡ numbers_at offered.now name.now) }
{
    match offered.get(name) {
        None => Ok(List::new(alloc)),
        Some(numbers) => Ok(numbers.clone()?),
    }
}

/// For each node the numbers of the nodes that it strongly depends on by what the declaration
/// says.
pub(crate) fn declared_edges(
    alloc: Global,
    nodes: &[Node],
    decl: &Decl,
    offered: &BTreeMap<Name, List<usize>>,
) -> Result<Vec<List<usize>>, Memory>
    requires increasing { IsIncreasing nodes.now }
    requires offered { IsOffered nodes.now decl.now.offers offered.now }
    ensures { IfOk result (λ rows. IsEdges decl.now [] nodes.now rows.items) }
{
    let mut rows = Vec::new(alloc);
    for node in nodes {
        rows.push(declared_numbers(alloc, nodes, decl, offered, node)?)?;
    }
    Ok(rows)
}

/// Adds to the list of each child that was created in a collection the sources of what it was
/// given.
pub(crate) fn add_given(
    nodes: &[Node],
    dynamic: &[DynChild],
    rows: &mut Vec<List<usize>>,
) -> Result<(), Memory>
    requires increasing { IsIncreasing nodes.now }
    requires size { length rows.old.items ≡ length nodes.now }
    ensures { (d : Declaration) → IsEdges d [] nodes.now rows.old.items →
        OnOk result (IsEdges d dynamic.now nodes.now rows.new.items) }
{
    for child in dynamic {
        let node = Node::Child(child.name.clone()?);
        if let Some(place) = number(nodes, &node) {
            add_gives(nodes, child.gives.as_slice(), &mut rows[place])?;
        }
    }
    Ok(())
}
