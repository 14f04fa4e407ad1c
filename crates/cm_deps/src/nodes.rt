//! The nodes of a realm graph, and their numbers.

ghost use Rattle.std.specs.Prelude.{◌≡◌, ◌||◌, false, map, IfOk, OnOk, IfSome, IfNone};
ghost use Rattle.std.specs.List.{list_any};
ghost use Rattle.std.specs.BTreeSet as set;
ghost use Rattle.cm_decl.specs.declared.node.Node.{Node as OneNode};
ghost use Rattle.cm_decl.specs.Graph.{is_node, static_node, dynamic_node};
ghost use Rattle.cm_decl.specs.NodeOrder.{node_cmp};
ghost use Rattle.cm_decl.specs.Same.{same_node};
ghost use Rattle.cm_deps.specs.Nodes.{IsNodes, IsNodeNumber, IsIncreasing};

use cm_decl::{Child, Decl, DynChild, Node};
use cm_names::{ChildName, Memory};
use std::alloc::Global;
use std::collections::BTreeSet;

/// The component itself, its declared children and these children of its collections, each once,
/// in increasing order.
pub(crate) fn sorted_nodes(
    alloc: Global,
    decl: &Decl,
    dynamic: &[DynChild],
) -> Result<Vec<Node>, Memory>
    ensures { IfOk result (λ nodes. IsNodes (is_node decl.now dynamic.now) nodes.items) }
{
    let mut nodes = BTreeSet::new(alloc);
    nodes.insert(Node::Own)?;
    put_declared(decl.children.as_slice(), &mut nodes)?;
    put_dynamic(dynamic, &mut nodes)?;
    Ok(nodes.into_iter().collect(alloc)?)
}

/// Puts the nodes of declared children into the set.
fn put_declared(children: &[Child], nodes: &mut BTreeSet<Node>) -> Result<(), Memory>
    ensures { OnOk result ((x : OneNode) → set.contains node_cmp nodes.new x ≡
        (set.contains node_cmp nodes.old x ||
        list_any (λ y. same_node y x) (map static_node children.now))) }
{
    for child in children {
        let name = ChildName {
            coll: None,
            name: child.name.clone()?,
        };
        nodes.insert(Node::Child(name))?;
    }
    Ok(())
}

/// Puts the nodes of children of collections into the set.
fn put_dynamic(children: &[DynChild], nodes: &mut BTreeSet<Node>) -> Result<(), Memory>
    ensures { OnOk result ((x : OneNode) → set.contains node_cmp nodes.new x ≡
        (set.contains node_cmp nodes.old x ||
        list_any (λ y. same_node y x) (map dynamic_node children.now))) }
{
    for child in children {
        let name = child.name.clone()?;
        nodes.insert(Node::Child(name))?;
    }
    Ok(())
}

/// The number of a node, if it is one of these.
pub(crate) fn number(nodes: &[Node], node: &Node) -> Option<usize>
    ensures some { IfSome result (IsNodeNumber nodes.now node.now) }
    ensures none { IsIncreasing nodes.now →
        IfNone result (list_any (same_node node.now) nodes.now ≡ false) }
{
    nodes.binary_search(node).ok()
}
