//! What a realm graph comes to.

ghost use Rattle.std.specs.Prelude.{◌≡◌, ◌<◌, ◌∷◌, ◌++◌, [], ℕ, map, length, get_or, IsTrue, IfOk};
ghost use Rattle.cm_deps.specs.Edges.{holds};
ghost use Rattle.cm_deps.specs.Nodes.{at};
ghost use Rattle.cm_deps.specs.Outcome.{IsOutcome};

use crate::order::{Shape, arrange};
use crate::realm::{NumberedRealm, number_realm};
use cm_decl::{Decl, DynChild, Node};
use cm_names::{List, Memory};
use std::alloc::Global;

/// An order of the nodes of a realm graph, or why there is none.
#[derive(Debug, Drop, Clone, PartialEq, Eq)]
pub enum Order {
    /// Each node once, each before all nodes that it depends on.
    Ordered(List<Node>),
    /// The picked cycle: each node depends on the next, and the last is the first. It begins with
    /// its least node.
    Cycle(List<Node>),
}

/// A copy of the node with this number. `Err` comes where memory runs out.
fn node_at(nodes: &[Node], number: usize) -> Result<Node, Memory>
    requires { number < length nodes.now }
    ensures { IfOk result (λ node. node ≡ at nodes.now number) }
{
    Ok(nodes[number].clone()?)
}

/// Copies of the nodes with these numbers. `Err` comes where memory runs out.
pub(crate) fn nodes_at(
    alloc: Global,
    nodes: &[Node],
    numbers: &[usize],
) -> Result<List<Node>, Memory>
    requires { (i : ℕ) → IsTrue (holds numbers.now i) → i < length nodes.now }
    ensures { IfOk result (λ list. list ≡ map (at nodes.now) numbers.now) }
{
    let mut list = List::new(alloc);
    for number in numbers {
        list.push(node_at(nodes, *number)?)?;
    }
    Ok(list)
}

/// The nodes of a loop of numbers, and the first once more.
pub(crate) fn cycle_at(alloc: Global, nodes: &[Node], ring: &[usize]) -> Result<List<Node>, Memory>
    requires some { 0 < length ring.now }
    requires inside { (i : ℕ) → IsTrue (holds ring.now i) → i < length nodes.now }
    ensures { IfOk result (λ list. list ≡
        map (at nodes.now) ring.now ++ at nodes.now (get_or ring.now 0 0) ∷ []) }
{
    let mut cycle = nodes_at(alloc, nodes, ring)?;
    cycle.push(node_at(nodes, ring[0])?)?;
    Ok(cycle)
}

/// An order of the realm graph of a declaration and of children that were created in its
/// collections, its implied edges included, or the picked cycle of its strong edges.
///
/// The time is n log n and the number of edges, where n is the number of nodes. `Err` where memory
/// runs out.
///
/// That a component stops before what it depends on is the shutdown order of Fuchsia's component
/// framework documentation (fuchsia.dev). Which cycle is picked, and that each child on which the
/// component itself doesn't depend stops before the component, are this project's own.
pub fn order_of(alloc: Global, decl: &Decl, dynamic: &[DynChild]) -> Result<Order, Memory>
    ensures { IfOk result (IsOutcome decl.now dynamic.now) }
{
    let NumberedRealm {
        nodes,
        offered: _,
        after,
    } = number_realm(alloc, decl, dynamic)?;
    match arrange(alloc, after.as_slice())? {
        Shape::Ordered { full: _, order } => {
            Ok(Order::Ordered(nodes_at(alloc, nodes.as_slice(), order.as_slice())?))
        }
        Shape::Ring(ring) => Ok(Order::Cycle(cycle_at(alloc, nodes.as_slice(), ring.as_slice())?)),
    }
}
