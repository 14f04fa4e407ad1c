//! Realm graphs.

ghost use Rattle.std.specs.Prelude.{◌≡◌, ◌&&◌, IsTrue, ◌↔◌, IfOk, position, List as Seq};
ghost use Rattle.std.specs.List.{list_any};
ghost use Rattle.cm_decl.specs.declared.decl.Decl.{Decl as Declaration};
ghost use Rattle.cm_decl.specs.declared.node.DynChild.{DynChild as Dynamic};
ghost use Rattle.cm_decl.specs.Graph.{is_strong as passes_strong};
ghost use Rattle.cm_decl.specs.GraphInside.{DependsOn, WouldDepend};
ghost use Rattle.cm_decl.specs.Same.{same_node};
ghost use Rattle.cm_deps.specs.Edges.{holds, row};
ghost use Rattle.cm_deps.specs.Graph.{IsGraphOf};
ghost use Rattle.cm_deps.specs.LeadsToLeast.{leads_to, number_of, source_leads};
ghost use Rattle.cm_deps.specs.Outcome.{IsOutcome};
ghost use Rattle.cm_deps.specs.Sources.{numbers_at};

use crate::closure::closure;
use crate::nodes::number;
use crate::order::{Shape, arrange};
use crate::outcome::{Order, cycle_at, nodes_at};
use crate::realm::{NumberedRealm, number_realm};
use crate::sources::is_strong;
use cm_decl::{Decl, DynChild, Give, Node, Origin};
use cm_names::{ChildName, List, Memory, Name};
use std::alloc::Global;
use std::collections::BTreeMap;

/// The realm graph of a component: which of its children and itself depend on which, and so in
/// which order they stop.
///
/// Its nodes are the component itself, each declared child and each listed child of a collection.
/// A child depends on the source of each strong offer to it, to its collection or to it alone, if
/// the source is a node, and the component itself on each child that it strongly uses from. Where
/// that makes no cycle, each child on which the component doesn't depend, directly or through
/// others, depends on the component: such edges are called implied, and they are this project's
/// own. The others are those of the shutdown order of Fuchsia's component framework documentation
/// (fuchsia.dev).
#[derive(Drop)]
pub struct Graph {
    nodes: Vec<Node>,
    offered: BTreeMap<Name, List<usize>>,
    reached: Vec<List<usize>>,
    order: Order,
}

impl Graph {
    /// The realm graph of a declaration and of children that were created in its collections.
    ///
    /// It keeps for each node all nodes that it depends on: that these can be asked for without
    /// memory is this project's own. [`order_of`](crate::order_of) does without them. `Err` where
    /// memory runs out.
    pub fn of(alloc: Global, decl: &Decl, dynamic: &[DynChild]) -> Result<Graph, Memory>
        ensures { IfOk result (IsGraphOf decl.now dynamic.now) }
    {
        let NumberedRealm {
            nodes,
            offered,
            after,
        } = number_realm(alloc, decl, dynamic)?;
        match arrange(alloc, after.as_slice())? {
            Shape::Ordered { full, order } => {
                let order = nodes_at(alloc, nodes.as_slice(), order.as_slice())?;
                let reached = closure(alloc, full.as_slice())?;
                Ok(Graph {
                    nodes,
                    offered,
                    reached,
                    order: Order::Ordered(order),
                })
            }
            Shape::Ring(ring) => {
                let cycle = cycle_at(alloc, nodes.as_slice(), ring.as_slice())?;
                let reached = closure(alloc, after.as_slice())?;
                Ok(Graph {
                    nodes,
                    offered,
                    reached,
                    order: Order::Cycle(cycle),
                })
            }
        }
    }

    /// An order of all nodes, or the picked cycle.
    pub fn outcome(&self) -> &Order
        ensures { (d : Declaration) (dynamic : Seq Dynamic) → IsGraphOf d dynamic self.now →
            IsOutcome d dynamic result.now }
    {
        &self.order
    }

    /// Whether x depends on y, directly or through others, the implied edges included. Nothing
    /// depends on what is no node of the graph, and that on nothing.
    pub fn depends(&self, x: &Node, y: &Node) -> bool
        ensures { (d : Declaration) (dynamic : Seq Dynamic) → IsGraphOf d dynamic self.now →
            IsTrue result ↔ DependsOn d dynamic x.now y.now }
    {
        let Some(from) = number(self.nodes.as_slice(), x) else {
            return false;
        };
        let Some(to) = number(self.nodes.as_slice(), y) else {
            return false;
        };
        self.reaches(from, to)
    }

    /// Whether the node of a number depends on that of another.
    fn reaches(&self, from: usize, to: usize) -> bool
        ensures { result ≡ holds (row self.now.reached.items from) to }
    {
        match self.reached.get(from) {
            None => false,
            Some(reached) => reached.as_slice().contains(&to),
        }
    }

    /// Whether the node of a number is that of another or depends on it.
    fn leads(&self, from: usize, to: usize) -> bool
        ensures { result ≡ leads_to self.now.reached.items to from }
    {
        from == to || self.reaches(from, to)
    }

    /// Whether one more child of the collection with these offers of its own would depend on y,
    /// directly or through others, if no node depended on it. Where the graph has no cycle, this is
    /// what [`Graph::depends`] tells of the graph with that child
    /// ([`laws`](crate::laws::would_depend_is_one_more)).
    pub fn would_depend(&self, coll: &Name, gives: &[Give], y: &Node) -> bool
        ensures { (d : Declaration) (dynamic : Seq Dynamic) → IsGraphOf d dynamic self.now →
            IsTrue result ↔ WouldDepend d dynamic coll.now gives.now y.now }
    {
        let Some(to) = number(self.nodes.as_slice(), y) else {
            return false;
        };
        if self.leads(0, to) {
            return true;
        }
        if self.offer_leads(coll, to) {
            return true;
        }
        self.gives_lead(gives, to)
    }

    /// Whether a source of the strong offers to a name is the node of a number or depends on it.
    fn offer_leads(&self, name: &Name, to: usize) -> bool
        ensures { result ≡
            list_any (leads_to self.now.reached.items to) (numbers_at self.now.offered name.now) }
    {
        match self.offered.get(name) {
            None => false,
            Some(numbers) => numbers.as_slice().iter().any(|from| self.leads(*from, to)),
        }
    }

    /// Whether a source of what is given strongly is the node of a number or depends on it.
    fn gives_lead(&self, gives: &[Give], to: usize) -> bool
        ensures { result ≡ list_any (λ give. passes_strong give.dependency &&
            source_leads self.now.nodes.items self.now.reached.items to give.from) gives.now }
    {
        gives.iter().any(|give| self.give_leads(give, to))
    }

    /// Whether it is given strongly, and the node of its source is that of a number or depends on
    /// it.
    fn give_leads(&self, give: &Give, to: usize) -> bool
        ensures { result ≡ (passes_strong give.now.dependency &&
            source_leads self.now.nodes.items self.now.reached.items to give.now.from) }
    {
        is_strong(give.dependency) && self.source_leads(&give.from, to)
    }

    /// Whether the node that a source is, if it is one, is that of a number or depends on it.
    fn source_leads(&self, source: &Origin, to: usize) -> bool
        ensures { result ≡ source_leads self.now.nodes.items self.now.reached.items to source.now }
    {
        match self.source_number(source) {
            None => false,
            Some(from) => self.leads(from, to),
        }
    }

    /// The number of the node that a source is, if it is one.
    fn source_number(&self, source: &Origin) -> Option<usize>
        ensures { result ≡ number_of self.now.nodes.items source.now }
    {
        match source {
            Origin::Own => Some(0),
            Origin::Child(child) => self.child_number(child),
            Origin::Parent | Origin::Framework | Origin::Void => None,
        }
    }

    /// The number of a child's node, if the graph has it.
    fn child_number(&self, child: &ChildName) -> Option<usize>
        ensures { result ≡ position (λ y. same_node y (Node.Child child.now)) self.now.nodes.items }
    {
        self.nodes.iter().position(|node| is_of_child(node, child))
    }
}

/// Whether the node is that child.
fn is_of_child(node: &Node, child: &ChildName) -> bool
    ensures { result ≡ same_node node.now (Node.Child child.now) }
{
    match node {
        Node::Own => false,
        Node::Child(name) => *name == *child,
    }
}
