//! Nodes of the realm graph of a component.

ghost use Rattle.std.specs.Prelude.{◌≡◌, ◌≤◌, length, slice_get};
ghost use Rattle.std.specs.Ordering.{nat_cmp};
ghost use Rattle.std.specs.Cmp.Lexicographic.{slice_cmp};
ghost use Rattle.cm_names.specs.Child.{child_text};
ghost use Rattle.cm_decl.specs.NodeOrder.{coll_length};

use crate::Give;
use cm_names::{ChildName, List, Plain};
use std::cmp::Ordering;
use std::fmt;

/// A child that was created in a collection, and the offers that were made to it alone.
///
/// This is what `CreateChild` of `fuchsia.component.RealmGraph` takes.
#[derive(Debug, Clone, PartialEq, Eq)]
pub struct DynChild {
    /// Its collection and its name there.
    pub name: ChildName,
    /// What it was offered when it was created.
    pub gives: List<Give>,
}

impl Drop for DynChild {
    /// Called where the value goes: gives back the memory of its parts.
    fn drop(self) {
        let DynChild { name: _, gives: _ } = self;
    }
}

impl Plain for DynChild {
    ghost use Rattle.std.proofs.Common.{rules};

    ghost exact = { Prim.search rules };
}

/// A node of the realm graph of a component: the component itself, or one of its children.
///
/// It is written `self`, or as the child's name is: `name` or `collection:name`. Nodes are
/// ordered with `Own` first, then the children by how they are written, byte by byte.
///
/// That a component stops before what it strongly depends on is the rule of Fuchsia's component
/// lifecycle documentation (fuchsia.dev). How nodes are written and ordered is this project's own.
#[derive(Debug, Clone)]
pub enum Node {
    /// The component itself.
    Own,
    /// One of its children.
    Child(ChildName),
}

impl Drop for Node {
    /// Called where the value goes: gives back the memory of its parts.
    fn drop(self) {
        match self {
            Node::Own => {}
            Node::Child(_) => {}
        }
    }
}

impl Plain for Node {
    ghost use Rattle.std.proofs.Common.{rules};

    ghost exact = { Prim.search rules };
}

impl fmt::Display for Node {
    ghost use Rattle.std.specs.Prelude.{Some};
    ghost use Rattle.cm_decl.specs.Words.{node_text};

    ghost output = { λ node. Some (node_text node) };

    /// Writes `self`, or the child's name as monikers have it.
    fn fmt<W: fmt::Write>(&self, f: &mut fmt::Formatter<W>) -> fmt::Result {
        match self {
            Node::Own => f.write_str("self"),
            Node::Child(child) => write!(f, "{child}"),
        }
    }
}

impl PartialEq for Node {
    ghost use Rattle.std.specs.Ordering.{eq_by_cmp};
    ghost use Rattle.std.specs.Cmp.{partial_equiv_from_equiv};
    ghost use Rattle.std.proofs.lemmas.Cmp.{eq_by_cmp_equiv};
    ghost use Rattle.cm_decl.specs.NodeOrder.{node_cmp};
    ghost use Rattle.cm_decl.specs.NodeOrderInside.{node_cmp_total};

    ghost eq = { eq_by_cmp node_cmp };

    ghost laws = { partial_equiv_from_equiv (eq_by_cmp_equiv node_cmp_total) };

    /// Equal exactly where the order says so.
    fn eq(&self, other: &Node) -> bool {
        self.cmp(other) == Ordering::Equal
    }
}

impl Eq for Node {
    ghost use Rattle.std.proofs.lemmas.Cmp.{eq_by_cmp_equiv};
    ghost use Rattle.cm_decl.specs.NodeOrderInside.{node_cmp_total};

    ghost laws = { eq_by_cmp_equiv node_cmp_total };
}

impl PartialOrd for Node {
    ghost use Rattle.std.specs.Ordering.{as_partial_cmp};
    ghost use Rattle.std.specs.Cmp.{partial_order_from_total};
    ghost use Rattle.cm_decl.specs.NodeOrder.{node_cmp};
    ghost use Rattle.cm_decl.specs.NodeOrderInside.{node_cmp_total};

    ghost partial_cmp = { as_partial_cmp node_cmp };

    ghost laws = { partial_order_from_total node_cmp_total };

    /// The order is total, so there always is an answer.
    fn partial_cmp(&self, other: &Node) -> Option<Ordering> {
        Some(self.cmp(other))
    }
}

impl Ord for Node {
    ghost use Rattle.std.proofs.Common.{refl};
    ghost use Rattle.cm_decl.specs.NodeOrder.{node_cmp};
    ghost use Rattle.cm_decl.specs.NodeOrderInside.{node_cmp_total};

    ghost cmp = { node_cmp };

    ghost total = { node_cmp_total };

    ghost matches_partial_cmp = { λ x y. refl };

    ghost matches_eq = { λ x y. refl };

    /// The order in which nodes stand in reports: the component itself, then its children by their
    /// texts.
    fn cmp(&self, other: &Node) -> Ordering {
        match (self, other) {
            (Node::Own, Node::Own) => Ordering::Equal,
            (Node::Own, Node::Child(_)) => Ordering::Less,
            (Node::Child(_), Node::Own) => Ordering::Greater,
            (Node::Child(a), Node::Child(b)) => {
                cmp_texts(a, b).then(coll_len(a).cmp(&coll_len(b)))
            }
        }
    }
}

/// How the names compare as they are written, byte by byte.
fn cmp_texts(a: &ChildName, b: &ChildName) -> Ordering
    ensures { result ≡ slice_cmp nat_cmp (child_text a.now) (child_text b.now) }
{
    let len = text_len(a);
    for index in 0..len {
        let order = byte_at(a, index).cmp(&byte_at(b, index));
        if order != Ordering::Equal {
            return order;
        }
    }
    byte_at(a, len).cmp(&byte_at(b, len))
}

/// The byte at `index` of the name as it is written.
fn byte_at(child: &ChildName, index: usize) -> Option<u8>
    ensures { result ≡ slice_get (child_text child.now) index }
{
    let name = child.name.as_str().as_bytes();
    match &child.coll {
        None => name.get(index).copied(),
        Some(coll) => {
            let coll = coll.as_str().as_bytes();
            if index < coll.len() {
                Some(coll[index])
            } else if index == coll.len() {
                Some(b':')
            } else {
                name.get(index - coll.len() - 1).copied()
            }
        }
    }
}

/// The length of the name as it is written.
fn text_len(child: &ChildName) -> usize
    ensures { result ≡ length (child_text child.now) }
{
    coll_len(child) + child.name.as_str().len()
}

/// The length of the collection and its colon; 0 for a child in no collection.
fn coll_len(child: &ChildName) -> usize
    ensures length { result ≡ coll_length child.now.coll }
    ensures bound { result ≤ 256 }
{
    match &child.coll {
        None => 0,
        Some(coll) => coll.as_str().len() + 1,
    }
}
