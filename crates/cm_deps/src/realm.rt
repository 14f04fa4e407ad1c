//! Realm graphs over numbers.

ghost use Rattle.std.specs.Prelude.{IfOk};
ghost use Rattle.cm_deps.specs.Numbered.{IsNumberedRealm};

use crate::nodes::sorted_nodes;
use crate::sources::{add_given, declared_edges, offered};
use cm_decl::{Decl, DynChild, Node};
use cm_names::{List, Memory, Name};
use std::alloc::Global;
use std::collections::BTreeMap;

/// The realm graph of a declaration and of children of its collections, in which each node goes
/// by its place among the nodes.
#[derive(Drop)]
pub struct NumberedRealm {
    /// The nodes in increasing order.
    pub nodes: Vec<Node>,
    /// For each name that something is strongly offered to, the numbers of the sources.
    pub offered: BTreeMap<Name, List<usize>>,
    /// For each node the numbers of the nodes that it strongly depends on.
    pub after: Vec<List<usize>>,
}

/// The realm graph of a declaration and of children of its collections.
pub fn number_realm(
    alloc: Global,
    decl: &Decl,
    dynamic: &[DynChild],
) -> Result<NumberedRealm, Memory>
    ensures { IfOk result (IsNumberedRealm decl.now dynamic.now) }
{
    let nodes = sorted_nodes(alloc, decl, dynamic)?;
    let offered = offered(alloc, nodes.as_slice(), decl.offers.as_slice())?;
    let mut after = declared_edges(alloc, nodes.as_slice(), decl, &offered)?;
    add_given(nodes.as_slice(), dynamic, &mut after)?;
    Ok(NumberedRealm {
        nodes,
        offered,
        after,
    })
}
