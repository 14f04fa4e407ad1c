//! The order of a graph of numbered nodes, in which the first stands for the component itself.

ghost use Rattle.std.specs.Prelude.{◌≡◌, ◌<◌, ℕ, length, IsTrue, IfOk};
ghost use Rattle.cm_deps.specs.Edges.{holds, IsBelow, IsToposorted};
ghost use Rattle.cm_deps.specs.Implied.{IsFull, row_with};
ghost use Rattle.cm_deps.specs.Shapes.{IsShape};

use crate::edges::{reach, toposort};
use crate::ring::{flags, ring};
use cm_names::{List, Memory};
use std::alloc::Global;

/// What a graph of numbered nodes comes to.
#[derive(Drop)]
pub enum Shape {
    /// The graph with its implied edges, and all nodes, each before those that it depends on.
    Ordered {
        /// For each node the nodes that it directly depends on, the implied edges included.
        full: Vec<List<usize>>,
        /// Each node once, before all nodes that it depends on.
        order: Vec<usize>,
    },
    /// The picked cycle.
    Ring(Vec<usize>),
}

/// The order of the nodes with the implied edges, or the picked cycle.
pub fn arrange(alloc: Global, after: &[List<usize>]) -> Result<Shape, Memory>
    requires below { IsBelow after.now (length after.now) }
    requires some { 0 < length after.now }
    ensures { IfOk result (IsShape after.now) }
{
    let listed = toposort(alloc, after)?;
    match ring(alloc, after, listed.as_slice())? {
        Some(ring) => return Ok(Shape::Ring(ring)),
        None => return put_in_order(alloc, after, listed.as_slice()),
    }
}

/// The order of the nodes with the implied edges, where all are listed by the other edges.
fn put_in_order(alloc: Global, after: &[List<usize>], listed: &[usize]) -> Result<Shape, Memory>
    requires below { IsBelow after.now (length after.now) }
    requires some { 0 < length after.now }
    requires toposorted { IsToposorted after.now listed.now }
    requires all { (x : ℕ) → x < length after.now → IsTrue (holds listed.now x) }
    ensures { IfOk result (IsShape after.now) }
{
    let reached = reach(alloc, after, 0)?;
    let full = with_implied(alloc, after, reached.as_slice())?;
    let mut order = toposort(alloc, full.as_slice())?;
    order.reverse();
    Ok(Shape::Ordered { full, order })
}

/// The graph with an edge to the first node from each other node that the first doesn't reach.
fn with_implied(
    alloc: Global,
    after: &[List<usize>],
    reached: &[usize],
) -> Result<Vec<List<usize>>, Memory>
    requires below { IsBelow after.now (length after.now) }
    requires some { 0 < length after.now }
    requires inside { (x : ℕ) → IsTrue (holds reached.now x) → x < length after.now }
    ensures { IfOk result (λ full. IsFull after.now reached.now full.items) }
{
    let near = flags(alloc, after.len(), reached)?;
    let mut full = Vec::new(alloc);
    for (x, row) in after.iter().enumerate() {
        full.push(implied_row(x, row, near[x])?)?;
    }
    Ok(full)
}

/// The list of a node, with the first node after it where the edge to that is implied.
fn implied_row(x: usize, row: &List<usize>, near: bool) -> Result<List<usize>, Memory>
    ensures { IfOk result (λ full. full ≡ row_with x row.now near) }
{
    let mut full = row.clone()?;
    if x > 0 && !near {
        full.push(0)?;
    }
    Ok(full)
}
