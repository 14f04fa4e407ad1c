//! Graphs of numbered nodes: for each node the nodes that it directly depends on.

ghost use Rattle.std.specs.Prelude.{◌≡◌, ◌<◌, [], ℕ, length, false, IsTrue, IfOk, OnOk, replicate};
ghost use Rattle.std.specs.List.{list_all};
ghost use Rattle.cm_deps.specs.Edges.{is_set, holds, row, IsBelow, Covers, IsToposorted, IsListing};
ghost use Rattle.cm_deps.specs.Edges.{IsSettled, Extends, IsReach, IsVisited, IsAdded};

use cm_names::{List, Memory};
use std::alloc::Global;

/// Whether each of these nodes is done.
fn are_done(nodes: &[usize], done: &[bool]) -> bool
    ensures { result ≡ list_all (is_set done.now) nodes.now }
{
    nodes
        .iter()
        .all(|node| done.get(*node).copied().unwrap_or(false))
}

/// For each node the nodes that directly depend on it.
fn dependents(alloc: Global, after: &[List<usize>]) -> Result<Vec<List<usize>>, Memory>
    requires { IsBelow after.now (length after.now) }
    ensures size { IfOk result (λ before. length before.items ≡ length after.now) }
    ensures below { IfOk result (λ before. IsBelow before.items (length after.now)) }
    ensures covers { IfOk result (λ before. Covers before.items after.now) }
{
    let mut before = empty_rows(alloc, after.len())?;
    for (x, row) in after.iter().enumerate() {
        add_dependent(x, row.as_slice(), &mut before)?;
    }
    Ok(before)
}

/// As many empty lists, one for each node, to which edges are added. `Err` comes where memory runs out.
fn empty_rows(alloc: Global, count: usize) -> Result<Vec<List<usize>>, Memory>
    ensures size { IfOk result (λ rows. length rows.items ≡ count) }
    ensures empty { IfOk result (λ rows. (x : ℕ) → row rows.items x ≡ []) }
{
    let mut rows = Vec::new(alloc);
    for _index in 0..count {
        rows.push(List::new(alloc))?;
    }
    Ok(rows)
}

/// Puts x into the list of each of these nodes.
fn add_dependent(x: usize, nodes: &[usize], before: &mut Vec<List<usize>>) -> Result<(), Memory>
    requires { (y : ℕ) → IsTrue (holds nodes.now y) → y < length before.old.items }
    ensures size { OnOk result (length before.new.items ≡ length before.old.items) }
    ensures added { OnOk result ((y : ℕ) → IsTrue (holds nodes.now y) →
        IsTrue (holds (row before.new.items y) x)) }
    ensures kept { OnOk result ((y z : ℕ) → IsTrue (holds (row before.old.items y) z) →
        IsTrue (holds (row before.new.items y) z)) }
    ensures only { OnOk result ((y z : ℕ) → IsTrue (holds (row before.new.items y) z) →
        (holds (row before.old.items y) z ≡ false) → z ≡ x) }
{
    for y in nodes {
        before[*y].push(x)?;
    }
    Ok(())
}

/// Puts the nodes in an order in which each stands after all that it depends on, as many as can
/// be put so.
pub fn toposort(alloc: Global, after: &[List<usize>]) -> Result<Vec<usize>, Memory>
    requires { IsBelow after.now (length after.now) }
    ensures { IfOk result (λ order. IsToposorted after.now order.items) }
{
    let count = after.len();
    let before = dependents(alloc, after)?;
    let mut order = Vec::new(alloc);
    let mut queued = unset(alloc, count)?;
    let mut done = unset(alloc, count)?;
    for x in 0..count {
        list_if_ready(x, after, done.as_slice(), &mut queued, &mut order)?;
    }
    for head in 0..count {
        if head == order.len() {
            return Ok(order);
        }
        let node = order[head];
        done[node] = true;
        let freed = before[node].as_slice();
        release(freed, after, done.as_slice(), &mut queued, &mut order)?;
    }
    Ok(order)
}

/// As many flags that aren't set.
pub fn unset(alloc: Global, count: usize) -> Result<Vec<bool>, Memory>
    ensures { IfOk result (λ flags. flags.items ≡ replicate count false) }
{
    let flags = vec![in alloc; false; count]?;
    Ok(flags)
}

/// Lists those of these nodes that aren't listed and depend on nothing that isn't done.
fn release(
    nodes: &[usize],
    after: &[List<usize>],
    done: &[bool],
    queued: &mut Vec<bool>,
    order: &mut Vec<usize>,
) -> Result<(), Memory>
    requires inside { (y : ℕ) → IsTrue (holds nodes.now y) → y < length after.now }
    requires listing { IsListing after.now order.old.items queued.old.items done.now }
    ensures listing { OnOk result (IsListing after.now order.new.items queued.new.items done.now) }
    ensures settled { OnOk result ((y : ℕ) → IsTrue (holds nodes.now y) →
        IsSettled after.now order.new.items done.now y) }
    ensures longer { OnOk result (Extends order.old.items order.new.items) }
{
    for x in nodes {
        list_if_ready(*x, after, done, queued, order)?;
    }
    Ok(())
}

/// Lists a node if it isn't listed and depends on nothing that isn't done.
fn list_if_ready(
    x: usize,
    after: &[List<usize>],
    done: &[bool],
    queued: &mut Vec<bool>,
    order: &mut Vec<usize>,
) -> Result<(), Memory>
    requires inside { x < length after.now }
    requires listing { IsListing after.now order.old.items queued.old.items done.now }
    ensures listing { OnOk result (IsListing after.now order.new.items queued.new.items done.now) }
    ensures settled { OnOk result (IsSettled after.now order.new.items done.now x) }
    ensures longer { OnOk result (Extends order.old.items order.new.items) }
{
    if queued[x] {
        return Ok(());
    }
    if are_done(after[x].as_slice(), done) {
        queued[x] = true;
        order.push(x)?;
    }
    Ok(())
}

/// The nodes that a node depends on, directly or through others.
pub fn reach(alloc: Global, after: &[List<usize>], start: usize) -> Result<Vec<usize>, Memory>
    requires below { IsBelow after.now (length after.now) }
    requires inside { start < length after.now }
    ensures { IfOk result (λ found. IsReach after.now start found.items) }
{
    let count = after.len();
    let mut seen = unset(alloc, count)?;
    let mut found = Vec::new(alloc);
    add_after(start, after, &mut seen, &mut found)?;
    for head in 0..count {
        if head == found.len() {
            return Ok(found);
        }
        add_after(found[head], after, &mut seen, &mut found)?;
    }
    Ok(found)
}

/// Puts what a node directly depends on into the list.
fn add_after(
    node: usize,
    after: &[List<usize>],
    seen: &mut Vec<bool>,
    found: &mut Vec<usize>,
) -> Result<(), Memory>
    requires below { IsBelow after.now (length after.now) }
    requires inside { node < length after.now }
    requires size { length seen.old.items ≡ length after.now }
    requires seen { IsVisited seen.old.items found.old.items }
    ensures size { OnOk result (length seen.new.items ≡ length after.now) }
    ensures seen { OnOk result (IsVisited seen.new.items found.new.items) }
    ensures added { OnOk result (IsAdded (row after.now node) found.old.items found.new.items) }
{
    add_new(after[node].as_slice(), seen, found)?;
    Ok(())
}

/// Puts those of these nodes into the list that aren't there yet.
fn add_new(nodes: &[usize], seen: &mut Vec<bool>, found: &mut Vec<usize>) -> Result<(), Memory>
    requires inside { (y : ℕ) → IsTrue (holds nodes.now y) → y < length seen.old.items }
    requires seen { IsVisited seen.old.items found.old.items }
    ensures size { OnOk result (length seen.new.items ≡ length seen.old.items) }
    ensures seen { OnOk result (IsVisited seen.new.items found.new.items) }
    ensures added { OnOk result ((y : ℕ) → IsTrue (holds nodes.now y) →
        IsTrue (holds found.new.items y)) }
    ensures only { OnOk result ((y : ℕ) → IsTrue (holds found.new.items y) →
        (holds found.old.items y ≡ false) → IsTrue (holds nodes.now y)) }
    ensures longer { OnOk result (Extends found.old.items found.new.items) }
{
    for x in nodes {
        add_if_new(*x, seen, found)?;
    }
    Ok(())
}

/// Puts a node into the list if it isn't there yet.
fn add_if_new(x: usize, seen: &mut Vec<bool>, found: &mut Vec<usize>) -> Result<(), Memory>
    requires inside { x < length seen.old.items }
    requires seen { IsVisited seen.old.items found.old.items }
    ensures size { OnOk result (length seen.new.items ≡ length seen.old.items) }
    ensures seen { OnOk result (IsVisited seen.new.items found.new.items) }
    ensures added { OnOk result (IsTrue (holds found.new.items x)) }
    ensures only { OnOk result ((y : ℕ) → IsTrue (holds found.new.items y) →
        (holds found.old.items y ≡ false) → y ≡ x) }
    ensures longer { OnOk result (Extends found.old.items found.new.items) }
{
    if seen[x] {
        return Ok(());
    }
    seen[x] = true;
    found.push(x)?;
    Ok(())
}
