//! The picked cycle of a graph of numbered nodes that has one.

ghost use Rattle.std.specs.Prelude.{◌≡◌, ◌<◌, ◌≤◌, ℕ, drop, length, get_or, false, IsTrue};
ghost use Rattle.std.specs.Prelude.{IfOk, IfNone, IfSome, MatchOption};
ghost use Rattle.cm_deps.specs.Edges.{is_set, holds, IsBelow, IsToposorted};
ghost use Rattle.cm_deps.specs.Ring.{EachHasUnlisted, IsWalk, IsLeastLeft, IsFirstLeft, IsRotated, IsRing};

use crate::edges::unset;
use cm_names::{List, Memory};
use std::alloc::Global;

/// The nodes that a walk passed, and where it is.
#[derive(Drop)]
struct WalkSoFar {
    passed: Vec<usize>,
    node: usize,
}

/// The loop that is reached from the first node that isn't in the order, where each node is
/// followed by the least such node that it directly depends on. It begins at its least node.
/// `None` where all nodes are in the order.
pub fn ring(
    alloc: Global,
    after: &[List<usize>],
    order: &[usize],
) -> Result<Option<Vec<usize>>, Memory>
    requires below { IsBelow after.now (length after.now) }
    requires toposorted { IsToposorted after.now order.now }
    ensures { IfOk result (λ found. MatchOption found
        ((x : ℕ) → x < length after.now → IsTrue (holds order.now x))
        (λ ring. IsRing after.now (holds order.now) ring.items)) }
{
    let listed = flags(alloc, after.len(), order)?;
    let Some(start) = first_left(listed.as_slice()) else {
        return Ok(None);
    };
    let trail = walk(alloc, after, listed.as_slice(), start)?;
    let first = place_of(trail.passed.as_slice(), trail.node);
    let ring = round(alloc, trail.passed.as_slice(), first)?;
    Ok(Some(ring))
}

/// A flag for each node: whether it is in the order.
pub fn flags(alloc: Global, count: usize, order: &[usize]) -> Result<Vec<bool>, Memory>
    requires inside { (x : ℕ) → IsTrue (holds order.now x) → x < count }
    ensures size { IfOk result (λ flags. length flags.items ≡ count) }
    ensures listed { IfOk result (λ flags. (x : ℕ) → is_set flags.items x ≡ holds order.now x) }
{
    let mut flags = unset(alloc, count)?;
    for x in order {
        flags[*x] = true;
    }
    Ok(flags)
}

/// The first node that isn't listed.
fn first_left(listed: &[bool]) -> Option<usize>
    ensures none { IfNone result ((x : ℕ) → x < length listed.now → IsTrue (is_set listed.now x)) }
    ensures some { IfSome result (IsFirstLeft (length listed.now) (is_set listed.now)) }
{
    for (x, is_listed) in listed.iter().enumerate() {
        if !*is_listed {
            return Some(x);
        }
    }
    None
}

/// Walks from `start`, from each node to the least one that isn't listed and that it directly
/// depends on, until it is at a node for the second time.
fn walk(
    alloc: Global,
    after: &[List<usize>],
    listed: &[bool],
    start: usize,
) -> Result<WalkSoFar, Memory>
    requires below { IsBelow after.now (length after.now) }
    requires size { length listed.now ≡ length after.now }
    requires inside { start < length after.now }
    requires left { is_set listed.now start ≡ false }
    requires goes_on { EachHasUnlisted after.now (is_set listed.now) }
    ensures { IfOk result (λ walk.
        IsWalk after.now (is_set listed.now) start walk.passed.items walk.node) }
{
    let mut seen = unset(alloc, after.len())?;
    let mut passed = Vec::new(alloc);
    let mut node = start;
    for _step in 0..after.len() {
        if seen[node] {
            return Ok(WalkSoFar { passed, node });
        }
        seen[node] = true;
        passed.push(node)?;
        node = least_left(after[node].as_slice(), listed);
    }
    Ok(WalkSoFar { passed, node })
}

/// The least of these nodes that isn't listed.
fn least_left(nodes: &[usize], listed: &[bool]) -> usize
    requires inside { (y : ℕ) → IsTrue (holds nodes.now y) → y < length listed.now }
    requires some { (y : ℕ) × IsTrue (holds nodes.now y) × (is_set listed.now y ≡ false) }
    ensures { IsLeastLeft nodes.now (is_set listed.now) result }
{
    let mut least = listed.len();
    for node in nodes {
        if !listed[*node] && *node < least {
            least = *node;
        }
    }
    least
}

/// A place where the node stands.
fn place_of(nodes: &[usize], node: usize) -> usize
    requires there { IsTrue (holds nodes.now node) }
    ensures inside { result < length nodes.now }
    ensures there { get_or nodes.now result 0 ≡ node }
{
    for (place, other) in nodes.iter().enumerate() {
        if *other == node {
            return place;
        }
    }
    0
}

/// The loop that begins at this place, begun at its least node.
fn round(alloc: Global, passed: &[usize], first: usize) -> Result<Vec<usize>, Memory>
    requires inside { first < length passed.now }
    ensures { IfOk result (λ ring. IsRotated (drop first passed.now) ring.items) }
{
    turned(alloc, &passed[first..])
}

/// The loop, begun at its least node.
fn turned(alloc: Global, nodes: &[usize]) -> Result<Vec<usize>, Memory>
    requires some { 0 < length nodes.now }
    ensures { IfOk result (λ ring. IsRotated nodes.now ring.items) }
{
    let place = place_of_least(nodes);
    let mut ring = Vec::new(alloc);
    ring.extend_from_slice(&nodes[place..])?;
    ring.extend_from_slice(&nodes[..place])?;
    Ok(ring)
}

/// A place where the least node stands.
fn place_of_least(nodes: &[usize]) -> usize
    requires some { 0 < length nodes.now }
    ensures inside { result < length nodes.now }
    ensures least { (x : ℕ) → IsTrue (holds nodes.now x) → get_or nodes.now result 0 ≤ x }
{
    let mut least = 0;
    for (place, node) in nodes.iter().enumerate() {
        if *node < nodes[least] {
            least = place;
        }
    }
    least
}
