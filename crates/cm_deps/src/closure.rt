//! What each node of a graph of numbered nodes depends on, directly or through others.

ghost use Rattle.std.specs.Prelude.{◌<◌, length, IsTrue, IfOk};
ghost use Rattle.cm_deps.specs.Edges.{IsBelow};
ghost use Rattle.cm_deps.specs.Closure.{IsClosure};

use crate::edges::reach;
use cm_names::{List, Memory};
use std::alloc::Global;

/// For each node the nodes that it depends on, directly or through others. The lists together
/// are as long as the number of pairs that depend on each other, at most its square.
#[tactic(auto, using(crate::proofs::lemmas::given::Closing::closure_more))]
pub fn closure(alloc: Global, after: &[List<usize>]) -> Result<Vec<List<usize>>, Memory>
    requires below { IsBelow after.now (length after.now) }
    ensures { IfOk result (λ all. IsClosure after.now (length after.now) all.items) }
{
    let mut all = Vec::new(alloc);
    for x in 0..after.len() {
        all.push(List::from_vec(reach(alloc, after, x)?))?;
    }
    Ok(all)
}
