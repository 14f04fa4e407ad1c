//! Laws of the definitions.
//!
//! These functions do nothing, and no code calls them: what each of them promises is a fact about the
//! definitions in `specs/`, which its proof shows.

ghost use Rattle.cm_deps.specs.Laws.{EachIsAcyclicOrHasAPickedCycle, WouldDependIsOneMore};

/// What [`Graph::would_depend`](crate::Graph::would_depend) tells is what
/// [`Graph::depends`](crate::Graph::depends) would tell of the graph with that child.
pub fn would_depend_is_one_more()
    ensures { WouldDependIsOneMore }
{}

/// A realm graph has no cycle of strong edges, or the picked one: so a declaration whose rows have
/// no fault is valid, or has the fault of that cycle.
pub fn each_is_acyclic_or_has_a_picked_cycle()
    ensures { EachIsAcyclicOrHasAPickedCycle }
{}
