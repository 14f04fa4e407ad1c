//! A script's lines, run in lanes.

ghost use Rattle.std.specs.Prelude.{◌≡◌, ◌≤◌, [], All, IfSome, false, flat_map, length, map, true};
ghost use Rattle.std.specs.Prelude.{vec_capacity};
ghost use Rattle.std.specs.Prelude.{None as NoneOf};
ghost use Rattle.cm_manager.specs.Closed.{HasEnds};
ghost use Rattle.cm_manager.specs.Kept.{AreSixteen};
ghost use Rattle.cm_lanes.specs.Lanes.{RanOrNot};
ghost use Rattle.cm_lanes.specs.ScriptInside.{IsFit, said_of};
ghost use Rattle.cm_lanes.specs.Merge.{QueuesHaveAll};

use crate::merge::merge;
use crate::phase::{LANES, run_all};
use crate::{Lanes, Said};
use cm_command::Line;
use cm_gate::Gates;
use cm_manager::{DeskParts, DeskRoom, Manager, clear_desks, make_desks, room_for_desks};
use cm_names::List;
use cm_turn::Pass;
use cm_world::{Entry, Frame};
use std::alloc::Global;
use std::collections::VecDeque;
use std::sync::Wait;
use std::thread::Threads;

/// Runs the phases of a script: in each phase each lane performs its lines in order, with the pass
/// and the gates at its place, the lanes side by side. Before the first phase and after each, all
/// passes meet.
///
/// Every line is one of lanes 0 to 15. The passes are the manager's of callers 0 to 15, in this
/// order, and there are 16 gates; both come back in their order in every case.
///
/// What is said to the lines stands in the order of the script. `None` means that memory ran out
/// for the list itself: either before anything was done, and then passes and gates are as before;
/// or later, and then all lines were performed, though what was said to them isn't handed back.
pub fn run_lanes<R: Threads + Wait + Sync, G: Gates + Send + Drop>(
    rt: &R,
    alloc: Global,
    manager: &Manager,
    passes: List<Pass<Entry, Frame>>,
    gates: List<G>,
    phases: &[List<Line>],
) -> Lanes<G>
    requires passes { AreSixteen manager.now.turn passes }
    requires gates { length gates ≡ 16 }
    requires fit { All (λ lines. All IsFit lines) phases.now }
    ensures ran { RanOrNot G.log G.faults manager.now.manifests phases.now passes gates result }
    ensures passes { AreSixteen manager.now.turn result.passes }
    ensures gates { length result.gates ≡ 16 }
    ensures ended { All (λ p. HasEnds p.mine) passes → All (λ p. HasEnds p.mine) result.passes }
{
    let Ok(room) = room_for_desks(alloc, LANES) else {
        return Lanes {
            passes,
            gates,
            said: None,
        };
    };
    let DeskRoom {
        desks,
        works,
        parts,
    } = room;
    let queues = new_queues(alloc, works);
    let lanes = make_desks(desks, passes, gates, queues);
    let lanes = run_all(rt, alloc, manager, lanes, phases);
    let parts = clear_desks(lanes, parts);
    hand_back(alloc, phases, parts)
}

/// A queue for each lane, to which nothing was said yet.
fn new_queues(alloc: Global, queues: Vec<VecDeque<Said>>) -> Vec<VecDeque<Said>>
    requires room { (queues.items ≡ []) × (16 ≤ vec_capacity queues) }
    ensures count { length result.items ≡ 16 }
    ensures none { All (λ q. q.items ≡ []) result.items }
{
    let mut queues = queues;
    for _ in 0..LANES {
        queues.push_reserved(VecDeque::new(alloc));
    }
    queues
}

/// Hands back what lanes were taken apart into, with what was said to them in the order of the
/// script, unless an answer was lost or memory runs out.
fn hand_back<G: Drop>(
    alloc: Global,
    phases: &[List<Line>],
    parts: DeskParts<G, Vec<VecDeque<Said>>>,
) -> Lanes<G>
    requires count { length parts.works.items ≡ 16 }
    requires fit { All (All IsFit) phases.now }
    requires has { parts.lost ≡ false → QueuesHaveAll phases.now parts.works.items }
    ensures passes { result.passes ≡ parts.passes.items }
    ensures gates { result.gates ≡ parts.gates.items }
    ensures lost { parts.lost ≡ true → result.said ≡ NoneOf }
    ensures said { (is : QueuesHaveAll phases.now parts.works.items) →
        IfSome result.said (λ said. said ≡ flat_map (λ p. map said_of p) is.answered) }
{
    let DeskParts {
        passes,
        gates,
        works: said,
        lost,
    } = parts;
    let said = match lost {
        true => None,
        false => merge(alloc, phases, said).ok(),
    };
    Lanes {
        passes: List::from_vec(passes),
        gates: List::from_vec(gates),
        said,
    }
}
