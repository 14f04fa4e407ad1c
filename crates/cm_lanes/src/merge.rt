//! The answers of all lanes are merged into the order of the script.

ghost use Rattle.std.specs.Prelude.{◌≡◌, ◌<◌, ◌++◌, ℕ, All, IfOk, OnOk};
ghost use Rattle.std.specs.Prelude.{flat_map, length, map, slice_index_or};
ghost use Rattle.cm_lanes.specs.ScriptInside.{IsFit, said_of};
ghost use Rattle.cm_lanes.specs.Lane.{Queue};
ghost use Rattle.cm_lanes.specs.Merge.{QueuesStartWith, QueuesHaveAll, TakesFirst};

use crate::Said;
use cm_command::Line;
use cm_names::{List, Memory};
use std::alloc::Global;
use std::collections::VecDeque;

/// Takes the first answer from a lane's queue, if it has one.
fn take_first(queues: &mut Vec<VecDeque<Said>>, lane: u32) -> Option<Said>
    requires { lane < length queues.old.items }
    ensures takes { TakesFirst lane queues.old.items queues.new.items result }
{
    queues[lane as usize].pop_front()
}

/// Moves the answers to these lines from the queues of their lanes to one list, in the order of
/// the lines.
fn merge_lines(
    lines: &[Line],
    queues: &mut Vec<VecDeque<Said>>,
    all: &mut List<Said>,
) -> Result<(), Memory>
    requires count { length queues.old.items ≡ 16 }
    requires fit { All IsFit lines.now }
    requires begins { QueuesStartWith lines.now queues.old.items }
    ensures count { OnOk result (length queues.new.items ≡ 16) }
    ensures all { OnOk result ((is : QueuesStartWith lines.now queues.old.items) →
        all.new ≡ all.old ++ map said_of is.answered) }
    ensures behind { OnOk result ((is : QueuesStartWith lines.now queues.old.items) →
        (k : ℕ) (d : Queue) → k < 16 → (slice_index_or queues.new.items k d).items ≡ is.behind k) }
{
    for line in lines {
        let Some(said) = take_first(queues, line.lane) else {
            unreachable!()
        };
        match all.push(said) {
            Ok(()) => {}
            Err(Memory) => return Err(Memory),
        }
    }
    Ok(())
}

/// Merges the answers of all lanes into the order of the lines. `Err(Memory)` means that memory ran
/// out.
pub(crate) fn merge(
    alloc: Global,
    phases: &[List<Line>],
    queues: Vec<VecDeque<Said>>,
) -> Result<List<Said>, Memory>
    requires count { length queues.items ≡ 16 }
    requires fit { All (All IsFit) phases.now }
    requires has { QueuesHaveAll phases.now queues.items }
    ensures { IfOk result (λ all. (is : QueuesHaveAll phases.now queues.items) →
        all ≡ flat_map (λ p. map said_of p) is.answered) }
{
    let mut queues = queues;
    let mut all = List::new(alloc);
    for phase in phases {
        match merge_lines(phase.as_slice(), &mut queues, &mut all) {
            Ok(()) => {}
            Err(Memory) => return Err(Memory),
        }
    }
    Ok(all)
}
