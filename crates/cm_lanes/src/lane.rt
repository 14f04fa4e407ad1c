//! One lane: a thread that performs one caller's lines of a script.

ghost use Rattle.std.specs.Prelude.{◌≡◌, All, Some};
ghost use Rattle.cm_lanes.specs.ScriptInside.{IsFit};
ghost use Rattle.cm_manager.specs.Caller.{IsSameCaller};
ghost use Rattle.cm_manager.specs.Kept.{IsOwnPass, gates_view};
ghost use Rattle.cm_lanes.specs.Lane.{IsReadyLane, HasPerformed, PutsUnless, LaneWorked};

use crate::Said;
use cm_command::Line;
use cm_gate::Gates;
use cm_manager::{Caller, Desk, Manager};
use cm_turn::Pass;
use cm_world::{Entry, Frame};
use std::alloc::Global;
use std::collections::VecDeque;
use std::sync::Wait;
use std::thread::Threads;

/// What one lane has in hand: its work is what was said to its lines so far, in their order.
pub(crate) type Lane<G> = Desk<G, VecDeque<Said>>;

/// Adds an answer to the lane's list. The result says whether it was lost, because memory ran out for
/// the list, or whether one before it was.
fn tell(said: &mut VecDeque<Said>, answer: Said, lost: bool) -> bool
    ensures { PutsUnless lost result said.old.items said.new.items answer }
{
    match said.push_back(answer) {
        Ok(()) => lost,
        Err(refused) => {
            drop(refused);
            true
        }
    }
}

/// Performs those of the lines in order that are of the lane of this number, the caller's own. The answer
/// says whether one of its answers was lost, because memory ran out for the list.
fn perform_lines<R: Threads + Wait + Sync, G: Gates>(
    caller: &mut Caller<'_, R, G>,
    number: u32,
    lines: &[Line],
    said: &mut VecDeque<Said>,
) -> bool
    requires number { number ≡ caller.old.pass.caller }
    requires own { IsOwnPass caller.old.pass }
    requires fit { All IsFit lines.now }
    ensures same { IsSameCaller caller.old caller.new }
    ensures performed { HasPerformed caller.old.manager.manifests lines.now caller.old.pass caller.new.pass
        caller.old.gates caller.new.gates said.old.items said.new.items result }
{
    let mut lost = false;
    for line in lines {
        if line.lane != number {
            continue;
        }
        let result = caller.perform(&line.command);
        let answer = Said {
            line: line.line,
            lane: line.lane,
            result,
        };
        lost = tell(said, answer, lost);
    }
    lost
}

/// Performs those of the lines in order that are the lane's own, with its pass and its gates. The answer says
/// whether one of its answers was lost, because memory ran out for the list.
fn perform_own<R: Threads + Wait + Sync, G: Gates>(
    rt: &R,
    alloc: Global,
    manager: &Manager,
    pass: Pass<Entry, Frame>,
    gates: &mut G,
    lines: &[Line],
    said: &mut VecDeque<Said>,
) -> (Pass<Entry, Frame>, bool)
    requires lock { pass.lock ≡ manager.now.turn.lock }
    requires own { IsOwnPass pass }
    requires fit { All IsFit lines.now }
    ensures performed { HasPerformed manager.now.manifests lines.now pass result.0
        (gates_view G.log G.faults gates.old) (gates_view G.log G.faults gates.new)
        said.old.items said.new.items result.1 }
{
    let number = pass.caller();
    let mut caller = Caller::new(rt, alloc, manager, pass, gates);
    let lost = perform_lines(&mut caller, number, lines, said);
    let (pass, _gates) = caller.into_parts();
    (pass, lost)
}

/// Puts a value into a place, as a lane's pass back behind its phase; one that was there is dropped.
pub(crate) fn put<T: Drop>(place: &mut Option<T>, value: T)
    ensures { place.new ≡ Some value }
{
    *place = Some(value);
}

/// Performs the lane's own lines of a phase.
pub(crate) fn work<R: Threads + Wait + Sync, G: Gates>(
    rt: &R,
    alloc: Global,
    manager: &Manager,
    lane: &mut Lane<G>,
    lines: &[Line],
)
    requires ready { IsReadyLane manager.now.turn lane.old }
    requires fit { All IsFit lines.now }
    ensures worked { LaneWorked G.log G.faults manager.now.manifests lines.now lane.old lane.new }
{
    let Some(pass) = lane.pass.take() else {
        unreachable!()
    };
    let (pass, lost) = perform_own(
        rt,
        alloc,
        manager,
        pass,
        &mut lane.gates,
        lines,
        &mut lane.work,
    );
    put(&mut lane.pass, pass);
    if lost {
        lane.lost = true;
    }
}
