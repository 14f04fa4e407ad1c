//! Phases: the lanes side by side, and then all together.

ghost use Rattle.std.specs.Prelude.{◌≡◌, ◌<◌, ℕ, All, length, slice_index_or};
ghost use Rattle.cm_lanes.specs.ScriptInside.{IsFit};
ghost use Rattle.cm_lanes.specs.Lane.{IsReadyLane, LaneWorked, Lane as LaneOf};
ghost use Rattle.cm_lanes.specs.Phases.{AreLanes, LanesRan, PassedAll};

use crate::lane::{Lane, work};
use crate::meeting::meet_all;
use cm_command::Line;
use cm_gate::Gates;
use cm_manager::Manager;
use cm_names::List;
use std::alloc::Global;
use std::sync::Wait;
use std::thread;
use std::thread::Threads;

/// The number of lanes.
pub(crate) const LANES: usize = 16;

/// Performs the lines of a phase, each lane its own, side by side.
fn work_all<R: Threads + Wait + Sync, G: Gates + Send>(
    rt: &R,
    alloc: Global,
    manager: &Manager,
    lanes: &mut [Lane<G>],
    lines: &[Line],
)
    requires ready { All (IsReadyLane manager.now.turn) lanes.old }
    requires fit { All IsFit lines.now }
    ensures worked { (k : ℕ) (d : LaneOf G) → k < length lanes.old
        → LaneWorked G.log G.faults manager.now.manifests lines.now
        (slice_index_or lanes.old k d) (slice_index_or lanes.new k d) }
{
    thread::for_each_mut(
        rt,
        lanes,
        LANES,
        &|_, lane: &mut Lane<G>|
            requires { IsReadyLane manager.now.turn lane.now × All IsFit lines.now }
        { work(rt, alloc, manager, lane, lines) },
    );
}

/// Performs the lines of a phase, and then lets all passes meet.
fn run_phase<R: Threads + Wait + Sync, G: Gates + Send>(
    rt: &R,
    alloc: Global,
    manager: &Manager,
    lanes: &mut [Lane<G>],
    lines: &[Line],
)
    requires count { 1 < length lanes.old }
    requires ready { All (IsReadyLane manager.now.turn) lanes.old }
    requires fit { All IsFit lines.now }
    ensures passed { PassedAll G.log G.faults manager.now.manifests lines.now lanes.old lanes.new }
{
    work_all(rt, alloc, manager, lanes, lines);
    meet_all(manager, lanes);
}

/// Lets all passes meet, and then performs phase after phase.
fn perform_phases<R: Threads + Wait + Sync, G: Gates + Send>(
    rt: &R,
    alloc: Global,
    manager: &Manager,
    lanes: &mut [Lane<G>],
    phases: &[List<Line>],
)
    requires lanes { AreLanes manager.now.turn lanes.old }
    requires fit { All (All IsFit) phases.now }
    ensures ran { LanesRan G.log G.faults manager.now.manifests phases.now lanes.old lanes.new }
{
    meet_all(manager, lanes);
    for phase in phases {
        run_phase(rt, alloc, manager, lanes, phase.as_slice());
    }
}

/// Lets all passes meet, performs phase after phase, and gives the lanes back.
pub(crate) fn run_all<R: Threads + Wait + Sync, G: Gates + Send>(
    rt: &R,
    alloc: Global,
    manager: &Manager,
    lanes: Vec<Lane<G>>,
    phases: &[List<Line>],
) -> Vec<Lane<G>>
    requires lanes { AreLanes manager.now.turn lanes.items }
    requires fit { All (All IsFit) phases.now }
    ensures ran { LanesRan G.log G.faults manager.now.manifests phases.now lanes.items result.items }
{
    let mut lanes = lanes;
    perform_phases(rt, alloc, manager, lanes.as_mut_slice(), phases);
    lanes
}
