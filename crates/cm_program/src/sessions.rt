//! The sessions of a run, over one realm.

ghost use Rattle.std.specs.Prelude.{◌≡◌, ◌<◌, ◌≤◌, [], IfOk, Some, length};
ghost use Rattle.cm_io.specs.Doors.{IsOpen};
ghost use Rattle.cm_world.specs.declared.frame.Frame.{Frame as TheFrame};
ghost use Rattle.cm_turn.specs.Passes.{new_passes};
ghost use Rattle.cm_program.specs.Sessions.{Attended, status_of};
ghost use Rattle.cm_program.specs.Stock.{limits};
ghost use Rattle.cm_program.specs.Written.{SaysOnErr};
ghost use Rattle.cm_session.specs.Links.{view_of};

use crate::ran::{Ran, door_fault, out_of_memory};
use crate::stock::LIMITS;
use cm_gate::Gates;
use cm_io::{Door, Sink};
use cm_manager::Manager;
use cm_names::{List, Memory, Text};
use cm_repo::Repository;
use cm_session::{Cause, Served, serve_sessions};
use cm_steps::Realm;
use cm_turn::Pass;
use cm_world::{Entry, Frame};
use std::alloc::Global;
use std::sync::Wait;
use std::thread::Threads;

/// A manager over a new realm of this root, whose manifests are looked for in that folder, and the
/// passes of sixteen callers.
pub fn manager_of(
    alloc: Global,
    root: Text,
    folder: Text,
) -> Result<(Manager, List<Pass<Entry, Frame>>), Memory>
    ensures count { IfOk result (λ made. made.0.turn.passes ≡ 16) }
    ensures new { IfOk result (λ made. let frame : TheFrame =
        record { root = root; builtins = []; limits = limits } in
        made.1 ≡ new_passes made.0.turn.lock frame 16) }
    ensures manifests { IfOk result (λ made.
        made.0.manifests ≡ record { repo = Some folder; blocks = [] }) }
{
    let realm = Realm::new(alloc, root, List::new(alloc), LIMITS)?;
    match Manager::new(alloc, realm, Repository::new(alloc), Some(folder), 16) {
        Ok(made) => Ok(made),
        Err(realm) => {
            drop(realm);
            Err(Memory)
        }
    }
}

/// Says why no more links came, where that is a fault. The result is the status.
#[tactic(auto, using(crate::proofs::lemmas::whole::Saying::says))]
fn tell_cause<R: Threads + Wait + Sync, E: Sink>(rt: &R, err: &mut E, cause: Cause) -> u8
    ensures status { result ≡ status_of cause }
    ensures err { SaysOnErr E.written E.faults err.old err.new result }
{
    match cause {
        Cause::Done => 0,
        Cause::DoorFault => door_fault(rt, err),
        Cause::Memory => out_of_memory(rt, err),
    }
}

/// Serves the links of a door under a manager, closes it, and says why no more came. Peers may come to
/// the door.
#[tactic(auto, using(crate::proofs::lemmas::whole::Saying::says))]
pub fn attend<R: Threads + Wait + Sync, E: Sink, D: Door + Send, G: Gates + Send + Drop>(
    rt: &R,
    alloc: Global,
    manager: Manager,
    passes: List<Pass<Entry, Frame>>,
    err: &mut E,
    door: D,
    gates: List<G>,
    sessions: u32,
    workers: u32,
) -> Ran<D, D::Link, G>
where
    D::Link: Send,
    requires count { manager.turn.passes ≡ 16 }
    requires new { (f : TheFrame) × (passes ≡ new_passes manager.turn.lock f 16) }
    requires gates { length gates ≡ 16 }
    requires sessions { (0 < sessions) × (sessions ≤ 4096) }
    requires workers { (0 < workers) × (workers ≤ 16) }
    requires listening { IsOpen (D.place door) }
    ensures attended { (f : TheFrame) → passes ≡ new_passes manager.turn.lock f 16 →
        Attended G.log G.faults (view_of D.Link.Source D.Link.Sink) D.counts
        f manager.manifests sessions workers gates (D.counts door) result }
    ensures place { D.place result.door ≡ D.place door }
    ensures err { SaysOnErr E.written E.faults err.old err.new result.status }
{
    let Served {
        passes,
        gates,
        door,
        links,
        cause,
    } = serve_sessions(rt, alloc, &manager, passes, gates, door, sessions, workers);
    let book = manager.close(passes);
    let status = tell_cause(rt, err, cause);
    Ran {
        status,
        book,
        links,
        gates,
        door,
    }
}
