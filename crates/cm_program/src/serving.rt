//! The command `serve`: sessions over the links of a door.

ghost use Rattle.std.specs.Prelude.{◌≡◌, ◌⊎◌, length};
ghost use Rattle.cm_call.specs.CallsInside.{IsServing};
ghost use Rattle.cm_io.specs.Doors.{IsOpenAt, IsShut};
ghost use Rattle.cm_program.specs.Headline.{IsHistory};
ghost use Rattle.cm_program.specs.Sessions.{Attended, served_frame, served_manifests};
ghost use Rattle.cm_program.specs.Written.{SaysOnErr};
ghost use Rattle.cm_session.specs.Links.{view_of};

use crate::ran::{Ran, door_fault, out_of_memory, stopped};
use crate::sessions::{attend, manager_of};
use cm_call::ServeOptions;
use cm_gate::Gates;
use cm_io::{Door, Listen, Sink};
use cm_names::List;
use std::alloc::Global;
use std::sync::Wait;
use std::thread::Threads;

/// Lets links come at a door, to which none may come yet, and serves each by a session over one new
/// realm.
#[tactic(auto, using(crate::proofs::lemmas::whole::Saying::says, crate::proofs::lemmas::whole::Run::idle))]
pub fn run_sessions<R: Threads + Wait + Sync, E: Sink, D: Door + Send, G: Gates + Send + Drop>(
    rt: &R,
    alloc: Global,
    options: ServeOptions,
    door: D,
    gates: List<G>,
    err: &mut E,
) -> Ran<D, D::Link, G>
where
    D::Link: Send,
    requires gates { length gates ≡ 16 }
    requires options { IsServing options }
    requires shut { IsShut (D.place door) }
    ensures attended { Attended G.log G.faults (view_of D.Link.Source D.Link.Sink) D.counts
        (served_frame options) (served_manifests options) options.sessions options.workers gates
        (D.counts door) result }
    ensures place { result.status ≡ 0 → IsOpenAt options.socket (D.place result.door) }
    ensures nowhere_else { (D.place result.door ≡ D.place door)
        ⊎ IsOpenAt options.socket (D.place result.door) }
    ensures history { IsHistory result.book.entries }
    ensures err { SaysOnErr E.written E.faults err.old err.new result.status }
{
    let Ok((manager, passes)) = manager_of(alloc, options.root, options.repository) else {
        return stopped(alloc, out_of_memory(rt, err), gates, door);
    };
    let (sessions, workers) = (options.sessions, options.workers);
    let mut door = door;
    match door.listen(rt, options.socket.as_str()) {
        Listen::Ready => attend(
            rt, alloc, manager, passes, err, door, gates, sessions, workers,
        ),
        Listen::Failed => {
            drop(passes);
            drop(manager);
            stopped(alloc, door_fault(rt, err), gates, door)
        }
    }
}
