//! Sessions of all links that come at one door.

ghost use Rattle.std.specs.Prelude.{◌≡◌, ◌⊎◌, ◌+◌, ◌<◌, ◌≤◌, ◌++◌, [], All, IfErr, IfOk, length};
ghost use Rattle.std.specs.Prelude.{vec_capacity};
ghost use Rattle.cm_io.specs.Doors.{IsOpen};
ghost use Rattle.cm_io.specs.Outside.{Rose};
ghost use Rattle.cm_manager.specs.Closed.{HasEnds};
ghost use Rattle.cm_manager.specs.Kept.{AreSixteen, IsOwnPass, KeepsEach};
ghost use Rattle.cm_session.specs.Closing.{ClosesDoor, CountsLinks, backs_of, cause_of, links_from};
ghost use Rattle.cm_session.specs.Links.{view_of};
ghost use Rattle.cm_session.specs.Serving.{IsUnserved, ServedOrNot};
ghost use Rattle.cm_session.specs.declared.served.Cause.TheVariants as cause;
ghost use Rattle.cm_turn.specs.Passes.{AreAll, new_passes};

use crate::doorway::{Accepted, Doorway, Opening};
use crate::pool::{DoorParts, PoolParts, PoolRoom, make_works, room_for, take_apart};
use crate::served::{Back, Cause, Served};
use crate::workers::run_all;
use cm_gate::Gates;
use cm_io::Door;
use cm_manager::{DeskParts, DeskRoom, Manager, make_desks};
use cm_names::List;
use cm_turn::{Pass, Turn};
use cm_world::{Entry, Frame};
use std::alloc::Global;
use std::sync::Wait;
use std::thread::Threads;

/// Serves all links that come at a door, until as many came as are asked for, or the door closes or
/// fails, or a session ends for lack of memory.
///
/// So many workers, side by side, accept links by turns, and serve each by a session before they
/// accept the next; one whose session ended for lack of memory accepts no further link. A worker uses
/// the pass and the gates of its number, one session after another.
/// While it waits for a link, reads or writes, it holds up no other's session.
///
/// Peers may come to the door. The passes are the manager's of callers 0 to 15, in this order, and
/// there are 16 gates. Whatever happens, both are handed back, ordered as they were given, and so is
/// the door, to which peers may come where they could. All links that came
/// are handed back with their workers' numbers, worker by worker, and each worker's as its sessions
/// followed one another. A link that fails ends the session over it and no other.
///
/// The cause is the first of these that applies: `Memory` where a session ended for lack of memory,
/// or there was too little to begin with, and then nothing was done; `DoorFault` where the door
/// failed; `Done` where as many links came as were asked for, or the door closed, and it never failed.
pub fn serve_sessions<R: Threads + Wait + Sync, G: Gates + Send + Drop, D: Door + Send>(
    rt: &R,
    alloc: Global,
    manager: &Manager,
    passes: List<Pass<Entry, Frame>>,
    gates: List<G>,
    door: D,
    sessions: u32,
    workers: u32,
) -> Served<D, D::Link, G>
where
    D::Link: Send,
    requires passes { AreSixteen manager.now.turn passes }
    requires gates { length gates ≡ 16 }
    requires sessions { (0 < sessions) × (sessions ≤ 4096) }
    requires workers { (0 < workers) × (workers ≤ 16) }
    requires listening { IsOpen (D.place door) }
    ensures served { ServedOrNot G.log G.faults (view_of D.Link.Source D.Link.Sink)
        manager.now.manifests workers passes gates door result }
    ensures passes { AreSixteen manager.now.turn result.passes }
    ensures gates { length result.gates ≡ 16 }
    ensures kept { All IsOwnPass passes →
        KeepsEach G.log G.faults manager.now.manifests passes result.passes gates result.gates }
    ensures ended { All (λ p. HasEnds p.mine) passes → All (λ p. HasEnds p.mine) result.passes }
    ensures links { (D.counts result.door).links ≡ (D.counts door).links + length result.links }
    ensures place { D.place result.door ≡ D.place door }
    ensures few { length result.links ≤ sessions }
    ensures done { result.cause ≡ cause.Done → (length result.links ≡ sessions)
        ⊎ Rose (D.counts door).closings (D.counts result.door).closings }
    ensures fault { result.cause ≡ cause.DoorFault →
        Rose (D.counts door).faults (D.counts result.door).faults }
    ensures sound { result.cause ≡ cause.Done →
        (D.counts result.door).faults ≡ (D.counts door).faults }
{
    let Ok(room) = room_for(alloc, sessions, workers) else {
        return unserved(alloc, passes, gates, door);
    };
    let (turn, at_door) = match open_door(alloc, door, sessions) {
        Ok(opened) => opened,
        Err(door) => return unserved(alloc, passes, gates, door),
    };
    let PoolRoom {
        pool,
        links,
        parts: door,
        back,
    } = room;
    let DeskRoom {
        desks,
        works,
        parts,
    } = pool;
    let works = make_works(works, at_door, links);
    let pool = make_desks(desks, passes, gates, works);
    let pool = run_all(rt, alloc, manager, &turn, workers, pool);
    let parts = take_apart(pool, parts, door);
    hand_back(turn, parts, back)
}

/// What comes back where nothing was done, for lack of memory.
fn unserved<D, L, G>(
    alloc: Global,
    passes: List<Pass<Entry, Frame>>,
    gates: List<G>,
    door: D,
) -> Served<D, L, G>
    ensures { IsUnserved passes gates door result }
{
    Served {
        passes,
        gates,
        door,
        links: List::new(alloc),
        cause: Cause::Memory,
    }
}

/// A turn lock round the door, for as many links, with a pass for each worker. `Err` means that
/// memory ran out, and gives the door back.
fn open_door<D: Door>(
    alloc: Global,
    door: D,
    sessions: u32,
) -> Result<(Turn<Doorway<D>>, List<Pass<Accepted, Opening>>), D>
    requires sessions { sessions ≤ 4096 }
    requires listening { IsOpen (D.place door) }
    ensures count { IfOk result (λ r. r.0.passes ≡ 16) }
    ensures new { IfOk result (λ r. r.1 ≡
        new_passes r.0.lock
        (record { counts = D.counts door; place = D.place door; sessions = sessions }) 16) }
    ensures err { IfErr result (λ d. d ≡ door) }
{
    let doorway = match Doorway::new(alloc, door, sessions) {
        Ok(doorway) => doorway,
        Err(door) => return Err(door),
    };
    match Turn::new(alloc, doorway, 16) {
        Ok(opened) => Ok(opened),
        Err(doorway) => Err(doorway.into_door().0),
    }
}

/// Adds the links of one worker, with its number, to those that are handed back.
fn put_links<L: Drop>(worker: u32, links: Vec<L>, back: &mut Vec<Back<L>>)
    requires room { length back.old.items + length links.items ≤ vec_capacity back.old }
    ensures items { back.new.items ≡ back.old.items ++ backs_of worker links.items }
    ensures capacity { vec_capacity back.new ≡ vec_capacity back.old }
{
    for link in links {
        back.push_reserved(Back { worker, link });
    }
}

/// The links of all workers, worker by worker.
fn all_links<L: Drop>(links: Vec<Vec<L>>, back: Vec<Back<L>>) -> Vec<Back<L>>
    requires none { back.items ≡ [] }
    requires count { length links.items ≤ 16 }
    requires room { length (links_from 0 links.items) ≤ vec_capacity back }
    ensures { result.items ≡ links_from 0 links.items }
{
    let mut back = back;
    let mut worker = 0;
    for part in links {
        put_links(worker, part, &mut back);
        worker += 1;
    }
    back
}

/// Why no more links were served.
fn cause_of(lost: bool, failed: bool) -> Cause
    ensures { result ≡ cause_of lost failed }
{
    match (lost, failed) {
        (true, _) => Cause::Memory,
        (false, true) => Cause::DoorFault,
        (false, false) => Cause::Done,
    }
}

/// Closes the door's turn, and hands all back.
fn hand_back<G: Drop, D: Door>(
    turn: Turn<Doorway<D>>,
    parts: PoolParts<G, D::Link>,
    back: Vec<Back<D::Link>>,
) -> Served<D, D::Link, G>
    requires all { AreAll turn parts.works.at_door.items }
    requires counts { CountsLinks parts.works.at_door.items parts.works.links.items (vec_capacity back) }
    requires none { back.items ≡ [] }
    ensures passes { result.passes ≡ parts.passes.items }
    ensures gates { result.gates ≡ parts.gates.items }
    ensures links { result.links ≡ links_from 0 parts.works.links.items }
    ensures closed { ClosesDoor parts.works.at_door.items (D.counts result.door) (D.place result.door)
        (length result.links) parts.lost result.cause }
{
    let DeskParts {
        passes,
        gates,
        works: DoorParts { at_door, links },
        lost,
    } = parts;
    let doorway = turn.close(List::from_vec(at_door));
    let (door, failed) = doorway.into_door();
    Served {
        passes: List::from_vec(passes),
        gates: List::from_vec(gates),
        door,
        links: List::from_vec(all_links(links, back)),
        cause: cause_of(lost, failed),
    }
}
