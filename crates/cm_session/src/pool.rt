//! Workers made of passes and gates, and taken apart again.

ghost use Rattle.std.specs.Prelude.{◌≡◌, ◌<◌, ◌≤◌, [], All, IfOk, Some, length, map, vec_capacity};
ghost use Rattle.cm_manager.specs.Desks.{DeskPartsHaveRoom, NoDeskParts};
ghost use Rattle.cm_session.specs.PoolParts.{AreWorkerParts, DoorPartsHaveRoom, HasDoorPass, HasPasses};
ghost use Rattle.cm_session.specs.PoolParts.{HasRooms, PoolHasRoom};

use crate::doorway::{Accepted, Opening};
use crate::served::Back;
use crate::workers::{DoorWork, WORKERS, Worker};
use cm_manager::{DeskParts, DeskRoom, clear_desks, room_for_desks};
use cm_names::List;
use cm_turn::Pass;
use std::alloc::{AllocError, Global};

/// Room for the workers, for the links of each, and for all that comes back.
#[derive(Drop)]
pub(crate) struct PoolRoom<G, L> {
    /// No workers yet.
    pub(crate) pool: DeskRoom<G, DoorWork<L>>,
    /// Room for the links of each worker, worker by worker.
    pub(crate) links: Vec<Vec<L>>,
    /// No parts of works yet.
    pub(crate) parts: DoorParts<L>,
    /// No links yet.
    pub(crate) back: Vec<Back<L>>,
}

/// What the works of workers are taken apart into.
#[derive(Drop)]
pub(crate) struct DoorParts<L> {
    /// The passes at the door, worker by worker.
    pub(crate) at_door: Vec<Pass<Accepted, Opening>>,
    /// The links that each worker served.
    pub(crate) links: Vec<Vec<L>>,
}

/// What workers are taken apart into.
pub(crate) type PoolParts<G, L> = DeskParts<G, DoorParts<L>>;

/// Takes room for so many links for each of the first workers, and none for the others.
fn link_rooms<L: Drop>(
    alloc: Global,
    sessions: usize,
    workers: usize,
) -> Result<Vec<Vec<L>>, AllocError>
    ensures { IfOk result (λ rooms. HasRooms 16 sessions workers rooms.items) }
{
    let mut rooms = Vec::with_capacity(alloc, WORKERS)?;
    for worker in 0..WORKERS {
        rooms.push_reserved(room_of(alloc, sessions, workers, worker)?);
    }
    Ok(rooms)
}

/// Takes room for so many links, if this is one of the first workers, and else none.
fn room_of<L: Drop>(
    alloc: Global,
    sessions: usize,
    workers: usize,
    worker: usize,
) -> Result<Vec<L>, AllocError>
    ensures none { IfOk result (λ room. room.items ≡ []) }
    ensures room { IfOk result (λ room. worker < workers → sessions ≤ vec_capacity room) }
{
    if worker < workers {
        return Vec::with_capacity(alloc, sessions);
    }
    Ok(Vec::new(alloc))
}

/// Takes room for the workers, the links of those that serve, and all that comes back. `Err` means
/// that memory ran out.
pub(crate) fn room_for<G: Drop, L: Drop>(
    alloc: Global,
    sessions: u32,
    workers: u32,
) -> Result<PoolRoom<G, L>, AllocError>
    ensures { IfOk result (PoolHasRoom 16 sessions workers) }
{
    let sessions = sessions as usize;
    Ok(PoolRoom {
        pool: room_for_desks(alloc, WORKERS)?,
        links: link_rooms(alloc, sessions, workers as usize)?,
        parts: DoorParts {
            at_door: Vec::with_capacity(alloc, WORKERS)?,
            links: Vec::with_capacity(alloc, WORKERS)?,
        },
        back: Vec::with_capacity(alloc, sessions)?,
    })
}

/// Makes the work of each pass at the door, with the room for links at its place.
pub(crate) fn make_works<L: Drop>(
    works: Vec<DoorWork<L>>,
    at_door: List<Pass<Accepted, Opening>>,
    links: Vec<Vec<L>>,
) -> Vec<DoorWork<L>>
    requires room { (works.items ≡ []) × (length at_door ≤ vec_capacity works) }
    requires links { length links.items ≡ length at_door }
    ensures at_door { map (λ w. w.at_door) result.items ≡ map Some at_door }
    ensures links { map (λ w. w.links) result.items ≡ links.items }
{
    let mut works = works;
    let mut rooms = links.into_iter();
    for pass in at_door.into_vec() {
        let Some(links) = rooms.next() else {
            unreachable!()
        };
        works.push_reserved(DoorWork {
            at_door: Some(pass),
            links,
        });
    }
    works
}

/// Takes works apart into lists of their parts, for which there is room.
fn part_works<L: Drop>(works: Vec<DoorWork<L>>, parts: &mut DoorParts<L>)
    requires passes { All HasDoorPass works.items }
    requires room { DoorPartsHaveRoom (length works.items) parts.old }
    ensures at_door { map Some parts.new.at_door.items ≡ map (λ w. w.at_door) works.items }
    ensures links { parts.new.links.items ≡ map (λ w. w.links) works.items }
{
    for work in works {
        let DoorWork { at_door, links } = work;
        let Some(at_door) = at_door else {
            unreachable!()
        };
        parts.at_door.push_reserved(at_door);
        parts.links.push_reserved(links);
    }
}

/// Takes workers apart into lists of their parts, for which there is room.
pub(crate) fn take_apart<G: Drop, L: Drop>(
    pool: Vec<Worker<G, L>>,
    parts: DeskParts<G, Vec<DoorWork<L>>>,
    door: DoorParts<L>,
) -> PoolParts<G, L>
    requires passes { All HasPasses pool.items }
    requires empty { NoDeskParts parts }
    requires room { DeskPartsHaveRoom (length pool.items) parts }
    requires door { DoorPartsHaveRoom (length pool.items) door }
    ensures { AreWorkerParts pool.items result }
{
    let DeskParts {
        passes,
        gates,
        works,
        lost,
    } = clear_desks(pool, parts);
    let mut door = door;
    part_works(works, &mut door);
    DeskParts {
        passes,
        gates,
        works: door,
        lost,
    }
}
