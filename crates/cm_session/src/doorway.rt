//! A door with the accepts that were made at it, which workers share by turns.

ghost use Rattle.std.specs.Prelude.{◌≡◌, ◌<◌, ◌≤◌, [], IfErr, IfOk, true, false};
ghost use Rattle.cm_session.specs.Doorway.{DoorwayView, IsCounted, OnGiven, TurnedBy, came_of};
ghost use Rattle.cm_session.specs.Doorway.{failures_of, links_of};
ghost use Rattle.cm_io.specs.Doors.{IsOpen};
ghost use Rattle.cm_session.specs.Links.{view_of};
ghost use Rattle.cm_session.specs.Serving.{IsNewLink};

use cm_io::{Accept, Door, DoorCounts};
use cm_turn::Storied;
use std::alloc::Global;
use std::marker::Model;
use std::snapshot::Snapshot;
use std::sync::Wait;
use std::thread::Threads;

/// What an accept came to.
#[derive(Debug, Clone, Copy, PartialEq, Eq)]
pub enum Accepting {
    Link,
    Closed,
    Failed,
}

/// An accept: which worker made it, and what it came to.
#[derive(Debug, Drop)]
pub struct Accepted {
    pub worker: u32,
    pub came: Accepting,
}

/// A place as contracts see it, of which nothing is there at run time.
pub struct Whereabouts;

impl Model for Whereabouts {
    ghost use Rattle.cm_io.specs.Doors.{DoorPlace, untold};

    ghost Value = { DoorPlace };

    ghost view = { λ _. untold };
}

/// What stays as it is while workers share a door: what the door had counted before, where peers may
/// come, and how many links were asked for. Contracts alone have it.
pub struct Opening {
    pub counts: DoorCounts,
    pub place: Whereabouts,
    pub sessions: u32,
}

/// A door with the accepts that were made at it, one entry for each. It has room for as many as may
/// come: one for each link that was asked for, and one for a closing or a fault. Peers may come to the
/// door, and where they may doesn't change.
#[derive(Drop)]
pub struct Doorway<D: Door> {
    door: D,
    entries: Vec<Accepted>,
    sessions: u32,
    links: u32,
    closings: u32,
    failures: u32,
    first: Snapshot<D>,
}

impl<D: Door> Model for Doorway<D> {
    ghost use Rattle.std.specs.Prelude.{◌≡◌, ◌+◌, ◌<◌, ◌≤◌, length, vec_capacity};
    ghost use Rattle.cm_io.specs.Doors.{IsOpen};
    ghost use Rattle.cm_session.specs.Doorway.{DoorwayView, IsCounted, closings_of, failures_of, links_of};

    ghost Value = { DoorwayView D };

    ghost view = { λ s. record {
      door = s.door;
      entries = s.entries.items;
      opening = record {
        counts = D.counts s.first.value;
        place = D.place s.first.value;
        sessions = s.sessions;
      };
    } };

    ghost invariant = { λ s. IsCounted (D.counts s.first.value) (D.counts s.door) s.entries.items
        × (D.place s.door ≡ D.place s.first.value)
        × IsOpen (D.place s.door)
        × (s.links ≡ links_of s.entries.items)
        × (s.closings ≡ closings_of s.entries.items)
        × (s.failures ≡ failures_of s.entries.items)
        × (length s.entries.items ≡ s.links + (s.closings + s.failures))
        × (s.links ≤ s.sessions)
        × (s.closings + s.failures ≤ 1)
        × (s.sessions < vec_capacity s.entries) };
}

impl<D: Door> Storied for Doorway<D> {
    /// An entry for each accept, with the worker that made it.
    type Entry = Accepted;

    /// How the door was opened.
    type Frame = Opening;

    ghost story = { λ s. s.entries };

    ghost frame = { λ s. s.opening };

    ghost by = { λ e. e.worker };
}

/// What the accept came to, for its entry, without the link itself.
fn came_of<L>(accept: &Accept<L>) -> Accepting
    ensures { result ≡ came_of accept.now }
{
    match accept {
        Accept::Link(_) => Accepting::Link,
        Accept::Closed => Accepting::Closed,
        Accept::Failed => Accepting::Failed,
    }
}

impl<D: Door> Doorway<D> {
    /// The door, at which no accept was made yet, with room for so many links. Peers may come to it.
    /// `Err` means that memory ran out, and gives the door back.
    pub fn new(alloc: Global, door: D, sessions: u32) -> Result<Doorway<D>, D>
        requires sessions { sessions ≤ 4096 }
        requires listening { IsOpen (D.place door) }
        ensures ok { IfOk result (λ s. s ≡ record {
          door = door;
          entries = [];
          opening = record { counts = D.counts door; place = D.place door; sessions = sessions };
        }) }
        ensures err { IfErr result (λ d. d ≡ door) }
    {
        let Ok(entries) = Vec::with_capacity(alloc, sessions as usize + 1) else {
            return Err(door);
        };
        let first = Snapshot::of(&door);
        Ok(Doorway {
            door,
            entries,
            sessions,
            links: 0,
            closings: 0,
            failures: 0,
            first,
        })
    }

    /// Accepts for this worker, unless no further accept is due.
    pub fn accept_for<R: Threads + Wait + Sync>(
        &mut self,
        rt: &R,
        worker: u32,
    ) -> Option<Accept<D::Link>>
        ensures opening { self.new.opening ≡ self.old.opening }
        ensures few { links_of self.new.entries ≤ self.new.opening.sessions }
        ensures turned { TurnedBy worker self.old.opening.sessions self.old.entries self.new.entries result }
        ensures new { OnGiven result (λ l. IsNewLink (view_of D.Link.Source D.Link.Sink l)) }
    {
        if self.closings > 0 || self.failures > 0 || self.links >= self.sessions {
            return None;
        }
        let accept = self.door.accept(rt);
        let came = came_of(&accept);
        self.entries.push_reserved(Accepted { worker, came });
        match came {
            Accepting::Link => self.links += 1,
            Accepting::Closed => self.closings += 1,
            Accepting::Failed => self.failures += 1,
        }
        Some(accept)
    }

    /// The door, and whether it failed since it was opened.
    pub fn into_door(self) -> (D, bool)
        ensures door { result.0 ≡ self.door }
        ensures counts { IsCounted self.opening.counts (D.counts result.0) self.entries }
        ensures place { D.place result.0 ≡ self.opening.place }
        ensures few { links_of self.entries ≤ self.opening.sessions }
        ensures failed { result.1 ≡ true → 0 < failures_of self.entries }
        ensures sound { result.1 ≡ false → failures_of self.entries ≡ 0 }
    {
        let Doorway {
            door,
            entries: _,
            sessions: _,
            links: _,
            closings: _,
            failures,
            first: _,
        } = self;
        (door, failures > 0)
    }
}
