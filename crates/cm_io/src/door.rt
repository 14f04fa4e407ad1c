//! Where links come from.

ghost use Rattle.cm_io.specs.Doors.{Accepts, IsFreshLink, IsOpen, IsShut, Listens, OnLink, Opens};
ghost use Rattle.std.specs.Prelude.{◌≡◌, ◌-◌, ◌^◌};

use crate::Link;
use std::sync::Wait;
use std::thread::Threads;

/// What a listen came to.
#[derive(Debug, Clone, Copy, PartialEq, Eq)]
pub enum Listen {
    /// Peers may come.
    Ready,
    /// The door failed; its count of faults rose.
    Failed,
}

/// What an accept came to.
#[derive(Debug, Drop)]
pub enum Accept<L> {
    /// A link; the count of links rose.
    Link(L),
    /// No further link comes; the count of closings rose.
    Closed,
    /// The door failed; its count of faults rose.
    Failed,
}

/// What a door counts, from 0 to 2^64 - 1: how often it failed, how many links it gave, and how
/// often it answered that no further one comes. The first and the last stay at their end; a door
/// that gave 2^64 - 1 links fails at each further accept.
#[derive(Debug, Clone, Copy, PartialEq, Eq)]
pub struct DoorCounts {
    pub faults: u64,
    pub links: u64,
    pub closings: u64,
}

/// Where links come from.
pub trait Door: Drop {
    ghost use Rattle.cm_io.specs.Doors.{DoorPlace, untold};
    ghost use Rattle.cm_io.specs.declared.door.DoorCounts.{DoorCounts};

    /// What it gives.
    type Link: Link;

    /// What it counted.
    ghost counts: { Self → DoorCounts };

    /// Where peers may come, where it tells that.
    ghost place: { Self → DoorPlace } = { λ _. untold };

    /// Lets peers come at this place. They may come nowhere before.
    fn listen<R: Threads + Wait + Sync>(&mut self, rt: &R, at: &str) -> Listen
        requires { IsShut (place self.old) }
        ensures place { Opens at.now (place self.old) (place self.new) result }
        ensures counts { Listens (counts self.old) (counts self.new) result };

    /// Waits for the next peer, once `listen` was `Ready`, and gives its link. The link is new: it has never
    /// failed, and what it tells of its bytes and their order is that none was read or written, nor was it
    /// hung up. Workers of `cm_session` call it, one at a time.
    fn accept<R: Threads + Wait + Sync>(&mut self, rt: &R) -> Accept<Self::Link>
        requires { IsOpen (place self.old) }
        ensures place { place self.new ≡ place self.old }
        ensures counts { Accepts (counts self.old) (counts self.new) result }
        ensures full { (counts self.old).links ≡ 2 ^ 64 - 1 → result ≡ Accept.Failed }
        ensures new { OnLink result (λ l. IsFreshLink
            (record {
              left = Self.Link.left l;
              given = Self.Link.given l;
              faults = Self.Link.Source.faults l;
            })
            (record { written = Self.Link.written l; faults = Self.Link.Sink.faults l })
            (Self.Link.Source.order l)) };
}
