//! Doors in memory.

ghost use Rattle.cm_io.specs.Doors.{Accepts, IsFreshLink, Listens, OnLink};
ghost use Rattle.cm_io.specs.InMemory.{after_call, unused};
ghost use Rattle.cm_io.specs.MemoryDoors.{GivesLink, IsToFail, is_failed_accept, as_sink};
ghost use Rattle.cm_io.specs.MemoryDoors.{as_source, counts_of};
ghost use Rattle.cm_io.specs.MemoryDoors.{is_failed_listen, link_order, listens_now};
ghost use Rattle.std.specs.Prelude.{◌≡◌, ◌↔◌, ◌-◌, ◌^◌, Contains, false};

use crate::memory::Planned;
use crate::{Accept, Door, FaultPlan, LinkPlan, Listen, MemoryLink};
use cm_names::List;
use std::alloc::Global;
use std::collections::VecDeque;
use std::marker::Model;
use std::sync::Wait;
use std::thread::Threads;

/// A door that gives one link after another, and then closes. Its calls fail where it is planned.
///
/// Contracts see the links that wait, the plan at work, and how many links and closings it counted.
#[derive(Drop)]
pub struct MemoryDoor {
    alloc: Global,
    waiting: VecDeque<LinkPlan>,
    planned: Planned,
    links: u64,
    closings: u64,
    listening: bool,
}

impl Model for MemoryDoor {
    ghost use Rattle.cm_io.specs.MemoryDoors.{DoorInMemory};

    ghost Value = { DoorInMemory };

    ghost view = { λ d. record {
      waiting = d.waiting.items;
      plan = record {
        piece = d.planned.piece;
        failing = d.planned.failing;
        calls = d.planned.calls;
        faults = d.planned.faults;
      };
      links = d.links;
      closings = d.closings;
      listening = d.listening;
    } };
}

impl MemoryDoor {
    /// A door that gives these links. The first call, be it a listen or an accept, has the number 0.
    pub fn new(alloc: Global, waiting: VecDeque<LinkPlan>, failing: List<u64>) -> MemoryDoor
        ensures { result ≡
            record {
              waiting = waiting.items;
              plan = unused 1 failing;
              links = 0;
              closings = 0;
              listening = false;
            } }
    {
        MemoryDoor {
            alloc,
            waiting,
            planned: Planned::new(FaultPlan { piece: 1, failing }),
            links: 0,
            closings: 0,
            listening: false,
        }
    }

    /// How many calls failed, up to 2^64 - 1.
    pub fn faults(&self) -> u64
        ensures { result ≡ self.now.plan.faults }
    {
        self.planned.faults
    }
}

impl Door for MemoryDoor {
    ghost use Rattle.cm_io.specs.MemoryDoors.{counts_of, place_in_memory};

    /// Its links are in memory.
    type Link = MemoryLink;

    ghost counts = { counts_of };

    ghost place = { place_in_memory };

    /// It fails exactly where that is planned.
    fn listen<R: Threads + Wait + Sync>(&mut self, _rt: &R, _at: &str) -> Listen
        ensures counts { Listens (counts_of self.old) (counts_of self.new) result }
        ensures failed { (result ≡ Listen.Failed) ↔ Contains self.old.plan.failing self.old.plan.calls }
        ensures call { self.new ≡ record self.old {
          plan = after_call (is_failed_listen result) self.old.plan;
          listening = listens_now self.old.listening result;
        } }
    {
        if self.planned.fails() {
            return Listen::Failed;
        }
        self.listening = true;
        Listen::Ready
    }

    /// It fails exactly where that is planned, or where 2^64 - 1 links were given. Any other accept
    /// gives the first link that waits, as it was planned, and closes exactly where none waits.
    fn accept<R: Threads + Wait + Sync>(&mut self, _rt: &R) -> Accept<MemoryLink>
        ensures counts { Accepts (counts_of self.old) (counts_of self.new) result }
        ensures full { self.old.links ≡ 2 ^ 64 - 1 → result ≡ Accept.Failed }
        ensures new { OnLink result (λ link. IsFreshLink (as_source link) (as_sink link) (link_order link)) }
        ensures failed { (result ≡ Accept.Failed) ↔ IsToFail self.old }
        ensures listening { self.new.listening ≡ self.old.listening }
        ensures gives { GivesLink self.old.waiting self.new.waiting result }
        ensures call { self.new.plan ≡ after_call (is_failed_accept result) self.old.plan }
    {
        if self.planned.fails() {
            return Accept::Failed;
        }
        if self.links == u64::MAX {
            self.planned.count_fault();
            return Accept::Failed;
        }
        match self.waiting.pop_front() {
            Some(plan) => {
                self.links += 1;
                Accept::Link(plan.into_link(self.alloc))
            }
            None => {
                self.closings = self.closings.saturating_add(1);
                Accept::Closed
            }
        }
    }
}
