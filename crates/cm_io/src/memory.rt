//! Sources and sinks in memory, which move bytes in pieces and fail where it is planned.

ghost use Rattle.cm_io.specs.Counts.{one_more};
ghost use Rattle.cm_io.specs.CountsInside.{count_after};
ghost use Rattle.cm_io.specs.InMemory.{after_call, most_of, sure_room, unused};
ghost use Rattle.cm_io.specs.Outside.{Gave, ReadCause, ReadsBytes, TookAnd, WriteCause, Writes};
ghost use Rattle.cm_io.specs.OutsideInside.{is_failed_read};
ghost use Rattle.cm_io.specs.OutsideInside.{is_failed_write};
ghost use Rattle.std.specs.Prelude.{IsTrue, ◌≡◌, ◌≢◌, ◌↔◌, ◌⊎◌, ◌<◌, ℕ, Some, [], ◌≤◌, ◌+◌, ◌-◌, ◌^◌};
ghost use Rattle.std.specs.Prelude.{length, min, max, Contains, IfOk};

use crate::{Got, Sink, Source, Took};
use cm_names::{Bytes, List, Memory};
use std::alloc::Global;
use std::marker::Model;
use std::sync::Wait;
use std::thread::Threads;

/// How an object in memory behaves: how many bytes one call moves at most, and which of its calls fail.
#[derive(Debug, Drop, Clone)]
pub struct FaultPlan {
    /// The most bytes that one call moves; 0 counts as 1.
    pub piece: usize,
    /// The numbers of the calls that fail; the first call has the number 0.
    pub failing: List<u64>,
}

impl FaultPlan {
    /// No call fails, and each moves all that it can.
    pub fn quiet(alloc: Global) -> FaultPlan
        ensures { result ≡ record { piece = 2 ^ 64 - 1; failing = [] } }
    {
        FaultPlan {
            piece: usize::MAX,
            failing: List::new(alloc),
        }
    }
}

/// Whether the call of this number is one of these.
fn is_among(calls: &[u64], call: u64) -> bool
    ensures { IsTrue result ↔ Contains calls.now call }
{
    calls.contains(&call)
}

/// A plan at work: how many calls were made, and how many faults were counted.
#[derive(Drop)]
pub(crate) struct Planned {
    piece: usize,
    failing: List<u64>,
    calls: u64,
    pub(crate) faults: u64,
}

impl Planned {
    /// The plan before the first call.
    pub(crate) fn new(plan: FaultPlan) -> Planned
        ensures { result ≡ record { piece = plan.piece; failing = plan.failing; calls = 0; faults = 0 } }
    {
        let FaultPlan { piece, failing } = plan;
        Planned {
            piece,
            failing,
            calls: 0,
            faults: 0,
        }
    }

    /// The most bytes that one call moves.
    fn most(&self) -> usize
        ensures { result ≡ max self.now.piece 1 }
    {
        self.piece.max(1)
    }

    /// Counts one more fault, up to 2^64 - 1.
    pub(crate) fn count_fault(&mut self)
        ensures later { self.old.faults ≤ self.new.faults }
        ensures count { self.new ≡ record self.old { faults = one_more self.old.faults } }
    {
        self.faults = self.faults.saturating_add(1);
    }

    /// Counts the call that now begins. Tells whether it fails; if so, the fault is counted.
    pub(crate) fn fails(&mut self) -> bool
        ensures planned { IsTrue result ↔ Contains self.old.failing self.old.calls }
        ensures later { self.old.faults ≤ self.new.faults }
        ensures call { self.new ≡ record self.old {
          calls = one_more self.old.calls;
          faults = count_after result self.old.faults;
        } }
    {
        let fails = is_among(self.failing.as_slice(), self.calls);
        self.calls = self.calls.saturating_add(1);
        if fails {
            self.count_fault();
        }
        fails
    }
}

/// A source that gives the bytes of a list.
///
/// Contracts see the bytes that it gave, those that are left, and the plan at work.
#[derive(Drop)]
pub struct MemorySource {
    bytes: Vec<u8>,
    given: usize,
    planned: Planned,
}

impl Model for MemorySource {
    ghost use Rattle.std.specs.Prelude.{◌≤◌, drop, length, take};
    ghost use Rattle.cm_io.specs.InMemory.{SourceInMemory};

    ghost Value = { SourceInMemory };

    ghost view = { λ s. record {
      given = take s.given s.bytes.items;
      left = drop s.given s.bytes.items;
      plan = record {
        piece = s.planned.piece;
        failing = s.planned.failing;
        calls = s.planned.calls;
        faults = s.planned.faults;
      };
    } };

    ghost invariant = { λ s. s.given ≤ length s.bytes.items };
}

impl MemorySource {
    /// A source of these bytes, which has not been read yet.
    pub fn new(bytes: Bytes, plan: FaultPlan) -> MemorySource
        ensures { result ≡ record { given = []; left = bytes; plan = unused plan.piece plan.failing } }
    {
        MemorySource {
            bytes: bytes.into_vec(),
            given: 0,
            planned: Planned::new(plan),
        }
    }

    /// How many reads failed, up to 2^64 - 1.
    pub fn faults(&self) -> u64
        ensures { result ≡ self.now.plan.faults }
    {
        self.planned.faults
    }
}

impl Source for MemorySource {
    ghost use Rattle.std.specs.Prelude.{◌≡◌, Some, []};
    ghost use Rattle.cm_io.specs.OutsideInside.{no_sink};

    ghost left = { λ s. Some s.left };

    ghost given = { λ s. Some s.given };

    ghost beside = { λ _. no_sink };

    ghost faults = { λ s. s.plan.faults };

    ghost quiet = { λ s. s.plan.failing ≡ [] };

    /// Gives the next bytes of the list, as many as the plan lets one call move, or fails where that is
    /// planned.
    fn read<R: Threads + Wait + Sync>(&mut self, _rt: &R, into: &mut [u8]) -> Got
        requires { 0 < length into.old }
        ensures bytes { ReadsBytes (Some self.old.left) (Some self.new.left) into.new result }
        ensures gave { Gave (Some self.old.given) (Some self.new.given) into.new result }
        ensures beside { no_sink ≡ no_sink }
        ensures cause { ReadCause self.old.plan.faults self.new.plan.faults result }
        ensures quiet { self.old.plan.failing ≡ [] → (self.new.plan.failing ≡ []) × (result ≢ Got.Failed) }
        ensures failed { (result ≡ Got.Failed) ↔ Contains self.old.plan.failing self.old.plan.calls }
        ensures call { self.new.plan ≡ after_call (is_failed_read result) self.old.plan }
        ensures piece { (n : ℕ) → result ≡ Got.Bytes n →
            n ≡ min (min (length self.old.left) (length into.old)) (most_of self.old.plan) }
    {
        if self.planned.fails() {
            return Got::Failed;
        }
        let left = &self.bytes[self.given..];
        let count = left.len().min(into.len()).min(self.planned.most());
        if count == 0 {
            return Got::End;
        }
        into[..count].copy_from_slice(&left[..count]);
        self.given += count;
        Got::Bytes(count)
    }
}

/// A sink that keeps the bytes in a list. A write for which no memory is found fails.
///
/// Contracts see the bytes that were written, for how many bytes in all it holds memory, and the
/// plan at work.
#[derive(Drop)]
pub struct MemorySink {
    bytes: Vec<u8>,
    planned: Planned,
}

impl Model for MemorySink {
    ghost use Rattle.std.specs.Prelude.{vec_capacity};
    ghost use Rattle.cm_io.specs.InMemory.{SinkInMemory};

    ghost Value = { SinkInMemory };

    ghost view = { λ s. record {
      written = s.bytes.items;
      capacity = vec_capacity s.bytes;
      plan = record {
        piece = s.planned.piece;
        failing = s.planned.failing;
        calls = s.planned.calls;
        faults = s.planned.faults;
      };
    } };
}

impl MemorySink {
    /// A sink that holds nothing yet. It takes memory as bytes are written.
    pub fn new(alloc: Global, plan: FaultPlan) -> MemorySink
        ensures { result ≡ record { written = []; capacity = 0; plan = unused plan.piece plan.failing } }
    {
        MemorySink {
            bytes: Vec::new(alloc),
            planned: Planned::new(plan),
        }
    }

    /// A sink that holds nothing yet, with memory for `capacity` bytes: a write that fits into it
    /// fails only where that is planned. `Memory` where memory ran out.
    pub fn with_capacity(
        alloc: Global,
        capacity: usize,
        plan: FaultPlan,
    ) -> Result<MemorySink, Memory>
        ensures { IfOk result (λ sink. sink ≡
            record { written = []; capacity = capacity; plan = unused plan.piece plan.failing }) }
    {
        let bytes = Vec::with_capacity(alloc, capacity)?;
        Ok(MemorySink {
            bytes,
            planned: Planned::new(plan),
        })
    }

    /// What was written.
    pub fn bytes(&self) -> &[u8]
        ensures { result.now ≡ self.now.written }
    {
        self.bytes.as_slice()
    }

    /// How many writes failed, up to 2^64 - 1.
    pub fn faults(&self) -> u64
        ensures { result ≡ self.now.plan.faults }
    {
        self.planned.faults
    }
}

impl Sink for MemorySink {
    ghost use Rattle.std.specs.Prelude.{Some};
    ghost use Rattle.cm_io.specs.InMemory.{sure_room};
    ghost use Rattle.cm_io.specs.OutsideInside.{no_source};

    ghost written = { λ s. Some s.written };

    ghost faults = { λ s. s.plan.faults };

    ghost room = { sure_room };

    ghost beside = { λ _. no_source };

    /// Keeps first bytes of the piece, as many as the plan lets one call move. It fails where that is
    /// planned, or where no memory is found.
    fn write<R: Threads + Wait + Sync>(&mut self, _rt: &R, bytes: &[u8]) -> Took
        requires { 0 < length bytes.now }
        ensures bytes { Writes (Some self.old.written) (Some self.new.written) bytes.now result }
        ensures beside { no_source ≡ no_source }
        ensures cause { WriteCause self.old.plan.faults self.new.plan.faults result }
        ensures room { length bytes.now ≤ sure_room self.old →
            TookAnd result (λ n. sure_room self.old ≤ n + sure_room self.new) }
        ensures planned { Contains self.old.plan.failing self.old.plan.calls → result ≡ Took.Failed }
        ensures memory { result ≡ Took.Failed → Contains self.old.plan.failing self.old.plan.calls
            ⊎ (self.old.capacity < length self.old.written + min (length bytes.now) (most_of self.old.plan)) }
        ensures call { self.new.plan ≡ after_call (is_failed_write result) self.old.plan }
        ensures piece { (n : ℕ) → result ≡ Took.Bytes n → n ≡ min (length bytes.now) (most_of self.old.plan) }
        ensures capacity { self.old.capacity ≤ self.new.capacity }
    {
        if self.planned.fails() {
            return Took::Failed;
        }
        let count = bytes.len().min(self.planned.most());
        match self.bytes.extend_from_slice(&bytes[..count]) {
            Ok(()) => Took::Bytes(count),
            Err(_) => {
                self.planned.count_fault();
                Took::Failed
            }
        }
    }
}
