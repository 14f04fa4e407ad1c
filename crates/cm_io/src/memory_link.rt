//! Links in memory.

ghost use Rattle.cm_io.specs.InMemory.{after_call, most_of, sure_room};
ghost use Rattle.cm_io.specs.MemoryDoors.{as_sink, as_source, link_order, made_by};
ghost use Rattle.cm_io.specs.Orders.{MovesCame, gave as gave_move, got_bytes, hung_up, took_bytes};
ghost use Rattle.cm_io.specs.Orders.{wrote as wrote_move};
ghost use Rattle.cm_io.specs.Outside.{Gave, ReadCause, ReadsBytes, TookAnd, WriteCause, Writes};
ghost use Rattle.cm_io.specs.OutsideInside.{is_failed_read};
ghost use Rattle.cm_io.specs.OutsideInside.{is_failed_write};
ghost use Rattle.std.specs.Prelude.{◌≡◌, ◌≢◌, ◌↔◌, ◌⊎◌, ◌<◌, ◌≤◌, ◌+◌, ◌∷◌, ℕ, Some, []};
ghost use Rattle.std.specs.Prelude.{length, min, Contains};

use crate::steps::StepLog;
use crate::{FaultPlan, Got, Link, MemorySink, MemorySource, Sink, Source, Took};
use cm_names::Bytes;
use std::alloc::Global;
use std::sync::Wait;
use std::thread::Threads;

/// A link that gives the bytes of a list, and keeps in a list what is written.
///
/// Each side is an object of its own: it moves bytes and fails by its own plan, and counts its own
/// calls.
#[derive(Drop)]
pub struct MemoryLink {
    /// What it gives.
    pub source: MemorySource,
    /// What is written.
    pub sink: MemorySink,
    /// In which order it was read, written and hung up.
    pub log: StepLog,
}

impl Source for MemoryLink {
    ghost use Rattle.std.specs.Prelude.{◌≡◌, Some, []};
    ghost use Rattle.cm_io.specs.MemoryDoors.{as_sink, link_order};

    ghost left = { λ l. Some l.source.left };

    ghost given = { λ l. Some l.source.given };

    ghost faults = { λ l. l.source.plan.faults };

    ghost quiet = { λ l. l.source.plan.failing ≡ [] };

    ghost beside = { as_sink };

    ghost order = { link_order };

    /// Reads from its own source, and notes the read in the order.
    fn read<R: Threads + Wait + Sync>(&mut self, rt: &R, into: &mut [u8]) -> Got
        requires { 0 < length into.old }
        ensures bytes { ReadsBytes (Some self.old.source.left) (Some self.new.source.left) into.new result }
        ensures gave { Gave (Some self.old.source.given) (Some self.new.source.given) into.new result }
        ensures beside { as_sink self.new ≡ as_sink self.old }
        ensures order { MovesCame (link_order self.old) (link_order self.new)
            (gave_move (got_bytes into.new result) ∷ []) }
        ensures cause { ReadCause self.old.source.plan.faults self.new.source.plan.faults result }
        ensures quiet { self.old.source.plan.failing ≡ [] →
            (self.new.source.plan.failing ≡ []) × (result ≢ Got.Failed) }
        ensures failed { (result ≡ Got.Failed) ↔
            Contains self.old.source.plan.failing self.old.source.plan.calls }
        ensures call { self.new.source.plan ≡ after_call (is_failed_read result) self.old.source.plan }
        ensures piece { (n : ℕ) → result ≡ Got.Bytes n →
            n ≡ min (min (length self.old.source.left) (length into.old)) (most_of self.old.source.plan) }
        ensures apart { self.new.sink ≡ self.old.sink }
    {
        let got = self.source.read(rt, into);
        match got {
            Got::Bytes(count) => self.log.note_gave(&into[..count]),
            Got::End | Got::Failed => self.log.note_gave(&[]),
        }
        got
    }
}

impl Sink for MemoryLink {
    ghost use Rattle.std.specs.Prelude.{Some};
    ghost use Rattle.cm_io.specs.InMemory.{sure_room};
    ghost use Rattle.cm_io.specs.MemoryDoors.{as_source, link_order};

    ghost written = { λ l. Some l.sink.written };

    ghost faults = { λ l. l.sink.plan.faults };

    ghost room = { λ l. sure_room l.sink };

    ghost beside = { as_source };

    ghost order = { link_order };

    /// Writes to its own sink, and notes the write in the order.
    fn write<R: Threads + Wait + Sync>(&mut self, rt: &R, bytes: &[u8]) -> Took
        requires { 0 < length bytes.now }
        ensures bytes { Writes (Some self.old.sink.written) (Some self.new.sink.written) bytes.now result }
        ensures beside { as_source self.new ≡ as_source self.old }
        ensures order { MovesCame (link_order self.old) (link_order self.new)
            (wrote_move (took_bytes bytes.now result) ∷ []) }
        ensures cause { WriteCause self.old.sink.plan.faults self.new.sink.plan.faults result }
        ensures room { length bytes.now ≤ sure_room self.old.sink →
            TookAnd result (λ n. sure_room self.old.sink ≤ n + sure_room self.new.sink) }
        ensures planned { Contains self.old.sink.plan.failing self.old.sink.plan.calls →
            result ≡ Took.Failed }
        ensures memory { result ≡ Took.Failed →
            Contains self.old.sink.plan.failing self.old.sink.plan.calls
            ⊎ (self.old.sink.capacity <
            length self.old.sink.written + min (length bytes.now) (most_of self.old.sink.plan)) }
        ensures call { self.new.sink.plan ≡ after_call (is_failed_write result) self.old.sink.plan }
        ensures piece { (n : ℕ) → result ≡ Took.Bytes n →
            n ≡ min (length bytes.now) (most_of self.old.sink.plan) }
        ensures capacity { self.old.sink.capacity ≤ self.new.sink.capacity }
        ensures apart { self.new.source ≡ self.old.source }
    {
        let took = self.sink.write(rt, bytes);
        match took {
            Took::Bytes(count) => self.log.note_wrote(&bytes[..count]),
            Took::Failed => self.log.note_wrote(&[]),
        }
        took
    }
}

impl Link for MemoryLink {
    ghost use Rattle.std.specs.Prelude.{refl};

    ghost sink_apart = { λ _. refl };

    ghost source_apart = { λ _. refl };

    ghost one_order = { λ _. refl };

    /// Only notes that it was hung up on.
    fn hang_up<R: Threads + Wait + Sync>(&mut self, _rt: &R)
        ensures source { as_source self.new ≡ as_source self.old }
        ensures sink { as_sink self.new ≡ as_sink self.old }
        ensures order { MovesCame (link_order self.old) (link_order self.new) (hung_up ∷ []) }
        ensures kept { (self.new.source ≡ self.old.source) × (self.new.sink ≡ self.old.sink) }
    {
        self.log.note_hung_up();
    }
}

/// What a link in memory is made of: the bytes that it gives, and how its two sides behave.
#[derive(Drop)]
pub struct LinkPlan {
    pub bytes: Bytes,
    pub source: FaultPlan,
    pub sink: FaultPlan,
}

impl LinkPlan {
    /// A link by this plan. It gave nothing yet, and nothing was written to it; it takes memory as
    /// bytes are written.
    pub fn into_link(self, alloc: Global) -> MemoryLink
        ensures { result ≡ made_by self }
    {
        let LinkPlan {
            bytes,
            source,
            sink,
        } = self;
        MemoryLink {
            source: MemorySource::new(bytes, source),
            sink: MemorySink::new(alloc, sink),
            log: StepLog::new(alloc),
        }
    }
}
