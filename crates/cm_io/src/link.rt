//! Connections.

ghost use Rattle.std.specs.Prelude.{◌≡◌, ◌∷◌, []};
ghost use Rattle.cm_io.specs.Orders.{MovesCame, hung_up};

use crate::{Sink, Source};
use std::sync::Wait;
use std::thread::Threads;

/// A connection with one peer: a source of what the peer sends, and a sink of what is sent to it.
///
/// Its two sides are apart: a read changes neither the bytes that were written nor the count of
/// failed writes, and a write neither the bytes that are left or were given nor the count of failed
/// reads.
pub trait Link: Source + Sink {
    ghost use Rattle.cm_io.specs.Outside.{AsSink, AsSource};

    /// Lets the peer know that nothing more comes, at the end of its session. These bytes and both
    /// counts stay as they are.
    fn hang_up<R: Threads + Wait + Sync>(&mut self, rt: &R)
        ensures source { Self.Sink.beside self.new ≡ Self.Sink.beside self.old }
        ensures sink { Self.Source.beside self.new ≡ Self.Source.beside self.old }
        ensures order { MovesCame (Self.Source.order self.old) (Self.Source.order self.new) (hung_up ∷ []) };

    /// What no read changes is what it tells as a sink.
    ghost sink_apart: { (l : Self) →
        Self.Source.beside l ≡ record { written = Self.written l; faults = Self.Sink.faults l } };

    /// What no write changes is what it tells as a source.
    ghost source_apart: { (l : Self) →
        Self.Sink.beside l ≡
        record { left = Self.left l; given = Self.given l; faults = Self.Source.faults l } };

    /// Reads and writes stand in one order.
    ghost one_order: { (l : Self) → Self.Source.order l ≡ Self.Sink.order l };
}
