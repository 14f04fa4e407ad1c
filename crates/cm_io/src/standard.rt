//! Readers and writers of the standard library as sources and sinks.

ghost use Rattle.std.specs.Io.{ReadsAtMost, WritesAtMost};
ghost use Rattle.std.specs.Io.KnownBytes.{ReadConsumes, WriteAppends};
ghost use Rattle.std.specs.Prelude.{◌≡◌};

use crate::{Got, Sink, Source, Took};
use std::io::{ErrorKind, Read, Result, Write};
use std::sync::Wait;
use std::thread::Threads;

/// Reads once, and again where a signal cut the call short.
pub fn read_through<T: Read + Drop>(inner: &mut T, into: &mut [u8]) -> Result<usize>
    ensures bound { ReadsAtMost result into.new }
    ensures bytes { ReadConsumes (T.remaining inner.old) (T.remaining inner.new) result into.new }
{
    for _ in 0..u64::MAX {
        match inner.read(into) {
            Err(error) if error.kind() == ErrorKind::Interrupted => {}
            result => return result,
        }
    }
    inner.read(into)
}

/// Writes once, and again where a signal cut the call short.
pub(crate) fn write_through<T: Write + Drop>(inner: &mut T, bytes: &[u8]) -> Result<usize>
    ensures bound { WritesAtMost result bytes.now }
    ensures bytes { WriteAppends (T.contents inner.old) (T.contents inner.new) result bytes.now }
{
    for _ in 0..u64::MAX {
        match inner.write(bytes) {
            Err(error) if error.kind() == ErrorKind::Interrupted => {}
            result => return result,
        }
    }
    inner.write(bytes)
}

/// A reader whose faults are counted. A call that a signal cut short is made again, and counts as no fault.
#[derive(Drop)]
pub struct Reading<T> {
    inner: T,
    faults: u64,
}

impl<T: Read + Drop> Reading<T> {
    /// The reader, which has not failed yet.
    pub fn new(inner: T) -> Reading<T>
        ensures left { ⟦<Reading<T> as Source>⟧.left result ≡ T.remaining inner }
        ensures faults { ⟦<Reading<T> as Source>⟧.faults result ≡ 0 }
    {
        Reading { inner, faults: 0 }
    }
}

impl<T: Read + Drop> Source for Reading<T> {
    ghost use Rattle.std.specs.Prelude.{None};
    ghost use Rattle.cm_io.specs.OutsideInside.{no_sink};

    ghost left = { λ s. T.remaining s.inner };

    ghost given = { λ _. None };

    ghost beside = { λ _. no_sink };

    ghost faults = { λ s. s.faults };

    ghost quiet = { λ _. ⊥ };

    /// Reads from the stream; every error of it counts as a fault.
    fn read<R: Threads + Wait + Sync>(&mut self, _rt: &R, into: &mut [u8]) -> Got {
        match read_through(&mut self.inner, into) {
            Ok(0) => Got::End,
            Ok(count) => Got::Bytes(count),
            Err(_) => {
                self.faults = self.faults.saturating_add(1);
                Got::Failed
            }
        }
    }
}

/// A writer whose faults are counted. Taking nothing counts as a fault; a call that a signal cut
/// short is made again, and counts as none.
#[derive(Drop)]
pub struct Writing<T> {
    inner: T,
    faults: u64,
}

impl<T: Write + Drop> Writing<T> {
    /// The writer, which has not failed yet.
    pub fn new(inner: T) -> Writing<T>
        ensures written { ⟦<Writing<T> as Sink>⟧.written result ≡ T.contents inner }
        ensures faults { ⟦<Writing<T> as Sink>⟧.faults result ≡ 0 }
    {
        Writing { inner, faults: 0 }
    }
}

impl<T: Write + Drop> Sink for Writing<T> {
    ghost use Rattle.cm_io.specs.OutsideInside.{no_source};

    ghost written = { λ s. T.contents s.inner };

    ghost beside = { λ _. no_source };

    ghost faults = { λ s. s.faults };

    ghost room = { λ _. 0 };

    /// Writes to the stream; every error of it, and a write of no byte, count as faults.
    fn write<R: Threads + Wait + Sync>(&mut self, _rt: &R, bytes: &[u8]) -> Took {
        match write_through(&mut self.inner, bytes) {
            Ok(count) if count > 0 => Took::Bytes(count),
            _ => {
                self.faults = self.faults.saturating_add(1);
                Took::Failed
            }
        }
    }
}
