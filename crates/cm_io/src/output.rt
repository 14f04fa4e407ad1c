//! Writing the whole of a text.

ghost use Rattle.std.specs.Prelude.{◌≡◌, ◌≤◌, ◌+◌, length};
ghost use Rattle.cm_io.specs.OrdersInside.{PutsInOrder};
ghost use Rattle.cm_io.specs.OutsideInside.{PutCause, PutsAll};

use crate::{Sink, Took};
use std::sync::Wait;
use std::thread::Threads;

/// What writing a whole text came to.
#[derive(Debug, Clone, Copy, PartialEq, Eq)]
pub enum Put {
    /// All of it was written.
    Done,
    /// The sink failed after so many bytes, fewer than all; its count of faults rose.
    WriteFault(u64),
}

/// Writes all of the bytes, piece by piece, until the sink fails. It takes no memory.
///
/// `WriteFault` comes only where the sink failed in this call, and never where there is sure to be
/// room for the bytes.
pub fn put_all<R: Threads + Wait + Sync, K: Sink>(rt: &R, sink: &mut K, bytes: &[u8]) -> Put
    ensures bytes { PutsAll (K.written sink.old) (K.written sink.new) bytes.now result }
    ensures order { PutsInOrder (K.order sink.old) (K.order sink.new) bytes.now result }
    ensures beside { K.beside sink.new ≡ K.beside sink.old }
    ensures cause { PutCause (K.faults sink.old) (K.faults sink.new) result }
    ensures room { length bytes.now ≤ K.room sink.old → K.room sink.old ≤ length bytes.now + K.room sink.new }
    ensures unfailing { length bytes.now ≤ K.room sink.old → result ≡ Put.Done }
{
    let mut done = 0;
    'pieces: while done < bytes.len() {
        match sink.write(rt, &bytes[done..]) {
            Took::Bytes(count) => done += count,
            Took::Failed => return Put::WriteFault(done as u64),
        }
    }
    Put::Done
}
