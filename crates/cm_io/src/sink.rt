//! Where bytes go.

ghost use Rattle.std.specs.Prelude.{◌≡◌, ◌<◌, ◌≤◌, ◌+◌, ◌∷◌, [], length};
ghost use Rattle.cm_io.specs.Orders.{MovesCame, wrote, took_bytes};
ghost use Rattle.cm_io.specs.Outside.{TookAnd, WriteCause, Writes};

use std::sync::Wait;
use std::thread::Threads;

/// What one write came to.
#[derive(Debug, Clone, Copy, PartialEq, Eq)]
pub enum Took {
    /// So many bytes of the piece, at least one, were written.
    Bytes(usize),
    /// The sink failed, or took nothing; its count of faults rose.
    Failed,
}

/// Where bytes go. A sink counts its faults, from 0 to 2^64 - 1, where the count stays.
pub trait Sink: Drop {
    ghost use Rattle.std.specs.Prelude.{ℕ, List, Option, None};
    ghost use Rattle.cm_io.specs.Orders.{Move};
    ghost use Rattle.cm_io.specs.Outside.{AsSource};

    /// The bytes that were written, where they are known.
    ghost written: { Self → Option (List ℕ) };

    /// How often it failed.
    ghost faults: { Self → ℕ };

    /// How many more bytes it is sure to take without failing; 0 where that isn't known.
    ghost room: { Self → ℕ };

    /// What it tells as a source, where it is one as well: no write changes that.
    ghost beside: { Self → AsSource };

    /// In which order it was written, and read and hung up where it is a link, where it tells that.
    ghost order: { Self → Option (List Move) } = { λ _. None };

    /// Writes bytes from the start of the piece, as many as are taken at once.
    ///
    /// `Failed` comes only where the sink failed: then its count of faults rises by one, and
    /// nothing was written. A piece for which there is sure to be room doesn't fail, and takes no
    /// more room than the bytes that were taken.
    fn write<R: Threads + Wait + Sync>(&mut self, rt: &R, bytes: &[u8]) -> Took
        requires { 0 < length bytes.now }
        ensures bytes { Writes (written self.old) (written self.new) bytes.now result }
        ensures beside { beside self.new ≡ beside self.old }
        ensures order { MovesCame (order self.old) (order self.new)
            (wrote (took_bytes bytes.now result) ∷ []) }
        ensures cause { WriteCause (faults self.old) (faults self.new) result }
        ensures room { length bytes.now ≤ room self.old →
            TookAnd result (λ n. room self.old ≤ n + room self.new) };
}
