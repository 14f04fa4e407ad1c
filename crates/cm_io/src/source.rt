//! Where bytes come from.

ghost use Rattle.std.specs.Prelude.{◌≡◌, ◌≢◌, ◌<◌, ◌∷◌, [], length};
ghost use Rattle.cm_io.specs.Orders.{MovesCame, gave as gave_move, got_bytes};
ghost use Rattle.cm_io.specs.Outside.{Gave, ReadCause, ReadsBytes};

use std::sync::Wait;
use std::thread::Threads;

/// What one read came to.
#[derive(Debug, Clone, Copy, PartialEq, Eq)]
pub enum Got {
    /// So many bytes, at least one, stand at the start of the buffer.
    Bytes(usize),
    /// Nothing is left.
    End,
    /// The source failed; its count of faults rose.
    Failed,
}

/// Where bytes come from. A source counts its faults, from 0 to 2^64 - 1, where the count stays.
pub trait Source: Drop {
    ghost use Rattle.std.specs.Prelude.{ℕ, List, Option, None};
    ghost use Rattle.cm_io.specs.Orders.{Move};
    ghost use Rattle.cm_io.specs.Outside.{AsSink};

    /// The bytes that are left, where they are known.
    ghost left: { Self → Option (List ℕ) };

    /// The bytes that it gave so far, where they are told.
    ghost given: { Self → Option (List ℕ) };

    /// How often it failed.
    ghost faults: { Self → ℕ };

    /// It never fails.
    ghost quiet: { Self → Type 0 };

    /// What it tells as a sink, where it is one as well: no read changes that.
    ghost beside: { Self → AsSink };

    /// In which order it was read, and written and hung up where it is a link, where it tells that.
    ghost order: { Self → Option (List Move) } = { λ _. None };

    /// Reads the next bytes, as many as come at once and fit.
    ///
    /// `End` comes only where nothing is left, and `Failed` only where the source failed: then its
    /// count of faults rises by one, and no byte is lost. A quiet source never answers `Failed`,
    /// and stays quiet.
    fn read<R: Threads + Wait + Sync>(&mut self, rt: &R, into: &mut [u8]) -> Got
        requires { 0 < length into.old }
        ensures bytes { ReadsBytes (left self.old) (left self.new) into.new result }
        ensures gave { Gave (given self.old) (given self.new) into.new result }
        ensures beside { beside self.new ≡ beside self.old }
        ensures order { MovesCame (order self.old) (order self.new)
            (gave_move (got_bytes into.new result) ∷ []) }
        ensures cause { ReadCause (faults self.old) (faults self.new) result }
        ensures quiet { quiet self.old → quiet self.new × (result ≢ Got.Failed) };
}
