//! A client that sends its next line once the reply to the last one is there, and no sooner.

use crate::player::end_of_case;
use cm_io::{Got, Link, Sink, Source, Took};
use cm_session::Ended;
use std::sync::Wait;
use std::thread::Threads;

/// What it sends. The last line is none of its own, since no line feed ends it.
const SENT: &[u8] = b"show .\nfoo\nresolve .\nshow .";

/// The byte that ends a line, and a reply.
const LINE_END: u8 = b'\n';

/// Such a client, as the link that its server has. A read while a reply is due fails: the client would
/// send nothing, and the server would wait for ever.
#[derive(Drop)]
struct LockStep {
    /// How many bytes it sent.
    sent: usize,
    /// How many lines it sent.
    lines: u64,
    /// How many replies it has.
    replies: u64,
    /// How often it was hung up on.
    hung_up: u64,
    read_faults: u64,
}

impl Source for LockStep {
    ghost use Rattle.std.specs.Prelude.{None};

    ghost left = { λ _. None };

    ghost given = { λ _. None };

    ghost faults = { λ l. l.read_faults };

    ghost quiet = { λ _. ⊥ };

    ghost beside = { λ _. record { written = None; faults = 0 } };

    /// Gives the next byte of the client's lines. It fails where a line's reply is still owed, so reads
    /// and replies must alternate.
    fn read<R: Threads + Wait + Sync>(&mut self, _rt: &R, into: &mut [u8]) -> Got {
        if self.replies < self.lines {
            self.read_faults = self.read_faults.saturating_add(1);
            return Got::Failed;
        }
        match SENT.get(self.sent) {
            Some(byte) => {
                into[0] = *byte;
                self.sent += 1;
                if *byte == LINE_END {
                    self.lines = self.lines.saturating_add(1);
                }
                Got::Bytes(1)
            }
            None => Got::End,
        }
    }
}

impl Sink for LockStep {
    ghost use Rattle.std.specs.Prelude.{None};

    ghost written = { λ _. None };

    ghost faults = { λ _. 0 };

    ghost room = { λ _. 0 };

    ghost beside = { λ l. record { left = None; given = None; faults = l.read_faults } };

    /// Takes one byte, and counts the replies by their line feeds.
    fn write<R: Threads + Wait + Sync>(&mut self, _rt: &R, bytes: &[u8]) -> Took {
        if bytes[0] == LINE_END {
            self.replies = self.replies.saturating_add(1);
        }
        Took::Bytes(1)
    }
}

impl Link for LockStep {
    ghost use Rattle.std.specs.Prelude.{refl};

    ghost sink_apart = { λ _. refl };

    ghost source_apart = { λ _. refl };

    ghost one_order = { λ _. refl };

    /// Counts that it was hung up on.
    fn hang_up<R: Threads + Wait + Sync>(&mut self, _rt: &R) {
        self.hung_up = self.hung_up.saturating_add(1);
    }
}

/// A client that sends a line only after the last one's reply is served whole.
#[test]
fn client_in_lock_step(rt: HostRuntime) {
    let mut link = LockStep {
        sent: 0,
        lines: 0,
        replies: 0,
        hung_up: 0,
        read_faults: 0,
    };
    let ended = end_of_case(&rt, rt.alloc(), "4194304 65536 - - none", &mut link);
    let told = (link.lines, link.replies, link.hung_up);
    drop(link);
    assert!(rt; ended == Some(Ended::End));
    assert!(rt; told == (3, 4, 1), "{told:?}");
}
