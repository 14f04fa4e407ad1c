//! Networks, over which a connection is made to who listens at a place.

ghost use Rattle.std.specs.Prelude.{IfOk, OnErr, take};
ghost use Rattle.std.specs.Io.{ReadsAtMost};

use cm_io::standard::read_through;
use std::io;
use std::io::Write;
use std::net::Net;
use std::os::unix::net::UnixStream;
use std::time::Duration;

/// How many seconds each read and each write may wait. A runner that stops a program gives it less.
const PATIENCE: u64 = 30;

/// A connection to who listened at a place.
pub trait Connection: Drop {
    ghost use Rattle.std.specs.Prelude.{ℕ, List};

    /// All these bytes were written, from where the connection stood to where it stands now.
    ghost wrote: { Self → List ℕ → Self → Type 0 };

    /// Writing these bytes failed, from where the connection stood to where it stands now.
    ghost unsent: { Self → List ℕ → Self → Type 0 };

    /// These bytes were read, from where the connection stood to where it stands now.
    ghost gave: { Self → List ℕ → Self → Type 0 };

    /// Reading failed, from where the connection stood to where it stands now.
    ghost unheard: { Self → Self → Type 0 };

    /// Writes all these bytes.
    fn send(&mut self, bytes: &[u8]) -> io::Result<()>
        ensures wrote { IfOk result (λ _. wrote self.old bytes.now self.new) }
        ensures unsent { OnErr result (unsent self.old bytes.now self.new) };

    /// Reads the next bytes, as many as come at once and fit.
    fn receive(&mut self, into: &mut [u8]) -> io::Result<usize>
        ensures bound { ReadsAtMost result into.new }
        ensures gave { IfOk result (λ count. gave self.old (take count into.new) self.new) }
        ensures unheard { OnErr result (unheard self.old self.new) };
}

/// Where connections are made to who listens at a place.
///
/// Each system that may open sockets is such a network, by Unix sockets, and says nothing of who
/// listens where, or of what is said.
pub trait Network {
    ghost use Rattle.std.specs.Prelude.{ℕ, List};

    /// A connection that was made.
    type Connection: Connection;

    /// A connection was made to who listens at a place of this network, and nothing was said yet.
    ghost connected: { Self → List ℕ → Self.Connection → Type 0 };

    /// One connection to who listens at a place was asked for, and made or not, from where the network
    /// stood to where it stands now.
    ghost dialed: { Self → List ℕ → Self → Type 0 };

    /// A connection to who listens at a place was asked for and not made, from where the network stood to
    /// where it stands now.
    ghost unconnected: { Self → List ℕ → Self → Type 0 };

    /// Makes a connection to who listens at a place.
    fn connect_to(&mut self, place: &str) -> io::Result<Self::Connection>
        ensures connected { IfOk result (λ connection. connected self.new place.now connection) }
        ensures dialed { dialed self.old place.now self.new }
        ensures unconnected { OnErr result (unconnected self.old place.now self.new) };
}

impl Connection for UnixStream {
    ghost use Rattle.std.specs.Prelude.{⊤};

    ghost wrote = { λ _ _ _. ⊤ };

    ghost unsent = { λ _ _ _. ⊤ };

    ghost gave = { λ _ _ _. ⊤ };

    ghost unheard = { λ _ _. ⊤ };

    /// Writes all of the bytes; the error is the socket's.
    fn send(&mut self, bytes: &[u8]) -> io::Result<()> {
        self.write_all(bytes)
    }

    /// Reads into the buffer, and tells how many bytes came; 0 is the end.
    fn receive(&mut self, into: &mut [u8]) -> io::Result<usize> {
        read_through(self, into)
    }
}

impl<N: Net> Network for N {
    ghost use Rattle.std.specs.Prelude.{⊤};

    /// A connection is a Unix socket.
    type Connection = UnixStream;

    ghost connected = { λ _ _ _. ⊤ };

    ghost dialed = { λ _ _ _. ⊤ };

    ghost unconnected = { λ _ _ _. ⊤ };

    /// Connects to the socket file at the path. Reads and writes on it fail after a fixed time without
    /// an answer.
    fn connect_to(&mut self, place: &str) -> io::Result<UnixStream> {
        let stream = UnixStream::connect(self, place)?;
        stream.set_read_timeout(Some(Duration::from_secs(PATIENCE)))?;
        stream.set_write_timeout(Some(Duration::from_secs(PATIENCE)))?;
        Ok(stream)
    }
}
