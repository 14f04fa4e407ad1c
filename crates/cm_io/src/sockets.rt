//! Unix sockets as doors and links.

ghost use Rattle.std.specs.Prelude.{◌≡◌};
ghost use Rattle.cm_io.specs.Doors.{nowhere};

use crate::standard::{read_through, write_through};
use crate::{Accept, Door, Got, Link, Listen, Sink, Source, Took};
use std::fs::File;
use std::io::ErrorKind;
use std::net::{Net, Shutdown};
use std::os::unix::fs::{FileTypeExt, PermissionsExt};
use std::os::unix::net::{UnixListener, UnixStream};
use std::path::AsPath;
use std::rt::Files;
use std::sync::Wait;
use std::thread::Threads;
use std::{fs, io};

/// A connection over a Unix socket. It counts its faults on each side.
#[derive(Drop)]
pub struct SocketLink {
    /// The socket, until its session is over.
    stream: Option<UnixStream>,
    read_faults: u64,
    write_faults: u64,
}

impl SocketLink {
    /// The connection over this socket.
    pub fn new(stream: UnixStream) -> SocketLink
        ensures read { ⟦<SocketLink as Source>⟧.faults result ≡ 0 }
        ensures write { ⟦<SocketLink as Sink>⟧.faults result ≡ 0 }
    {
        SocketLink {
            stream: Some(stream),
            read_faults: 0,
            write_faults: 0,
        }
    }
}

impl Source for SocketLink {
    ghost use Rattle.std.specs.Prelude.{None};

    ghost left = { λ _. None };

    ghost given = { λ _. None };

    ghost faults = { λ l. l.read_faults };

    ghost quiet = { λ _. ⊥ };

    ghost beside = { λ l. record { written = None; faults = l.write_faults } };

    /// Reads from the socket. Every error of it, and a read after it was hung up, counts as a fault.
    fn read<R: Threads + Wait + Sync>(&mut self, _rt: &R, into: &mut [u8]) -> Got {
        if let Some(stream) = &mut self.stream {
            match read_through(stream, into) {
                Ok(0) => return Got::End,
                Ok(count) => return Got::Bytes(count),
                Err(_) => {}
            }
        }
        self.read_faults = self.read_faults.saturating_add(1);
        Got::Failed
    }
}

impl Sink for SocketLink {
    ghost use Rattle.std.specs.Prelude.{None};

    ghost written = { λ _. None };

    ghost faults = { λ l. l.write_faults };

    ghost room = { λ _. 0 };

    ghost beside = { λ l. record { left = None; given = None; faults = l.read_faults } };

    /// Writes to the socket. Every error of it, a write of no byte, and one after it was hung up count
    /// as faults.
    fn write<R: Threads + Wait + Sync>(&mut self, _rt: &R, bytes: &[u8]) -> Took {
        if let Some(stream) = &mut self.stream {
            match write_through(stream, bytes) {
                Ok(count) if count > 0 => return Took::Bytes(count),
                _ => {}
            }
        }
        self.write_faults = self.write_faults.saturating_add(1);
        Took::Failed
    }
}

impl Link for SocketLink {
    ghost use Rattle.std.specs.Prelude.{refl};

    ghost sink_apart = { λ _. refl };

    ghost source_apart = { λ _. refl };

    ghost one_order = { λ _. refl };

    /// Closes the socket, so that the peer reads its end, and the descriptor is free.
    fn hang_up<R: Threads + Wait + Sync>(&mut self, _rt: &R) {
        if let Some(stream) = self.stream.take() {
            close(stream);
        }
    }
}

/// Closes the socket. What the peer sent and nobody read is dropped before, since the peer would
/// else read a fault in place of the end.
fn close(mut stream: UnixStream) {
    let mut rest = [0_u8; 256];
    if stream.shutdown(Shutdown::Both).is_err() {
        return;
    }
    for _ in 0..u64::MAX {
        match read_through(&mut stream, &mut rest) {
            Ok(count) if count > 0 => {}
            _ => return,
        }
    }
}

/// A door at a path of the file system. It never answers `Closed`.
#[derive(Drop)]
pub struct SocketDoor<N> {
    system: N,
    listener: Option<UnixListener>,
    faults: u64,
    links: u64,
}

impl<N: Files<File = File> + Net + Drop> SocketDoor<N> {
    /// A door at which nobody can come yet.
    pub fn new(system: N) -> SocketDoor<N>
        ensures counts { ⟦<SocketDoor<N> as Door>⟧.counts result ≡
            record { faults = 0; links = 0; closings = 0 } }
        ensures place { ⟦<SocketDoor<N> as Door>⟧.place result ≡ nowhere }
    {
        SocketDoor {
            system,
            listener: None,
            faults: 0,
            links: 0,
        }
    }

    /// Listens no longer, and removes the socket file of the last listen that succeeded, where a
    /// socket is still there. The file would outlive the program.
    pub fn close(&mut self)
        ensures place { ⟦<SocketDoor<N> as Door>⟧.place self.new ≡ nowhere }
        ensures counts { ⟦<SocketDoor<N> as Door>⟧.counts self.new ≡
            ⟦<SocketDoor<N> as Door>⟧.counts self.old }
    {
        if let Some(listener) = self.listener.take() {
            remove_file_of(&self.system, &listener);
        }
    }
}

/// Removes the socket file at which the listener listens.
fn remove_file_of<N: Files>(system: &N, listener: &UnixListener) {
    if let Ok(address) = listener.local_addr() {
        if let Some(path) = address.as_pathname() {
            if is_socket(system, path.path_text()) {
                let _removed = fs::remove_file(system, path);
            }
        }
    }
}

/// Whether there is a socket file at the path. A link to one is none.
fn is_socket<N: Files>(system: &N, at: &str) -> bool {
    match fs::symlink_metadata(system, at) {
        Ok(about) => about.file_type().is_socket(),
        Err(_) => false,
    }
}

/// Whether a server that is dead left its socket file at the path: nobody listens there. A server
/// that lives is given a link that ends at once.
fn is_stale<N: Files + Net>(system: &N, at: &str) -> bool {
    if !is_socket(system, at) {
        return false;
    }
    match UnixStream::connect(system, at) {
        Ok(_) => false,
        Err(error) => error.kind() == ErrorKind::ConnectionRefused,
    }
}

/// The folder in which the path is.
fn folder_of(at: &str) -> &str {
    match at.rsplit_once('/') {
        Some(("", _)) => "/",
        Some((folder, _)) => folder,
        None => ".",
    }
}

/// Listens at the path in the place of a dead server, whose socket file is removed; else the path is
/// in use. The folder is locked meanwhile, so that of two servers that do this at once neither
/// removes the other's new socket file; where it can't be locked at once, the path is in use.
fn take_over<N: Files<File = File> + Net>(system: &N, at: &str) -> io::Result<UnixListener> {
    let folder = File::open(system, folder_of(at))?;
    if folder.try_lock().is_err() || !is_stale(system, at) {
        return Err(io::Error::from(ErrorKind::AddrInUse));
    }
    fs::remove_file(system, at)?;
    UnixListener::bind(system, at)
}

/// Listens at the path, at which a dead server may have left its socket file.
fn bind_at<N: Files<File = File> + Net>(system: &N, at: &str) -> io::Result<UnixListener> {
    match UnixListener::bind(system, at) {
        Err(error) if error.kind() == ErrorKind::AddrInUse => take_over(system, at),
        result => result,
    }
}

/// Listens at the path, and lets only programs of the same user connect from then on. Whoever
/// connects before that is served too, so the path should be in a folder of the user's own.
fn listen_at<N: Files<File = File> + Net>(system: &N, at: &str) -> io::Result<UnixListener> {
    let listener = bind_at(system, at)?;
    match fs::set_permissions(system, at, fs::Permissions::from_mode(0o600)) {
        Ok(()) => Ok(listener),
        Err(error) => {
            remove_file_of(system, &listener);
            Err(error)
        }
    }
}

/// Accepts once, and again where a peer went away before.
fn accept_through(listener: &UnixListener) -> io::Result<UnixStream> {
    for _ in 0..u64::MAX {
        match listener.accept() {
            Ok((stream, _)) => return Ok(stream),
            Err(error) => {
                if !is_passing(&error) {
                    return Err(error);
                }
            }
        }
    }
    let (stream, _) = listener.accept()?;
    Ok(stream)
}

/// The peer went away, or a signal cut the call short.
fn is_passing(error: &io::Error) -> bool {
    let kind = error.kind();
    kind == ErrorKind::ConnectionAborted || kind == ErrorKind::Interrupted
}

impl<N: Files<File = File> + Net + Drop> Door for SocketDoor<N> {
    ghost use Rattle.cm_io.specs.DoorsInside.{place_by};

    /// Its links are connections over Unix sockets.
    type Link = SocketLink;

    ghost place = { λ d. place_by d.listener };

    ghost counts = { λ d. record { faults = d.faults; links = d.links; closings = 0 } };

    /// Listens at the path, and no longer where it listened before. It fails where the path is in use
    /// or the system refuses.
    fn listen<R: Threads + Wait + Sync>(&mut self, _rt: &R, at: &str) -> Listen {
        match listen_at(&self.system, at) {
            Ok(listener) => {
                self.close();
                self.listener = Some(listener);
                Listen::Ready
            }
            Err(_) => {
                self.faults = self.faults.saturating_add(1);
                Listen::Failed
            }
        }
    }

    /// Waits for the next peer. It fails where nobody can come, the system refuses, or 2^64 - 1 links
    /// were given.
    fn accept<R: Threads + Wait + Sync>(&mut self, _rt: &R) -> Accept<SocketLink> {
        if self.links < u64::MAX {
            if let Some(listener) = &self.listener {
                if let Ok(stream) = accept_through(listener) {
                    self.links += 1;
                    return Accept::Link(SocketLink::new(stream));
                }
            }
        }
        self.faults = self.faults.saturating_add(1);
        Accept::Failed
    }
}
