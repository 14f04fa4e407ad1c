//! A sink with room, and clients of a socket that are hung up on or went away. What comes of sources,
//! sinks, lines and doors is shown by runs, above the top call, and what comes of sockets by a server's
//! clients.

ghost use Rattle.cm_io.specs.Doors.{IsOpen, IsShut};
ghost use Rattle.std.specs.Prelude.{◌≡◌};

use cm_io::{Accept, Door, FaultPlan, Link, Listen, MemorySink, Put, SocketDoor, put_all};
use std::alloc::Global;
use std::io::{Read, Write};
use std::net::Net;
use std::os::unix::net::UnixStream;
use std::sync::Wait;
use std::thread::Threads;

/// Whether a sink that took its room before takes so many bytes.
fn is_put<R: Threads + Wait + Sync>(rt: &R, sink: &mut MemorySink) -> bool {
    put_all(rt, sink, b"sixteen bytes...") == Put::Done
}

/// A write into room that was reserved doesn't fail.
#[test]
fn puts_into_room(rt: HostRuntime) {
    let alloc = rt.alloc();
    let is_so = match MemorySink::with_capacity(alloc, 16, FaultPlan::quiet(alloc)) {
        Ok(mut sink) => is_put(&rt, &mut sink) && sink.bytes() == b"sixteen bytes...".as_slice(),
        Err(_) => false,
    };
    assert!(rt; is_so);
}

/// Whether a client came, and can't be written to: once it was hung up on, or since it went away.
fn loses_next<R: Threads + Wait + Sync, D: Door>(rt: &R, door: &mut D, hangs_up: bool) -> bool
    requires { IsOpen (D.place door.old) }
    ensures { D.place door.new ≡ D.place door.old }
{
    match door.accept(rt) {
        Accept::Link(mut link) => {
            if hangs_up {
                link.hang_up(rt);
            }
            let put = put_all(rt, &mut link, b"late");
            drop(link);
            put == Put::WriteFault(0)
        }
        Accept::Closed => false,
        Accept::Failed => false,
    }
}

/// Whether a client reads nothing up to the end.
fn reads_nothing(alloc: Global, client: &mut UnixStream) -> bool {
    let mut read = Vec::new(alloc);
    client.read_to_end(&mut read).is_ok() && read.is_empty()
}

/// Whether a client that comes is hung up on.
fn is_hung_up<R: Threads + Wait + Sync + Net, D: Door>(
    rt: &R,
    alloc: Global,
    door: &mut D,
    at: &str,
) -> bool
    requires { IsOpen (D.place door.old) }
    ensures { D.place door.new ≡ D.place door.old }
{
    match UnixStream::connect(rt, at) {
        Ok(mut client) => {
            let is_so = client.write_all(b"one\n").is_ok()
                && loses_next(rt, door, true)
                && reads_nothing(alloc, &mut client);
            drop(client);
            is_so
        }
        Err(_) => false,
    }
}

/// Whether a client that went away before it was let in can't be written to.
fn is_gone<R: Threads + Wait + Sync + Net, D: Door>(rt: &R, door: &mut D, at: &str) -> bool
    requires { IsOpen (D.place door.old) }
{
    match UnixStream::connect(rt, at) {
        Ok(client) => {
            drop(client);
            loses_next(rt, door, false)
        }
        Err(_) => false,
    }
}

/// Whether a door listens at a path, then hangs up on a client that comes, and can't write to one that
/// went away.
fn loses_clients<R: Threads + Wait + Sync + Net, D: Door>(
    rt: &R,
    alloc: Global,
    door: &mut D,
    at: &str,
) -> bool
    requires { IsShut (D.place door.old) }
{
    match door.listen(rt, at) {
        Listen::Ready => is_hung_up(rt, alloc, door, at) && is_gone(rt, door, at),
        Listen::Failed => false,
    }
}

/// A socket door counts it as a fault where a client is gone before it is served.
#[test]
fn loses_clients_of_sockets(rt: HostRuntime) {
    let mut door = SocketDoor::new(rt);
    let is_so = loses_clients(&rt, rt.alloc(), &mut door, "hung_up");
    door.close();
    drop(door);
    assert!(rt; is_so);
}
