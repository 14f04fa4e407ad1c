//! Clients of a real socket, served through the top call.

ghost use Rattle.cm_io.specs.Doors.{IsShut};
ghost use Rattle.std.specs.Prelude.{◌≡◌, IfSome, length};

use super::input::words_of;
use super::player::{Sides, ran};
use cm_gate::QuietGates;
use cm_io::{Door, FaultPlan, MemorySink, MemorySource, SocketDoor};
use cm_names::{List, Text};
use cm_program::Ran;
use std::alloc::Global;
use std::fs::File;
use std::io::{Read, Write};
use std::net::Net;
use std::os::unix::net::UnixStream;
use std::rt::Files;
use std::sync::Wait;
use std::thread;
use std::thread::Threads;

/// Three sessions, of which two are served at once.
const SERVE: &str = "serve socket_folder/s --root fuchsia-pkg://t/a#meta/root.cm --repo r \
    --sessions 3 --workers 2";

/// Where the clients come.
const PATH: &str = "socket_folder/s";

/// How often a client tries to come, since the server may begin later.
const TRIES: u32 = 10_000_000;

/// What the second client reads up to its end, the third, and then the first.
const SECOND: &str = "shown . incarnation 0 url fuchsia-pkg://t/a#meta/root.cm unresolved off\n";

/// What the third client reads.
const THIRD: &str = "refused 70 bad-command at 0\n";

/// What the first client reads.
const FIRST: &str = "\
    shown . incarnation 0 url fuchsia-pkg://t/a#meta/root.cm unresolved off\n\
    refused 83 cannot-resolve action 1 absent\n";

/// Sixteen gates that know no manifest; `None` where memory runs out.
fn quiet_gates(alloc: Global) -> Option<List<QuietGates>>
    ensures { IfSome result (λ gates. length gates ≡ 16) }
{
    match vec![in alloc; QuietGates; 16] {
        Ok(gates) => Some(List::from_vec(gates)),
        Err(_) => None,
    }
}

/// An input without a byte, and outputs that don't fail.
fn quiet_sides(alloc: Global) -> Sides {
    Sides {
        input: MemorySource::new(List::new(alloc), FaultPlan::quiet(alloc)),
        out: MemorySink::new(alloc, FaultPlan::quiet(alloc)),
        err: MemorySink::new(alloc, FaultPlan::quiet(alloc)),
    }
}

/// The status of a server, how many links came back, and its door.
pub fn serve<R: Threads + Wait + Sync, D: Door + Send>(
    rt: &R,
    alloc: Global,
    door: D,
) -> Option<(u8, usize, D)>
where
    D::Link: Send,
    requires { IsShut (D.place door) }
{
    match quiet_gates(alloc) {
        Some(gates) => match words_of(alloc, SERVE) {
            Some(words) => Some(served(rt, alloc, words.as_slice(), door, gates)),
            None => None,
        },
        None => None,
    }
}

/// Runs `serve` over this door: its status, how many links came back, and the door.
fn served<R: Threads + Wait + Sync, D: Door + Send>(
    rt: &R,
    alloc: Global,
    words: &[Text],
    door: D,
    gates: List<QuietGates>,
) -> (u8, usize, D)
where
    D::Link: Send,
    requires gates { length gates ≡ 16 }
    requires shut { IsShut (D.place door) }
{
    let mut sides = quiet_sides(alloc);
    let ran = ran(rt, alloc, words, &mut sides, door, gates);
    drop(sides);
    let Ran {
        status,
        book,
        links,
        gates,
        door,
    } = ran;
    let count = links.len();
    drop(book);
    drop(links);
    drop(gates);
    (status, count, door)
}

/// The status of a server and how many links came back, once its door is closed: the socket file would
/// outlive the program.
pub fn closed<N: Files<File = File> + Net + Drop>(
    served: Option<(u8, usize, SocketDoor<N>)>,
) -> Option<(u8, usize)> {
    match served {
        Some((status, links, mut door)) => {
            door.close();
            Some((status, links))
        }
        None => None,
    }
}

/// A client, once the server is there.
fn client<N: Net>(system: &N) -> Option<UnixStream> {
    for attempt in 0..TRIES {
        let _number = attempt;
        if let Ok(client) = UnixStream::connect(system, PATH) {
            return Some(client);
        }
        thread::yield_now();
    }
    None
}

/// What a client that sends these lines reads after, up to its end.
fn told_to(alloc: Global, client: &mut UnixStream, lines: &str) -> Option<Vec<u8>> {
    if client.write_all(lines.as_bytes()).is_err() {
        return None;
    }
    let mut read = Vec::new(alloc);
    if client.read_to_end(&mut read).is_err() {
        return None;
    }
    Some(read)
}

/// What a client that comes, sends these lines and reads up to its end is told.
fn told_next<N: Net>(system: &N, alloc: Global, lines: &str) -> Option<Vec<u8>> {
    match client(system) {
        Some(mut client) => told_to(alloc, &mut client, lines),
        None => None,
    }
}

/// Whether three clients read what they should. The first one is silent until the others have come to
/// their ends, one after another.
pub fn ask<N: Net>(system: &N, alloc: Global) -> [bool; 3] {
    match client(system) {
        Some(mut silent) => [
            is_told(told_next(system, alloc, "show .\nquit\n"), SECOND),
            is_told(told_next(system, alloc, "foo\nquit\nshow .\n"), THIRD),
            is_told(
                told_to(alloc, &mut silent, "show .\nstart .\nquit\n"),
                FIRST,
            ),
        ],
        None => [false; 3],
    }
}

/// Whether exactly this was read.
fn is_told(told: Option<Vec<u8>>, wanted: &str) -> bool {
    match told {
        Some(told) => told.as_slice() == wanted.as_bytes(),
        None => false,
    }
}
