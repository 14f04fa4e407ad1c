//! What a run comes to, and the lines of the error stream.

ghost use Rattle.std.specs.Prelude.{◌≡◌, []};
ghost use Rattle.cm_program.specs.Written.{IsSaid, door_fault_line, read_fault_line, want_line};

use cm_book::Book;
use cm_io::{Put, Sink, put_all};
use cm_names::List;
use cm_session::Back;
use std::alloc::Global;
use std::sync::Wait;
use std::thread::Threads;

/// What a run came to.
#[derive(Drop)]
pub struct Ran<D, L, G> {
    /// The status that the program ends with.
    ///
    /// - 0: what the source had left, or each line of the workload, was answered, and everything was
    ///   written; or as many links were served as were asked for, or no further one comes; or the
    ///   manifest that was checked is valid, or the journal that was audited legal.
    /// - 1: the manifest that was checked has a fault, or the journal that was audited isn't legal, and
    ///   which comes first was written on `out`.
    /// - 2: the words ask for nothing, and `err` tells what they may be; nothing was written on
    ///   `out`.
    /// - 3: the source failed, which `err` tells; nothing was written on `out`.
    /// - 4: `out` failed; a prefix of the text was written.
    /// - 5: the door failed, which `err` tells; the links that came before were served.
    /// - 6: memory ran out, or a line was answered so, which `err` tells; a prefix of the text was
    ///   written.
    /// - 7: the script is refused, and the line on `err` says where and why; nothing was written
    ///   on `out`.
    pub status: u8,
    /// The history of the realm that a script was run over, or that links were served over. It is
    /// empty where neither was done.
    pub book: Book,
    /// The links that came, each with the number of the worker that served it, worker by worker,
    /// and each worker's as its sessions followed one another.
    pub links: List<Back<L>>,
    /// The gates, in the order in which they were given.
    pub gates: List<G>,
    /// The door.
    pub door: D,
}

/// What a run came to that has no need of a door.
#[derive(Drop)]
pub struct Finished<G> {
    /// The status that the program ends with.
    pub status: u8,
    /// The history of the realm that a script was run over. It is empty where none was.
    pub book: Book,
    /// The gates, in the order in which they were given.
    pub gates: List<G>,
}

/// A run that came to this without a realm and without a link.
pub fn stopped<D, L, G>(alloc: Global, status: u8, gates: List<G>, door: D) -> Ran<D, L, G>
    ensures status { result.status ≡ status }
    ensures empty { result.book.entries ≡ [] }
    ensures gates { result.gates ≡ gates }
    ensures links { result.links ≡ [] }
    ensures door { result.door ≡ door }
{
    Ran {
        status,
        book: Book::new(alloc, 0),
        links: List::new(alloc),
        gates,
        door,
    }
}

/// What a run came to that had no need of this door, which is handed back as it is: no link came.
pub fn without_links<D, L, G>(alloc: Global, ran: Finished<G>, door: D) -> Ran<D, L, G>
    ensures { result ≡ record {
      status = ran.status;
      book = ran.book;
      links = [];
      gates = ran.gates;
      door = door;
    } }
{
    Ran {
        status: ran.status,
        book: ran.book,
        links: List::new(alloc),
        gates: ran.gates,
        door,
    }
}

/// A run that came to this without a realm.
pub fn ended<G>(alloc: Global, status: u8, gates: List<G>) -> Finished<G>
    ensures status { result.status ≡ status }
    ensures empty { result.book.entries ≡ [] }
    ensures gates { result.gates ≡ gates }
{
    Finished {
        status,
        book: Book::new(alloc, 0),
        gates,
    }
}

/// Writes a line on the error stream: the whole of it, or a prefix where the stream fails.
pub fn tell<R: Threads + Wait + Sync, E: Sink>(rt: &R, err: &mut E, line: &[u8])
    ensures { IsSaid E.written E.faults err.old err.new line.now }
{
    match put_all(rt, err, line) {
        Put::Done => {}
        Put::WriteFault(_) => {}
    }
}

/// Says that memory ran out. The result is the status.
pub fn out_of_memory<R: Threads + Wait + Sync, E: Sink>(rt: &R, err: &mut E) -> u8
    ensures status { result ≡ 6 }
    ensures said { IsSaid E.written E.faults err.old err.new want_line }
{
    tell(rt, err, b"want of memory\n");
    6
}

/// Says that the door failed. The result is the status.
pub fn door_fault<R: Threads + Wait + Sync, E: Sink>(rt: &R, err: &mut E) -> u8
    ensures status { result ≡ 5 }
    ensures said { IsSaid E.written E.faults err.old err.new door_fault_line }
{
    tell(rt, err, b"door fault\n");
    5
}

/// Says that the source failed. The result is the status.
pub fn read_fault<R: Threads + Wait + Sync, E: Sink>(rt: &R, err: &mut E) -> u8
    ensures status { result ≡ 3 }
    ensures said { IsSaid E.written E.faults err.old err.new read_fault_line }
{
    tell(rt, err, b"read fault\n");
    3
}
