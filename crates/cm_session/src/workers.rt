//! Workers that share a door, each with a pass and gates of its own.

ghost use Rattle.std.specs.Prelude.{◌≡◌, ◌≢◌, ◌<◌, ◌≤◌, ℕ, [], All, false, length, slice_index_or, true};
ghost use Rattle.std.specs.Prelude.{vec_capacity};
ghost use Rattle.cm_manager.specs.Caller.{IsSameCaller};
ghost use Rattle.cm_manager.specs.Gated.{gates_view};
ghost use Rattle.cm_session.specs.Pool.{PoolWorked, DidWork, IsReadyWorker, ServesLink, ServesLinks};
ghost use Rattle.cm_session.specs.Pool.{Worker as WorkerOf};
ghost use Rattle.cm_session.specs.Doorway.{OnGiven, TakesTurn, sessions_of};
ghost use Rattle.cm_session.specs.Links.{view_of};
ghost use Rattle.cm_session.specs.Serving.{IsNewLink};

use crate::Ended;
use crate::doorway::{Accepted, Doorway, Opening};
use crate::lines::serve;
use cm_gate::Gates;
use cm_io::{Accept, Door, Link};
use cm_manager::{Caller, Desk, Manager};
use cm_turn::{Pass, Turn};
use cm_world::{Entry, Frame};
use std::alloc::Global;
use std::sync::Wait;
use std::thread;
use std::thread::Threads;

/// The number of passes and gates, and the most workers.
pub(crate) const WORKERS: usize = 16;

/// What a worker has in hand of its work at the door.
#[derive(Drop)]
pub(crate) struct DoorWork<L> {
    /// Its pass at the door; `None` only while a call has it.
    pub(crate) at_door: Option<Pass<Accepted, Opening>>,
    /// The links that it serves, in the order in which they came.
    pub(crate) links: Vec<L>,
}

/// What a worker has in hand. Something is lost there where a session ended for lack of memory.
pub(crate) type Worker<G, L> = Desk<G, DoorWork<L>>;

/// Takes a turn at the door, and accepts in it unless no further accept is due.
fn take_turn<R: Threads + Wait + Sync, D: Door>(
    rt: &R,
    door: &Turn<Doorway<D>>,
    pass: Pass<Accepted, Opening>,
) -> (Pass<Accepted, Opening>, Option<Accept<D::Link>>)
    requires lock { pass.lock ≡ door.now.lock }
    ensures turn { TakesTurn pass result.0 result.1 }
    ensures new { OnGiven result.1 (λ l. IsNewLink (view_of D.Link.Source D.Link.Sink l)) }
{
    let worker = pass.caller();
    let mut held = door.enter(rt, pass);
    let turned = held.state().accept_for(rt, worker);
    (door.leave(held), turned)
}

/// Puts a link among the worker's links, and serves it there by a session.
fn serve_link<R: Threads + Wait + Sync, G: Gates, L: Link>(
    caller: &mut Caller<'_, R, G>,
    links: &mut Vec<L>,
    link: L,
) -> Ended
    requires room { length links.old.items < vec_capacity links.old }
    ensures same { IsSameCaller caller.old caller.new }
    ensures served { ServesLink (view_of L.Source L.Sink) caller.old.manager.manifests caller.old.pass
        caller.new.pass caller.old.gates caller.new.gates link links.old.items links.new.items result }
    ensures room { vec_capacity links.new ≡ vec_capacity links.old }
{
    let last = links.len();
    links.push_reserved(link);
    serve(caller, &mut links[last])
}

/// Whether a session ended for lack of memory.
fn is_lost(ended: Ended) -> bool
    ensures lost { result ≡ true → ended ≡ Ended.Memory }
    ensures well { result ≡ false → ended ≢ Ended.Memory }
{
    match ended {
        Ended::Memory => true,
        Ended::End | Ended::Quit | Ended::ReadFault | Ended::WriteFault | Ended::LinesSpent =>
            false,
    }
}

/// Accepts links and serves each, until no further accept is due, or a session ended for lack of
/// memory. The answer says which.
fn serve_links<R: Threads + Wait + Sync, G: Gates, D: Door>(
    caller: &mut Caller<'_, R, G>,
    door: &Turn<Doorway<D>>,
    at_door: Pass<Accepted, Opening>,
    links: &mut Vec<D::Link>,
) -> (Pass<Accepted, Opening>, bool)
    requires door { at_door.lock ≡ door.now.lock }
    requires new { at_door.mine ≡ [] }
    requires none { links.old.items ≡ [] }
    requires room { sessions_of at_door ≤ vec_capacity links.old }
    ensures same { IsSameCaller caller.old caller.new }
    ensures served { ServesLinks (view_of D.Link.Source D.Link.Sink) caller.old.manager.manifests
        caller.old.pass caller.new.pass caller.old.gates caller.new.gates
        at_door result.0 links.new.items result.1 }
{
    let rt = caller.rt();
    let mut at_door = at_door;
    for _ in rt.forever() {
        let (back, turned) = take_turn(rt, door, at_door);
        at_door = back;
        let accept = match turned {
            Some(accept) => accept,
            None => return (at_door, false),
        };
        let link = match accept {
            Accept::Link(link) => link,
            // The next turn finds this among the entries.
            Accept::Closed => continue,
            Accept::Failed => continue,
        };
        let ended = serve_link(caller, links, link);
        if is_lost(ended) {
            return (at_door, true);
        }
    }
    unreachable!()
}

/// Accepts links and serves each with this pass and these gates, as `serve_links` does.
fn serve_own<R: Threads + Wait + Sync, G: Gates, D: Door>(
    rt: &R,
    alloc: Global,
    manager: &Manager,
    door: &Turn<Doorway<D>>,
    pass: Pass<Entry, Frame>,
    at_door: Pass<Accepted, Opening>,
    gates: &mut G,
    links: &mut Vec<D::Link>,
) -> (Pass<Entry, Frame>, Pass<Accepted, Opening>, bool)
    requires lock { pass.lock ≡ manager.now.turn.lock }
    requires door { at_door.lock ≡ door.now.lock }
    requires new { at_door.mine ≡ [] }
    requires none { links.old.items ≡ [] }
    requires room { sessions_of at_door ≤ vec_capacity links.old }
    ensures served { ServesLinks (view_of D.Link.Source D.Link.Sink) manager.now.manifests pass result.0
        (gates_view G.log G.faults gates.old) (gates_view G.log G.faults gates.new)
        at_door result.1 links.new.items result.2 }
{
    let mut caller = Caller::new(rt, alloc, manager, pass, gates);
    let (at_door, lost) = serve_links(&mut caller, door, at_door, links);
    let (pass, _gates) = caller.into_parts();
    (pass, at_door, lost)
}

/// Whether the worker of this pass is none of the first so many.
fn is_idle(at_door: &Pass<Accepted, Opening>, workers: u32) -> bool
    ensures idle { result ≡ true → workers ≤ at_door.now.caller }
    ensures serves { result ≡ false → at_door.now.caller < workers }
{
    at_door.caller() >= workers
}

/// Lets a worker serve, if it is one of the first so many.
fn work<R: Threads + Wait + Sync, G: Gates, D: Door>(
    rt: &R,
    alloc: Global,
    manager: &Manager,
    door: &Turn<Doorway<D>>,
    workers: u32,
    worker: &mut Worker<G, D::Link>,
)
    requires ready { IsReadyWorker manager.now.turn door.now workers worker.old }
    ensures worked { DidWork G.log G.faults (view_of D.Link.Source D.Link.Sink)
        manager.now.manifests workers worker.old worker.new }
{
    let Some(at_door) = worker.work.at_door.take() else {
        unreachable!()
    };
    if is_idle(&at_door, workers) {
        worker.work.at_door = Some(at_door);
        return;
    }
    let Some(pass) = worker.pass.take() else {
        unreachable!()
    };
    let (pass, at_door, lost) = serve_own(
        rt,
        alloc,
        manager,
        door,
        pass,
        at_door,
        &mut worker.gates,
        &mut worker.work.links,
    );
    worker.pass = Some(pass);
    worker.work.at_door = Some(at_door);
    worker.lost = lost;
}

/// Lets the first so many workers serve, side by side.
fn work_all<R: Threads + Wait + Sync, G: Gates + Send, D: Door + Send>(
    rt: &R,
    alloc: Global,
    manager: &Manager,
    door: &Turn<Doorway<D>>,
    workers: u32,
    pool: &mut [Worker<G, D::Link>],
)
where
    D::Link: Send,
    requires ready { All (IsReadyWorker manager.now.turn door.now workers) pool.old }
    ensures worked { (k : ℕ) (d : WorkerOf G D.Link) → k < length pool.old →
        DidWork G.log G.faults (view_of D.Link.Source D.Link.Sink)
        manager.now.manifests workers (slice_index_or pool.old k d) (slice_index_or pool.new k d) }
{
    thread::for_each_mut(
        rt,
        pool,
        WORKERS,
        &|_, worker: &mut Worker<G, D::Link>|
            requires { IsReadyWorker manager.now.turn door.now workers worker.now }
        { work(rt, alloc, manager, door, workers, worker) },
    );
}

/// Lets the first so many workers serve, side by side, and gives all back.
pub(crate) fn run_all<R: Threads + Wait + Sync, G: Gates + Send, D: Door + Send>(
    rt: &R,
    alloc: Global,
    manager: &Manager,
    door: &Turn<Doorway<D>>,
    workers: u32,
    pool: Vec<Worker<G, D::Link>>,
) -> Vec<Worker<G, D::Link>>
where
    D::Link: Send,
    requires ready { All (IsReadyWorker manager.now.turn door.now workers) pool.items }
    ensures worked { PoolWorked G.log G.faults (view_of D.Link.Source D.Link.Sink)
        manager.now.manifests workers pool.items result.items }
{
    let mut pool = pool;
    work_all(rt, alloc, manager, door, workers, pool.as_mut_slice());
    pool
}
