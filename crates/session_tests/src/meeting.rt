//! Two links of a door in memory whose commands have to meet in their fetches, served by two workers over
//! one realm. What comes of links that needn't meet is shown by runs, above the top call.

ghost use Rattle.std.specs.Prelude.{◌≡◌, [], IfSome, length, true};
ghost use Rattle.cm_manager.specs.Kept.{AreSixteen};

use crate::player::{add, new_realm};
use cm_gate::{Manifest, MeetingGates};
use cm_io::{Door, FaultPlan, LinkPlan, Listen, MemoryDoor, MemoryLink};
use cm_manager::Manager;
use cm_names::{Bytes, List, Text};
use cm_repo::Repository;
use cm_session::{Back, Cause, Served, serve_sessions};
use cm_steps::Realm;
use cm_turn::Pass;
use cm_world::{Entry, Frame};
use std::alloc::Global;
use std::collections::VecDeque;
use std::sync::Wait;
use std::thread::Threads;

/// The root's manifest, which the manager has.
const ROOT: &str = "\
    {children:[{name:'logger',url:'#meta/logger.cm'},{name:'client',url:'#meta/client.cm'}]}";

/// The children, whose manifests the gates have.
const CHILDREN: [&str; 2] = [
    "fuchsia-pkg://t/a#meta/logger.cm",
    "fuchsia-pkg://t/a#meta/client.cm",
];

/// What the links give.
const LINES: [&str; 2] = ["resolve logger\n", "resolve client\n"];

/// What is written to them. Either may begin its action first.
const ENDS: [[&str; 2]; 2] = [
    ["resolved logger action 2\n", "resolved client action 3\n"],
    ["resolved logger action 3\n", "resolved client action 2\n"],
];

/// The text as a list of bytes; `None` where memory runs out.
fn bytes_of(alloc: Global, text: &str) -> Option<Bytes> {
    Some(Bytes::from_vec(text.as_bytes().to_vec(alloc).ok()?))
}

/// A manifest that declares nothing, under this URL.
fn manifest(alloc: Global, url: &str) -> Option<Manifest> {
    let bytes = bytes_of(alloc, "{}")?;
    match Text::from_str(alloc, url) {
        Ok(url) => Some(Manifest { url, bytes }),
        Err(_) => None,
    }
}

/// An empty manifest for each child.
fn manifests(alloc: Global) -> Option<List<Manifest>> {
    let mut manifests = List::new(alloc);
    for url in &CHILDREN {
        manifests.push(manifest(alloc, url)?).ok()?;
    }
    Some(manifests)
}

/// Eight pairs of gates. The first two workers have those of one pair.
fn meeting_gates(alloc: Global) -> Option<List<MeetingGates>>
    ensures { IfSome result (λ gates. length gates ≡ 16) }
{
    let mut gates = Vec::new(alloc);
    for pair in 0..8_usize {
        let _number = pair;
        let manifests = manifests(alloc)?;
        let (one, other) = MeetingGates::pair(alloc, manifests).ok()?;
        gates.push(one).ok()?;
        gates.push(other).ok()?;
    }
    Some(List::from_vec(gates))
}

/// The root's manifest under its URL.
fn repository(alloc: Global) -> Option<Repository> {
    let mut repository = Repository::new(alloc);
    add(
        alloc,
        &mut repository,
        "fuchsia-pkg://t/a#meta/root.cm",
        ROOT,
    )?;
    Some(repository)
}

/// A link that gives a line, one byte with each read.
fn link(alloc: Global, line: &str) -> Option<LinkPlan> {
    let bytes = bytes_of(alloc, line)?;
    Some(LinkPlan {
        bytes,
        source: FaultPlan {
            piece: 1,
            failing: List::new(alloc),
        },
        sink: FaultPlan::quiet(alloc),
    })
}

/// A door in memory with the links of the clients.
fn door(alloc: Global) -> Option<MemoryDoor> {
    let mut waiting = VecDeque::new(alloc);
    for line in &LINES {
        waiting.push_back(link(alloc, line)?).ok()?;
    }
    Some(MemoryDoor::new(alloc, waiting, List::new(alloc)))
}

/// The door, once peers may come.
fn listening<R: Threads + Wait + Sync>(rt: &R, door: MemoryDoor) -> Option<MemoryDoor>
    ensures { IfSome result (λ door. door.listening ≡ true) }
{
    let mut door = door;
    match door.listen(rt, "somewhere") {
        Listen::Ready => Some(door),
        Listen::Failed => {
            drop(door);
            None
        }
    }
}

/// A door with the links, to which peers may come.
fn open_door<R: Threads + Wait + Sync>(rt: &R, alloc: Global) -> Option<MemoryDoor>
    ensures { IfSome result (λ door. door.listening ≡ true) }
{
    match door(alloc) {
        Some(door) => listening(rt, door),
        None => None,
    }
}

/// Serves two links with two workers, of which no caller has to read what it promises.
fn served<R: Threads + Wait + Sync>(
    rt: &R,
    alloc: Global,
    manager: &Manager,
    passes: List<Pass<Entry, Frame>>,
    gates: List<MeetingGates>,
    door: MemoryDoor,
) -> Served<MemoryDoor, MemoryLink, MeetingGates>
    requires passes { AreSixteen manager.now.turn passes }
    requires gates { length gates ≡ 16 }
    requires door { door.listening ≡ true }
{
    serve_sessions(rt, alloc, manager, passes, gates, door, 2, 2)
}

/// Whether both links are answered over a realm and no gate fails.
fn meet_in<R: Threads + Wait + Sync>(
    rt: &R,
    alloc: Global,
    realm: Realm,
    repository: Repository,
    gates: List<MeetingGates>,
    door: MemoryDoor,
) -> bool
    requires empty { realm.entries ≡ [] }
    requires gates { length gates ≡ 16 }
    requires door { door.listening ≡ true }
{
    match Manager::new(alloc, realm, repository, None, 16) {
        Ok((manager, passes)) => {
            let served = served(rt, alloc, &manager, passes, gates, door);
            let have_met = have_met(&served);
            drop(served);
            drop(manager);
            have_met
        }
        Err(realm) => {
            drop(realm);
            drop(gates);
            drop(door);
            false
        }
    }
}

/// Whether this was written to one of the links that came back.
fn is_served(links: &[Back<MemoryLink>], replies: &str) -> bool {
    links
        .iter()
        .any(|back| back.link.sink.bytes() == replies.as_bytes())
}

/// Whether both links were answered and no gate failed: that of a worker fails where it fetches alone.
fn have_met(served: &Served<MemoryDoor, MemoryLink, MeetingGates>) -> bool {
    let links = served.links.as_slice();
    let told = ENDS
        .iter()
        .any(|end| is_served(links, end[0]) && is_served(links, end[1]));
    let met = served
        .gates
        .as_slice()
        .iter()
        .all(|gates| gates.faults() == 0);
    told && met && served.cause == Cause::Done
}

/// Whether two workers whose fetches wait for each other both come to an end, over a new realm.
fn meet_over<R: Threads + Wait + Sync>(
    rt: &R,
    alloc: Global,
    repository: Repository,
    door: MemoryDoor,
) -> bool
    requires { door.listening ≡ true }
{
    match new_realm(alloc, 1000) {
        Some(realm) => match meeting_gates(alloc) {
            Some(gates) => meet_in(rt, alloc, realm, repository, gates, door),
            None => {
                drop(realm);
                drop(repository);
                drop(door);
                false
            }
        },
        None => {
            drop(repository);
            drop(door);
            false
        }
    }
}

/// Whether two workers whose fetches wait for each other both come to an end.
fn meet<R: Threads + Wait + Sync>(rt: &R, alloc: Global) -> bool {
    match repository(alloc) {
        Some(repository) => match open_door(rt, alloc) {
            Some(door) => meet_over(rt, alloc, repository, door),
            None => {
                drop(repository);
                false
            }
        },
        None => false,
    }
}

/// Two workers whose fetches wait for each other both go on: a session holds no other up.
#[test]
fn workers_meet(rt: HostRuntime) {
    assert!(rt; meet(&rt, rt.alloc()));
}
