//! Doors in memory, and what was written to the links that came.

ghost use Rattle.std.specs.Prelude.{◌≡◌, IfSome, false};

use super::input::{failing_of, input_of, plan_of, push_line};
use cm_io::{LinkPlan, MemoryDoor, MemoryLink};
use cm_names::{Bytes, List, Text};
use cm_session::Back;
use std::alloc::Global;
use std::collections::VecDeque;

/// A link that a case plans.
fn link_of(alloc: Global, part: &str) -> Option<LinkPlan> {
    match input_of(alloc, part) {
        Some(bytes) => link_with(alloc, part, List::from_vec(bytes)),
        None => None,
    }
}

/// A link that gives these bytes and fails as the part's words say; `None` where they can't be read.
fn link_with(alloc: Global, part: &str, bytes: Bytes) -> Option<LinkPlan> {
    match plan_of(alloc, part, "read") {
        Some(source) => match plan_of(alloc, part, "write") {
            Some(sink) => Some(LinkPlan {
                bytes,
                source,
                sink,
            }),
            None => {
                drop(source);
                drop(bytes);
                None
            }
        },
        None => {
            drop(bytes);
            None
        }
    }
}

/// The links that a case plans. Each begins with a line `link`.
fn links_of(alloc: Global, case: &str) -> Option<VecDeque<LinkPlan>> {
    let mut links = VecDeque::new(alloc);
    for part in case.split("\nlink ").skip(1) {
        links.push_back(link_of(alloc, part)?).ok()?;
    }
    Some(links)
}

/// The door of a case, by its lines; `None` where they can't be read.
pub fn door_of(alloc: Global, case: &str) -> Option<MemoryDoor>
    ensures { IfSome result (λ door. door.listening ≡ false) }
{
    match links_of(alloc, case) {
        Some(links) => match failing_of(alloc, case, "door") {
            Some(failing) => Some(MemoryDoor::new(alloc, links, List::from_vec(failing))),
            None => {
                drop(links);
                None
            }
        },
        None => None,
    }
}

/// Puts down how often one side of a link failed, where it did.
fn push_faults(line: &mut Text, side: &str, faults: u64) -> Option<()> {
    if faults == 0 {
        return Some(());
    }
    line.push(format_args!(" {side}-faults {faults}")).ok()
}

/// Puts down the number of a link's worker, and how often the link failed, on a line of its own.
fn push_worker(alloc: Global, sent: &mut Vec<u8>, back: &Back<MemoryLink>) -> Option<()> {
    let worker = back.worker;
    let mut line = Text::new(alloc);
    line.push(format_args!("worker {worker}")).ok()?;
    push_faults(&mut line, "read", back.link.source.faults())?;
    push_faults(&mut line, "write", back.link.sink.faults())?;
    push_line(sent, line.as_str())
}

/// What was written to the links of a run, to be compared with the ends of its case. For each link: a line
/// with its worker, and how often it failed where it did, and then the bytes.
pub fn sent_of(alloc: Global, links: &[Back<MemoryLink>]) -> Option<Vec<u8>> {
    let mut sent = Vec::new(alloc);
    for back in links {
        push_worker(alloc, &mut sent, back)?;
        sent.extend_from_slice(back.link.sink.bytes()).ok()?;
    }
    Some(sent)
}
