//! Walks in trees that no realm holds: one without instances, and one of a root alone, which begin at an
//! offer of it. Other walks are shown by runs of the program.

use crate::declarations::prepared;
use crate::table::fresh;
use crate::words::{line_of, name_of, path_of};
use cm_names::Text;
use cm_table::{Prepared, Table};
use cm_walk::walk;
use cm_world::{Entry, Event, Reply, Start, Walked};
use std::alloc::Global;

/// What a walk from the use at a path comes to in a tree without instances.
pub fn told_of_use(alloc: Global, path: &str) -> Option<Text> {
    match path_of(alloc, path) {
        Some(path) => told_in(alloc, bare(alloc), Start::UseAt(0, path)),
        None => None,
    }
}

/// What a walk from the expose of a name comes to in a tree without instances.
pub fn told_of_expose(alloc: Global, name: &str) -> Option<Text> {
    match name_of(alloc, name) {
        Some(name) => told_in(alloc, bare(alloc), Start::ExposeAt(0, name)),
        None => None,
    }
}

/// What a walk from an offer of a root comes to: first stands the index of the offer, then the manifest of
/// the root.
pub fn told_of_offer(alloc: Global, input: &str) -> Option<Text> {
    let (index, manifest) = input.split_once(' ')?;
    let index = index.parse().ok()?;
    told_in(alloc, declared(alloc, manifest), Start::OfferAt(0, index))
}

/// A table without any instance; the root was removed, too.
fn bare(alloc: Global) -> Option<Table> {
    match fresh(alloc) {
        Some(mut table) => {
            table.remove_below(0);
            Some(table)
        }
        None => None,
    }
}

/// A tree whose root has the declaration of a manifest.
fn declared(alloc: Global, manifest: &str) -> Option<Table> {
    match prepared(alloc, manifest) {
        Some(prepared) => settled(alloc, prepared),
        None => None,
    }
}

/// A new table whose root is resolved to this declaration; `None` where memory runs out.
fn settled(alloc: Global, prepared: Prepared) -> Option<Table> {
    match fresh(alloc) {
        Some(mut table) => {
            drop(table.settle(0, prepared));
            Some(table)
        }
        None => {
            drop(prepared);
            None
        }
    }
}

/// What a walk in this table comes to, in words.
fn told_in(alloc: Global, table: Option<Table>, start: Start) -> Option<Text> {
    match table {
        Some(table) => {
            let reply = reached(alloc, &table, start);
            drop(table);
            told_by(alloc, reply)
        }
        None => {
            drop(start);
            None
        }
    }
}

/// What a walk comes to, as a reply.
fn reached(alloc: Global, table: &Table, start: Start) -> Option<Reply> {
    match walk(alloc, table, start) {
        Ok(walked) => Some(reply_of(walked)),
        Err(_) => None,
    }
}

/// The reply that is told for what a walk came to.
fn reply_of(walked: Walked) -> Reply {
    match walked {
        Walked::Given(route) => Reply::Given(route),
        Walked::Failed(hop, why) => Reply::Failed(hop, why),
        Walked::Void(hop) => Reply::Void(hop),
        Walked::NoSuchUse => Reply::NoSuchUse,
        Walked::Need(inc) => Reply::Need(inc),
    }
}

/// A reply as a history has it, with a line feed after it.
fn told_by(alloc: Global, reply: Option<Reply>) -> Option<Text> {
    match reply {
        Some(reply) => {
            let entry = Entry {
                caller: 0,
                event: Event::Show(0),
                reply,
            };
            let told = told_at(alloc, &entry);
            drop(entry);
            told
        }
        None => None,
    }
}

/// The reply of an entry, whose event isn't told.
fn told_at(alloc: Global, entry: &Entry) -> Option<Text> {
    let line = line_of(alloc, 1, entry).ok()?;
    let (_event, reply) = line.as_str().split_once(" => ")?;
    ended(alloc, reply)
}

/// A text with a line feed after it.
fn ended(alloc: Global, text: &str) -> Option<Text> {
    let mut line = Text::new(alloc);
    line.push(format_args!("{text}\n")).ok()?;
    Some(line)
}
