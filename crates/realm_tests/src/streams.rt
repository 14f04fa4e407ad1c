//! What the history of a realm tells, read in one pass that is asked by its name.

use crate::realms::realm_with;
use crate::steps::take_all;
use crate::words::moniker_of;
use cm_events::filter;
use cm_names::Text;
use cm_steps::Realm;
use cm_world::{HappenKind, Happening};
use std::alloc::Global;

/// What is read of the history of a case: first come the realm's limits and what the case shows, then steps,
/// of which nothing is told. Behind a line `--` each line is a number of entries, behind which it is read,
/// and a moniker, at and below which.
pub fn told(alloc: Global, case: &str) -> Option<Text> {
    let (prefix, asked) = case.split_once("\n--\n")?;
    let (head, steps) = prefix.split_once('\n')?;
    match realm_with(alloc, head) {
        Some(mut realm) => {
            let told = told_in(alloc, &mut realm, steps, asked);
            drop(realm);
            told
        }
        None => None,
    }
}

fn told_in(alloc: Global, realm: &mut Realm, steps: &str, asked: &str) -> Option<Text> {
    take_all(realm, alloc, steps, &mut Text::new(alloc))?;
    let mut told = Text::new(alloc);
    for line in asked.split('\n') {
        read_stream(alloc, realm, line, &mut told)?;
    }
    Some(told)
}

/// Puts down what one line asks for: what happened after its number of entries, at and below its moniker.
fn read_stream(alloc: Global, realm: &Realm, line: &str, told: &mut Text) -> Option<()> {
    let (from, scope) = line.split_once(' ')?;
    let scope = moniker_of(alloc, scope)?;
    let read = filter(alloc, realm.entries(), from.parse().ok()?, &scope).ok()?;
    for happening in read.as_slice() {
        tell(alloc, told, happening)?;
    }
    Some(())
}

/// Puts down what happened, to which instance, and which entry tells it.
fn tell(alloc: Global, told: &mut Text, happening: &Happening) -> Option<()> {
    let number = happening.number;
    let kind = word_of(happening.kind);
    let moniker = happening.moniker.write(alloc).ok()?;
    let inc = happening.inc;
    told.push(format_args!("{number} {kind} {moniker} {inc}\n"))
        .ok()
}

fn word_of(kind: HappenKind) -> &'static str {
    match kind {
        HappenKind::Resolved => "resolved",
        HappenKind::Started => "started",
        HappenKind::Stopped => "stopped",
        HappenKind::Destroyed => "destroyed",
    }
}
