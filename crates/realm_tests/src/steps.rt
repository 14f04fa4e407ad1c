//! Takes steps of a small realm, and tells what came of each.
//!
//! A step is a line: the caller, what it does, the incarnation of the instance that it does it
//! with, and a word, where it needs one. Nobody here holds a reply: what a step tells is read from the
//! history.

use crate::cases::manifest_of;
use crate::creating::create;
use crate::endings::{killed, resolve, started};
use crate::meanwhile::{doom_while_starting, join_and_decline};
use crate::words::{line_of, moniker_of, name_of, path_of};
use cm_names::{List, Memory, Text};
use cm_steps::{NoStep, Realm};
use cm_world::{ActKind, Entry, Event, Limits};
use std::alloc::Global;

/// A new realm with these limits.
pub fn realm_of(alloc: Global, rows: u32, entries: u64) -> Option<Realm> {
    let root = Text::from_str(alloc, "fuchsia-pkg://t/a#meta/root.cm").ok()?;
    Realm::new(alloc, root, List::new(alloc), Limits { rows, entries }).ok()
}

/// Takes the steps of lines, and puts down what each tells: why no step was made, the new lines of the
/// history, and how many answers of walks were cache hits, where that rose. Nothing where a line can't be
/// read.
pub fn take_all(realm: &mut Realm, alloc: Global, lines: &str, told: &mut Text) -> Option<()> {
    for line in lines.split('\n') {
        let first = length_of(realm);
        let kept = kept_in(realm);
        let refused = take(realm, alloc, line)?;
        tell_refusal(told, refused).ok()?;
        tell_lines(told, alloc, realm.entries(), first).ok()?;
        tell_kept(told, kept, kept_in(realm)).ok()?;
    }
    Some(())
}

/// How many entries a history has.
pub fn length_of(realm: &Realm) -> usize {
    realm.entries().len()
}

/// How many answers of walks were cache hits.
fn kept_in(realm: &Realm) -> u64 {
    realm.kept()
}

/// A step: its caller, what it does, the incarnation of the instance that it does it with, and a word, which
/// is empty where there is none.
#[derive(Drop)]
struct Step<'a> {
    caller: u32,
    verb: &'a str,
    inc: u64,
    word: &'a str,
}

/// Takes the step of a line: why no step was made, or none where one was.
fn take(realm: &mut Realm, alloc: Global, line: &str) -> Option<Option<NoStep>> {
    let (caller, rest) = line.split_once(' ')?;
    let (verb, rest) = rest.split_once(' ')?;
    let (inc, word) = rest.split_once(' ').unwrap_or((rest, ""));
    let caller = caller.parse().ok()?;
    let inc = inc.parse().ok()?;
    let step = Step {
        caller,
        verb,
        inc,
        word,
    };
    look(realm, alloc, &step)
}

/// Takes a step that leaves the tree as it is. A moniker that is to be found stands in the word.
fn look(realm: &mut Realm, alloc: Global, step: &Step<'_>) -> Option<Option<NoStep>> {
    let (caller, inc, word) = (step.caller, step.inc, step.word);
    let made = match step.verb {
        "find" => realm.find(alloc, caller, moniker_of(alloc, word)?),
        "show" => realm.show(alloc, caller, inc),
        "list" => realm.list(alloc, caller, inc, name_of(alloc, word)?),
        "tail" => realm.tail(caller, inc, word.parse().ok()?),
        "route" => realm.route(alloc, caller, inc, path_of(alloc, word)?),
        "open" => realm.open_use(alloc, caller, inc, path_of(alloc, word)?),
        "open-exposed" => realm.open_exposed(alloc, caller, inc, name_of(alloc, word)?),
        "survey" => realm.survey(alloc, caller, inc),
        "reap" => realm.reap(alloc, caller, inc),
        _ => return change(realm, alloc, step),
    };
    Some(made.err())
}

/// Takes a step that changes the tree.
fn change(realm: &mut Realm, alloc: Global, step: &Step<'_>) -> Option<Option<NoStep>> {
    let (caller, inc, word) = (step.caller, step.inc, step.word);
    let made = match step.verb {
        "begin" => realm.begin(alloc, caller, kind_of(word)?, inc),
        "exited" => realm.exited(alloc, caller, inc),
        "close" => realm.mark(caller, false, inc),
        "doom" => realm.mark(caller, true, inc),
        "purge" => return Some(purge(realm, alloc, caller, inc)),
        "create" => return create(realm, alloc, caller, inc, word),
        _ => return end(realm, alloc, step),
    };
    Some(made.err())
}

/// Removes an instance that may be removed: why no step was made, or none where one was, and none where the
/// instance may not be removed.
fn purge(realm: &mut Realm, alloc: Global, caller: u32, inc: u64) -> Option<NoStep> {
    let event = Event::Purge(inc);
    let may = realm.enabled(alloc, caller, &event);
    drop(event);
    match may {
        Ok(true) => realm.purge(alloc, caller, inc).err(),
        Ok(false) => None,
        Err(_) => Some(NoStep::Memory),
    }
}

/// Takes the steps of caller 0 that begin an action and end it, and in some those of caller 1
/// meanwhile.
fn end(realm: &mut Realm, alloc: Global, step: &Step<'_>) -> Option<Option<NoStep>> {
    let (inc, word) = (step.inc, step.word);
    match step.verb {
        "resolve" => resolve(realm, alloc, inc, manifest_of(word)),
        "started" => Some(started(realm, alloc, inc)),
        "killed" => Some(killed(realm, alloc, inc)),
        "join-and-decline" => Some(join_and_decline(realm, alloc, inc)),
        "doom-while-starting" => {
            let doomed = word.parse().ok()?;
            Some(doom_while_starting(realm, alloc, inc, doomed))
        }
        _ => None,
    }
}

/// The kind of action of this word.
fn kind_of(word: &str) -> Option<ActKind> {
    match word {
        "resolve" => Some(ActKind::Resolve),
        "start" => Some(ActKind::Start),
        "stop" => Some(ActKind::Stop),
        _ => None,
    }
}

/// Puts down why no step was made.
fn tell_refusal(told: &mut Text, refused: Option<NoStep>) -> Result<(), Memory> {
    match refused {
        None => Ok(()),
        Some(NoStep::Busy(action)) => told.push(format_args!("busy {action}\n")),
        Some(NoStep::HistoryFull) => told.push_str("history full\n"),
        Some(NoStep::Memory) => told.push_str("memory\n"),
    }
}

/// Puts down the lines of the entries after the first ones.
pub fn tell_lines(
    told: &mut Text,
    alloc: Global,
    entries: &[Entry],
    first: usize,
) -> Result<(), Memory> {
    for place in first..entries.len() {
        let line = line_of(alloc, place as u64 + 1, &entries[place])?;
        told.push(format_args!("{line}\n"))?;
    }
    Ok(())
}

/// Puts down how many answers of walks were cache hits, where that isn't as before.
fn tell_kept(told: &mut Text, before: u64, kept: u64) -> Result<(), Memory> {
    if kept == before {
        return Ok(());
    }
    told.push(format_args!("kept {kept}\n"))
}
