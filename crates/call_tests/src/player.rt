//! Plays the calls over one realm, and writes down what each is answered.

ghost use Rattle.std.specs.Prelude.{◌≡◌, [], All, IfSome};
ghost use Rattle.cm_turn.specs.Passes.{LockView};

use crate::calls::{Words, call};
use crate::cases::{CALLS, CLIENT, CLIENT_MANIFEST, LOGGER, LOGGER_MANIFEST, ROOT, ROOT_MANIFEST};
use cm_manager::Manager;
use cm_names::{Bytes, CapPath, List, Name, Text};
use cm_repo::Repository;
use cm_steps::Realm;
use cm_turn::Pass;
use cm_world::{Answer, Entry, Frame, Limits, Refusal, Target};
use std::alloc::Global;
use std::sync::Wait;
use std::thread::Threads;

/// The name of this text; `None` where it is none, or memory runs out.
fn name_of(alloc: Global, text: &str) -> Option<Name> {
    Name::read(alloc, text).ok()
}

/// What the calls are made with.
fn words_of(alloc: Global) -> Option<Words> {
    Some(Words {
        path: CapPath::read(alloc, "/svc/log").ok()?,
        protocol: name_of(alloc, "log")?,
        coll: name_of(alloc, "coll")?,
        child: name_of(alloc, "x")?,
        url: Text::from_str(alloc, CLIENT).ok()?,
        gives: List::new(alloc),
    })
}

/// Adds a manifest under its URL.
fn add(alloc: Global, manifests: &mut Repository, url: &str, text: &str) -> Option<()> {
    let bytes = text.as_bytes().to_vec(alloc).ok()?;
    manifests.add(url, Bytes::from_vec(bytes)).ok()
}

/// The manifests of the realm.
fn manifests_of(alloc: Global) -> Option<Repository> {
    let mut manifests = Repository::new(alloc);
    add(alloc, &mut manifests, ROOT, ROOT_MANIFEST)?;
    add(alloc, &mut manifests, LOGGER, LOGGER_MANIFEST)?;
    add(alloc, &mut manifests, CLIENT, CLIENT_MANIFEST)?;
    Some(manifests)
}

/// A realm of which nothing is resolved.
fn new_realm(alloc: Global) -> Option<Realm>
    ensures { IfSome result (λ realm. realm.entries ≡ []) }
{
    let root = Text::from_str(alloc, ROOT).ok()?;
    let limits = Limits {
        rows: 99,
        entries: 999,
    };
    Realm::new(alloc, root, List::new(alloc), limits).ok()
}

/// The last pass of a list.
fn last(passes: List<Pass<Entry, Frame>>) -> Option<Pass<Entry, Frame>>
    ensures { (turn : LockView) → All (λ p. p.lock ≡ turn.lock) passes
        → IfSome result (λ p. p.lock ≡ turn.lock) }
{
    let mut passes = passes.into_vec();
    passes.pop()
}

/// The number of an action, or 0 where there is none.
fn number_of(action: &Option<u64>) -> u64 {
    match action {
        Some(number) => *number,
        None => 0,
    }
}

/// An answer by its word, with a number of it.
fn told_of(answer: &Answer) -> (&'static str, u64) {
    match answer {
        Answer::Resolved(action) => ("resolved", number_of(action)),
        Answer::Started(action) => ("started", number_of(action)),
        Answer::Stopped(action, _) => ("stopped", number_of(action)),
        Answer::Shut => ("shut", 0),
        Answer::Created(inc) => ("created", *inc),
        Answer::Destroyed => ("destroyed", 0),
        Answer::Children(kids) => ("children", kids.get().len() as u64),
        Answer::Opened(route) => ("opened", route.get().hops.len() as u64),
        Answer::Routed(route) => ("routed", route.get().hops.len() as u64),
        Answer::Shown(look) => ("shown", look.inc),
        Answer::Surveyed(rows) => ("surveyed", rows.get().len() as u64),
        Answer::Doctored(lines) => ("doctored", lines.len() as u64),
        Answer::Left(on) => ("left", *on as u64),
        Answer::Streamed(_, told) => ("streamed", told.len() as u64),
    }
}

/// The word and the number that are told of an answer; `refused` and 0 for a refusal.
fn told_by(came: &Result<Answer, Refusal>) -> (&'static str, u64) {
    match came {
        Ok(answer) => told_of(answer),
        Err(_) => ("refused", 0),
    }
}

/// The call of a line, and the incarnation that it names.
fn parts_of(line: &str) -> (&str, u64) {
    let (given, _) = line.split_once(" => ").unwrap_or((line, ""));
    let (name, inc) = given.split_once(' ').unwrap_or((given, ""));
    (name, inc.parse().unwrap_or(u64::MAX))
}

/// Makes the call of a line, and tells what it is answered.
fn made<R: Threads + Wait + Sync>(
    rt: &R,
    alloc: Global,
    manager: &Manager,
    pass: Pass<Entry, Frame>,
    words: &Words,
    line: &str,
) -> (Pass<Entry, Frame>, (&'static str, u64))
    requires { pass.lock ≡ manager.now.turn.lock }
    ensures { result.0.lock ≡ pass.lock }
{
    let (name, inc) = parts_of(line);
    let (pass, came) = call(rt, alloc, manager, pass, name, &Target::Inc(inc), words);
    let told = told_by(&came);
    drop(came);
    (pass, told)
}

/// Puts down a call with its answer, and tells whether there was memory for it.
fn push_told(told: &mut Text, line: &str, answer: (&'static str, u64)) -> bool {
    let (call, _) = line.split_once(" => ").unwrap_or((line, ""));
    let (word, number) = answer;
    told.push(format_args!("{call} => {word} {number}\n"))
        .is_ok()
}

/// Makes the calls one after another, and puts down what each is answered.
fn make_all<R: Threads + Wait + Sync>(
    rt: &R,
    alloc: Global,
    manager: &Manager,
    pass: Pass<Entry, Frame>,
    words: &Words,
    told: &mut Text,
) -> bool
    requires { pass.lock ≡ manager.now.turn.lock }
{
    let mut pass = pass;
    let mut is_whole = true;
    for line in CALLS.lines() {
        let (back, answer) = made(rt, alloc, manager, pass, words, line);
        pass = back;
        is_whole = push_told(told, line, answer) && is_whole;
    }
    drop(pass);
    is_whole
}

/// What the calls are answered, with the last of these passes.
fn answers_by<R: Threads + Wait + Sync>(
    rt: &R,
    alloc: Global,
    manager: &Manager,
    passes: List<Pass<Entry, Frame>>,
) -> Option<Text>
    requires { All (λ p. p.lock ≡ manager.now.turn.lock) passes }
{
    let words = words_of(alloc)?;
    let mut told = Text::new(alloc);
    match last(passes) {
        Some(pass) => {
            if make_all(rt, alloc, manager, pass, &words, &mut told) {
                Some(told)
            } else {
                None
            }
        }
        None => None,
    }
}

/// What they are answered by a manager of this realm.
fn answers_in<R: Threads + Wait + Sync>(
    rt: &R,
    alloc: Global,
    realm: Realm,
    manifests: Repository,
) -> Option<Text>
    requires { realm.entries ≡ [] }
{
    match Manager::new(alloc, realm, manifests, None, 1) {
        Ok((manager, passes)) => {
            let told = answers_by(rt, alloc, &manager, passes);
            drop(manager);
            told
        }
        Err(realm) => {
            drop(realm);
            None
        }
    }
}

/// What they are answered in a new realm.
fn answers<R: Threads + Wait + Sync>(rt: &R, alloc: Global) -> Option<Text> {
    match new_realm(alloc) {
        Some(realm) => match manifests_of(alloc) {
            Some(manifests) => answers_in(rt, alloc, realm, manifests),
            None => {
                drop(realm);
                None
            }
        },
        None => None,
    }
}

/// All prescribed calls are made by one caller, and answered as the table says.
#[test]
fn calls_are_answered(rt: HostRuntime) {
    let told = answers(&rt, rt.alloc());
    assert!(rt; told.is_some_and(|told| told.as_str() == CALLS));
}
