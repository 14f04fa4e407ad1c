//! Plays tables. A table is one text, which is taken apart when it runs: the prover doesn't look into
//! it, so that one more case costs no proof.

ghost use Rattle.std.specs.Prelude.{◌≡◌, [], All, IfSome};
ghost use Rattle.cm_turn.specs.Passes.{LockView};

use crate::cases::{ENDS, LIMITS, STOP, answer_of};
use cm_gate::QuietGates;
use cm_io::{FaultPlan, Link, MemoryLink, MemorySink, MemorySource, StepLog};
use cm_manager::Manager;
use cm_names::{Bytes, List, Text};
use cm_repo::Repository;
use cm_session::{Ended, session};
use cm_steps::Realm;
use cm_turn::Pass;
use cm_world::{Entry, Frame, Limits};
use std::alloc::Global;
use std::sync::Wait;
use std::thread::Threads;

/// A plan that moves so many bytes at once and fails at this call, if at any.
fn plan_of(alloc: Global, piece: &str, failing: &str) -> Option<FaultPlan> {
    let piece = piece.parse().ok()?;
    match failing_of(alloc, failing) {
        Some(failing) => Some(FaultPlan {
            piece,
            failing: List::from_vec(failing),
        }),
        None => None,
    }
}

/// The call that fails, or none for `-`.
fn failing_of(alloc: Global, word: &str) -> Option<Vec<u64>> {
    if word == "-" {
        return Some(Vec::new(alloc));
    }
    let call = word.parse().ok()?;
    vec![in alloc; call].ok()
}

/// The word of a head at this place.
fn word_of(head: &str, place: usize) -> &str {
    head.split(' ').nth(place).unwrap_or("")
}

/// The source of a case, by the words of its head; `None` where they can't be read.
fn source_of(alloc: Global, head: &str, input: &str) -> Option<MemorySource> {
    let plan = plan_of(alloc, word_of(head, 1), word_of(head, 2))?;
    match input.as_bytes().to_vec(alloc) {
        Ok(bytes) => Some(MemorySource::new(List::from_vec(bytes), plan)),
        Err(_) => None,
    }
}

/// The link of a case, by the words of its head; `None` where they can't be read.
fn link_of(alloc: Global, head: &str, input: &str) -> Option<MemoryLink> {
    let plan = plan_of(alloc, word_of(head, 1), word_of(head, 3))?;
    match source_of(alloc, head, input) {
        Some(source) => Some(MemoryLink {
            source,
            sink: MemorySink::new(alloc, plan),
            log: StepLog::new(alloc),
        }),
        None => None,
    }
}

/// A new realm, whose history takes so many entries.
pub fn new_realm(alloc: Global, entries: u64) -> Option<Realm>
    ensures { IfSome result (λ realm. realm.entries ≡ []) }
{
    let root = Text::from_str(alloc, "fuchsia-pkg://t/a#meta/root.cm").ok()?;
    let limits = Limits {
        rows: 65_536,
        entries,
    };
    Realm::new(alloc, root, List::new(alloc), limits).ok()
}

/// Adds a manifest under its URL.
pub fn add(alloc: Global, manifests: &mut Repository, url: &str, text: &str) -> Option<()> {
    let bytes = text.as_bytes().to_vec(alloc).ok()?;
    manifests.add(url, Bytes::from_vec(bytes)).ok()
}

/// Adds the manifests of the root, which has a collection, and of the child in it.
fn add_both(alloc: Global, manifests: &mut Repository) -> Option<()> {
    let root = "{collections:[{name:'coll',durability:'transient'}]}";
    add(alloc, manifests, "fuchsia-pkg://t/a#meta/root.cm", root)?;
    add(
        alloc,
        manifests,
        "fuchsia-pkg://t/a#meta/x.cm",
        "{program:{runner:'elf'}}",
    )
}

/// The manifests of a case, by the words of its head.
fn manifests_of(alloc: Global, head: &str) -> Option<Repository> {
    let mut manifests = Repository::new(alloc);
    if word_of(head, 4) == "both" {
        add_both(alloc, &mut manifests)?;
    }
    Some(manifests)
}

/// The last pass of a list.
fn last(passes: List<Pass<Entry, Frame>>) -> Option<Pass<Entry, Frame>>
    ensures { (turn : LockView) → All (λ p. p.lock ≡ turn.lock) passes
        → IfSome result (λ p. p.lock ≡ turn.lock) }
{
    let mut passes = passes.into_vec();
    passes.pop()
}

/// A session over this link, of which no caller has to read what it promises.
fn served<R: Threads + Wait + Sync, L: Link>(
    rt: &R,
    alloc: Global,
    manager: &Manager,
    pass: Pass<Entry, Frame>,
    link: &mut L,
) -> (Pass<Entry, Frame>, Ended)
    requires { pass.lock ≡ manager.now.turn.lock }
{
    session(rt, alloc, manager, pass, &mut QuietGates, link)
}

/// The end of a session over this link, with the last of these passes of a manager.
fn end_by<R: Threads + Wait + Sync, L: Link>(
    rt: &R,
    alloc: Global,
    manager: &Manager,
    passes: List<Pass<Entry, Frame>>,
    link: &mut L,
) -> Option<Ended>
    requires { All (λ p. p.lock ≡ manager.now.turn.lock) passes }
{
    match last(passes) {
        Some(pass) => {
            let (pass, ended) = served(rt, alloc, manager, pass, link);
            drop(pass);
            Some(ended)
        }
        None => None,
    }
}

/// The end of a session over this link, with a new manager of a realm and its manifests.
fn end_of<R: Threads + Wait + Sync, L: Link>(
    rt: &R,
    alloc: Global,
    realm: Realm,
    manifests: Repository,
    link: &mut L,
) -> Option<Ended>
    requires empty { realm.entries ≡ [] }
{
    match Manager::new(alloc, realm, manifests, None, 1) {
        Ok((manager, passes)) => {
            let ended = end_by(rt, alloc, &manager, passes, link);
            drop(manager);
            ended
        }
        Err(realm) => {
            drop(realm);
            None
        }
    }
}

/// The end of the session of a case.
pub fn end_of_case<R: Threads + Wait + Sync, L: Link>(
    rt: &R,
    alloc: Global,
    head: &str,
    link: &mut L,
) -> Option<Ended> {
    let entries = word_of(head, 0).parse().ok()?;
    match new_realm(alloc, entries) {
        Some(realm) => match manifests_of(alloc, head) {
            Some(manifests) => end_of(rt, alloc, realm, manifests, link),
            None => {
                drop(realm);
                None
            }
        },
        None => None,
    }
}

/// What is told of a session that ended so: the end, and then what was written.
fn told_of(alloc: Global, ended: Ended, written: &[u8]) -> Option<Text> {
    let written = str::from_utf8(written).ok()?;
    let mut told = Text::new(alloc);
    told.push(format_args!("{ended:?}\n{written}")).ok()?;
    Some(told)
}

/// What a case comes to, as its table tells it.
fn told_by<R: Threads + Wait + Sync>(
    rt: &R,
    alloc: Global,
    head: &str,
    input: &str,
) -> Option<Text> {
    match link_of(alloc, head, input) {
        Some(mut link) => {
            let told = told_over(rt, alloc, head, &mut link);
            drop(link);
            told
        }
        None => None,
    }
}

/// What a case whose session has this link comes to, as its table tells it.
fn told_over<R: Threads + Wait + Sync>(
    rt: &R,
    alloc: Global,
    head: &str,
    link: &mut MemoryLink,
) -> Option<Text> {
    let ended = end_of_case(rt, alloc, head, link)?;
    told_of(alloc, ended, link.sink.bytes())
}

/// Puts down the case that begins here, where it tells something else or can't be read.
fn push_if_odd<R: Threads + Wait + Sync>(
    rt: &R,
    alloc: Global,
    odd: &mut Text,
    case: &str,
) -> Option<()> {
    let (given, wanted) = case.split_once("\n=> ")?;
    let (head, input) = given.split_once('\n')?;
    match told_by(rt, alloc, head, input) {
        Some(told) => push_if_else(odd, case, wanted, told.as_str()),
        None => None,
    }
}

/// Puts a case down that tells this, where it should tell something else.
fn push_if_else(odd: &mut Text, case: &str, wanted: &str, told: &str) -> Option<()> {
    if told == wanted || wanted.strip_suffix('\n') == Some(told) {
        return Some(());
    }
    odd.push(format_args!("{case}{told}\n")).ok()
}

/// The cases of a table that tell something else; nothing where one can't be read.
fn odd_cases<R: Threads + Wait + Sync>(rt: &R, alloc: Global, table: &str) -> Option<Text> {
    let mut odd = Text::new(alloc);
    for case in table.split("== ").skip(1) {
        push_if_odd(rt, alloc, &mut odd, case)?;
    }
    Some(odd)
}

/// Each case of the table comes to what it says.
#[test]
fn sessions_end(rt: HostRuntime) {
    let odd = odd_cases(&rt, rt.alloc(), ENDS);
    assert!(rt; odd.is_some_and(|odd| odd.is_empty()));
}

/// Puts down what the last lines of a stop are answered.
fn push_answers(case: &mut Text, words: &str) -> Option<()> {
    for word in words.split(' ') {
        let answer = answer_of(word)?;
        case.push(format_args!("{answer}\n")).ok()?;
    }
    Some(())
}

/// The case of a row of stops.
fn stop_of(alloc: Global, row: &str) -> Option<Text> {
    let (entries, words) = row.split_once(' ')?;
    let stop = STOP;
    let mut case = Text::new(alloc);
    case.push(format_args!("{entries} {stop}")).ok()?;
    push_answers(&mut case, words)?;
    Some(case)
}

/// Puts down the stop of a row, where it tells something else or can't be read.
fn push_odd_stop<R: Threads + Wait + Sync>(
    rt: &R,
    alloc: Global,
    odd: &mut Text,
    row: &str,
) -> Option<()> {
    match stop_of(alloc, row) {
        Some(case) => push_if_odd(rt, alloc, odd, case.as_str()),
        None => None,
    }
}

/// The stops that tell something else; nothing where one can't be read.
fn odd_stops<R: Threads + Wait + Sync>(rt: &R, alloc: Global) -> Option<Text> {
    let mut odd = Text::new(alloc);
    for row in LIMITS.lines() {
        push_odd_stop(rt, alloc, &mut odd, row)?;
    }
    Some(odd)
}

/// Where the history has no room for it, the removal of what goes with a stopped instance is cut, as
/// the rows say.
#[test]
fn full_histories_cut_removals(rt: HostRuntime) {
    let odd = odd_stops(&rt, rt.alloc());
    assert!(rt; odd.is_some_and(|odd| odd.is_empty()));
}

/// A table whose only case tells something else.
const WRONG: &str = "== 9 1 - - none\n\n=> Quit\n";

/// The player finds a case that comes to something else, and one that can't be read.
#[test]
fn finds_wrong_cases(rt: HostRuntime) {
    let odd = odd_cases(&rt, rt.alloc(), WRONG);
    assert!(rt; odd.is_some_and(|odd| odd.as_str() == "9 1 - - none\n\n=> Quit\nEnd\n\n"));
    assert!(rt; odd_cases(&rt, rt.alloc(), "== no case").is_none());
}
