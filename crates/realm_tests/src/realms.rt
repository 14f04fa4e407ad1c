//! The cases of small realms.

use crate::cases::ONCE;
use crate::steps::{realm_of, take_all};
use cm_names::Text;
use cm_steps::Realm;
use std::alloc::Global;

/// A new realm, which holds so many instances and so many entries.
pub fn realm_with(alloc: Global, head: &str) -> Option<Realm> {
    let (rows, rest) = head.split_once(' ')?;
    let (entries, _name) = rest.split_once(' ')?;
    realm_of(alloc, rows.parse().ok()?, entries.parse().ok()?)
}

/// What the steps of a case tell: first come the realm's limits and what the case shows, then the
/// steps. Of those above a line `--` nothing is told.
pub fn told(alloc: Global, case: &str) -> Option<Text> {
    let (head, steps) = case.split_once('\n')?;
    match realm_with(alloc, head) {
        Some(mut realm) => {
            let told = told_in(alloc, &mut realm, steps);
            drop(realm);
            told
        }
        None => None,
    }
}

/// What the steps come to, in words; what comes before a line `--` is only taken.
fn told_in(alloc: Global, realm: &mut Realm, steps: &str) -> Option<Text> {
    match steps.split_once("\n--\n") {
        Some((before, steps)) => {
            told_of(alloc, realm, before)?;
            told_of(alloc, realm, steps)
        }
        None => told_of(alloc, realm, steps),
    }
}

/// What all steps come to, a line for each.
fn told_of(alloc: Global, realm: &mut Realm, steps: &str) -> Option<Text> {
    let mut told = Text::new(alloc);
    take_all(realm, alloc, steps, &mut told)?;
    Some(told)
}

/// Whether the root, its child in a collection that runs each child once, its child in another, and
/// an instance that isn't there run once.
fn run_once(realm: &Realm) -> [bool; 4] {
    [
        realm.runs_once(0),
        realm.runs_once(1),
        realm.runs_once(2),
        realm.runs_once(9),
    ]
}

/// Which of the first four incarnations run once, after these steps.
fn run_once_behind(alloc: Global, realm: &mut Realm, steps: &str) -> Option<[bool; 4]> {
    told_of(alloc, realm, steps)?;
    Some(run_once(realm))
}

/// Which of the first four incarnations run once, after these steps in a new realm.
fn run_once_in_new(alloc: Global, steps: &str) -> Option<[bool; 4]> {
    match realm_of(alloc, 9, 99) {
        Some(mut realm) => {
            let once = run_once_behind(alloc, &mut realm, steps);
            drop(realm);
            once
        }
        None => None,
    }
}

/// A realm tells of each child whether it runs once.
#[test]
fn tells_what_runs_once(rt: HostRuntime) {
    assert!(rt; run_once_in_new(rt.alloc(), ONCE) == Some([false, true, false, false]));
}
