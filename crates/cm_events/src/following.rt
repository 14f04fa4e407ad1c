//! What happened within a realm, read by one who goes on from where he ended before.

ghost use Rattle.std.specs.Prelude.{◌≡◌, ◌&&◌, ◌||◌, ◌≤◌, ◌==◌, ◌∷◌, [], ℕ, IfOk, OnOk};
ghost use Rattle.std.specs.Prelude.{drop, find, is_some, length, nat_eq, not, take};
ghost use Rattle.std.specs.HashSet.{contains};
ghost use Rattle.cm_world.specs.declared.reply.Reply.TheVariants as reply;
ghost use Rattle.cm_events.specs.Stream as spec;
ghost use Rattle.cm_events.specs.Works.{work_at, begun_as};
ghost use Rattle.cm_events.specs.Wanted.{BeginsOnce, HasFound, TakesWork, is_wanted, wants};

use crate::filtering::{keep_work, kind_of, tell};
use cm_names::{List, Memory, Moniker};
use cm_world::{Entry, Event, Happening, Outcome, Reply, Work};
use std::alloc::Global;
use std::collections::{HashMap, HashSet};

/// What the entries after the first `from` of a history tell, in order, of instances at and below
/// a moniker, where no two entries begin the same action. `Err` where memory runs out.
///
/// It is what [`filter`](crate::filter) tells, and costs what the entries after `from` cost: those
/// before are read from the last one towards the prefix, once, and only as far as the earliest entry
/// that began an action of whose end is told. It keeps nothing of them but those actions' works.
pub fn follow(
    alloc: Global,
    entries: &[Entry],
    from: u64,
    scope: &Moniker,
) -> Result<List<Happening>, Memory>
    requires { BeginsOnce entries.now }
    ensures { IfOk result (λ made. made
        ≡ spec.stream entries.now from (length entries.now) scope.now) }
{
    let mut made = List::new(alloc);
    if from >= entries.len() as u64 {
        return Ok(made);
    }
    let start = from as usize;
    let wanted = wanted_behind(alloc, entries, start)?;
    let mut works = look_back(alloc, entries, start, wanted)?;
    let mut index = start;
    while index < entries.len() {
        let entry = &entries[index];
        tell(&works, index as u64 + 1, entry, scope, &mut made)?;
        keep_work(&mut works, entry)?;
        index += 1;
    }
    Ok(made)
}

/// The actions that the entries after the first `start` tell the end of and don't begin.
fn wanted_behind(alloc: Global, entries: &[Entry], start: usize) -> Result<HashSet<u64>, Memory>
    requires { start ≤ length entries.now }
    ensures { IfOk result (λ wanted. (a : ℕ) → contains nat_eq wanted a
        ≡ is_wanted (drop start entries.now) a) }
{
    let mut wanted = HashSet::new(alloc);
    let mut back = entries.len();
    while back > start {
        back -= 1;
        want(&mut wanted, &entries[back])?;
    }
    Ok(wanted)
}

/// Takes an entry before those that want these actions: the action whose end it tells is wanted
/// too, and one that it begins no more.
fn want(wanted: &mut HashSet<u64>, entry: &Entry) -> Result<(), Memory>
    ensures { let e = entry.now in OnOk result ((a : ℕ) → contains nat_eq wanted.new a
        ≡ wants e.reply e.event a (contains nat_eq wanted.old a)) }
{
    match &entry.reply {
        Reply::Begun(work) => {
            forget(wanted, work.get().action);
            Ok(())
        }
        Reply::Stopping(work) => {
            forget(wanted, work.get().action);
            Ok(())
        }
        Reply::Ended(outcome) => want_ended(wanted, &entry.event, *outcome),
        _ => Ok(()),
    }
}

/// Takes an action out of those that are wanted.
fn forget(wanted: &mut HashSet<u64>, action: u64)
    ensures { (a : ℕ) → contains nat_eq wanted.new a
        ≡ (contains nat_eq wanted.old a && not (action == a)) }
{
    wanted.remove(&action);
}

/// Puts the action that ended so to those that are wanted, if its end tells something.
fn want_ended(wanted: &mut HashSet<u64>, event: &Event, outcome: Outcome) -> Result<(), Memory>
    ensures { OnOk result ((a : ℕ) → contains nat_eq wanted.new a
        ≡ wants (reply.Ended outcome) event.now a (contains nat_eq wanted.old a)) }
{
    match event {
        Event::End(action, _) => want_told(wanted, *action, outcome),
        _ => Ok(()),
    }
}

/// Puts this action to those that are wanted, if an end with this outcome tells something.
fn want_told(wanted: &mut HashSet<u64>, action: u64, outcome: Outcome) -> Result<(), Memory>
    ensures { OnOk result ((a : ℕ) → contains nat_eq wanted.new a
        ≡ (contains nat_eq wanted.old a || (is_some (spec.kind_of outcome) && action == a))) }
{
    if kind_of(outcome).is_some() {
        wanted.insert(action)?;
    }
    Ok(())
}

/// The works of wanted actions, as the first `start` entries begin them, read from the last of
/// these towards the prefix until each is found.
fn look_back<'a>(
    alloc: Global,
    entries: &'a [Entry],
    start: usize,
    wanted: HashSet<u64>,
) -> Result<HashMap<u64, &'a Work>, Memory>
    requires once { BeginsOnce entries.now }
    requires within { start ≤ length entries.now }
    ensures { IfOk result (λ works. (a : ℕ) → HasFound
        (work_at works a) (spec.work_of (take start entries.now) a) (contains nat_eq wanted a)) }
{
    let mut left = wanted;
    let mut works = HashMap::new(alloc);
    let mut back = start;
    while back > 0 && !left.is_empty() {
        back -= 1;
        find_work(&mut left, &mut works, &entries[back])?;
    }
    Ok(works)
}

/// Keeps the work that an entry begins, if its action is wanted, which it then is no more.
fn find_work<'a>(
    left: &mut HashSet<u64>,
    works: &mut HashMap<u64, &'a Work>,
    entry: &'a Entry,
) -> Result<(), Memory>
    ensures { OnOk result ((a : ℕ) → TakesWork
        (begun_as entry.now.reply a) (contains nat_eq left.old a) (work_at works.old a)
        (contains nat_eq left.new a) (work_at works.new a)) }
{
    match &entry.reply {
        Reply::Begun(work) => take_work(left, works, work.get()),
        Reply::Stopping(work) => take_work(left, works, work.get()),
        _ => Ok(()),
    }
}

/// Keeps a work, if its action is wanted, which it then is no more.
fn take_work<'a>(
    left: &mut HashSet<u64>,
    works: &mut HashMap<u64, &'a Work>,
    work: &'a Work,
) -> Result<(), Memory>
    ensures { OnOk result ((a : ℕ) → TakesWork
        (find (λ w. w.action == a) (work.now ∷ [])) (contains nat_eq left.old a)
        (work_at works.old a) (contains nat_eq left.new a) (work_at works.new a)) }
{
    if left.remove(&work.action) {
        works.insert(work.action, work)?;
    }
    Ok(())
}
