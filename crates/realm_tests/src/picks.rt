//! What is picked in a shutdown: by the order alone, which is asked by its name, and by the realm's own
//! step after it.

ghost use Rattle.std.specs.Prelude.{IsTrue, IfSome};
ghost use Rattle.cm_world.specs.Step.{may_close};
ghost use Rattle.cm_laws.specs.Story.{world_of};

use crate::locating::lives;
use crate::realms::realm_with;
use crate::steps::{length_of, take_all, tell_lines};
use cm_laws::{marks_stay, trees_stay_sound};
use cm_names::{Memory, Text};
use cm_order::{Picked, pick};
use cm_steps::Realm;
use cm_world::Reply;
use std::alloc::Global;

/// What is picked in a case: first come the realm's limits and what the case shows, then steps, of which
/// nothing is told. After a line `--` each line is a target, which is marked to be shut down.
pub fn told(alloc: Global, case: &str) -> Option<Text> {
    let (prefix, targets) = case.split_once("\n--\n")?;
    let (head, steps) = prefix.split_once('\n')?;
    match realm_with(alloc, head) {
        Some(mut realm) => {
            let told = told_in(alloc, &mut realm, steps, targets);
            drop(realm);
            told
        }
        None => None,
    }
}

/// What the picks for these targets come to after the steps, a line for each.
fn told_in(alloc: Global, realm: &mut Realm, steps: &str, targets: &str) -> Option<Text> {
    take_all(realm, alloc, steps, &mut Text::new(alloc))?;
    let mut told = Text::new(alloc);
    pick_all(realm, alloc, targets, &mut told)?;
    Some(told)
}

/// Picks for one target after another.
fn pick_all(realm: &mut Realm, alloc: Global, targets: &str, told: &mut Text) -> Option<()> {
    for target in targets.split('\n') {
        let inc = target.parse().ok()?;
        close(realm, inc)?;
        pick_for(realm, alloc, inc, told)?;
    }
    Some(())
}

/// Marks an instance for caller 0 to be shut down, or finds it marked.
fn close(realm: &mut Realm, inc: u64) -> Option<()>
    ensures { IfSome result (λ _. IsTrue (may_close (world_of realm.new).rows inc)) }
{
    marks_stay();
    let _entries = realm.entries();
    match realm.mark(0, false, inc) {
        Ok(Reply::Marked) => Some(()),
        Ok(Reply::Already) => Some(()),
        Ok(other) => {
            drop(other);
            None
        }
        Err(_no_step) => None,
    }
}

/// Puts down what the order picks for an instance, and the line of the realm's own pick for it, if one
/// is made.
fn pick_for(realm: &mut Realm, alloc: Global, inc: u64, told: &mut Text) -> Option<()>
    requires { IsTrue (may_close (world_of realm.old).rows inc) }
{
    let first = length_of(realm);
    tell(told, picked(realm, alloc, inc)?).ok()?;
    drop(realm.pick(alloc, 0, inc));
    tell_lines(told, alloc, realm.entries(), first).ok()
}

/// What the order picks for an instance of the realm's tree.
fn picked(realm: &Realm, alloc: Global, inc: u64) -> Option<Picked>
    requires { IsTrue (may_close (world_of realm.now).rows inc) }
{
    trees_stay_sound();
    let _entries = realm.entries();
    let tree = realm.tree();
    let _lives = lives(tree, inc);
    pick(alloc, tree, inc).ok()
}

/// Adds a line with what was picked to what is told.
fn tell(told: &mut Text, picked: Picked) -> Result<(), Memory> {
    match picked {
        Picked::StopNow(inc) => told.push(format_args!("stop {inc}\n")),
        Picked::ShutNow(inc) => told.push(format_args!("shut {inc}\n")),
        Picked::Waits(action) => told.push(format_args!("wait for {action}\n")),
        Picked::Done => told.push_str("done\n"),
    }
}
