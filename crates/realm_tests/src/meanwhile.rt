//! Steps of another caller between the beginning and the end of a start.

ghost use Rattle.std.specs.Prelude.{◌≡◌, ℕ, IsTrue, OnOk};
ghost use Rattle.cm_world.specs.declared.action.Finish.TheVariants as finish;
ghost use Rattle.cm_world.specs.declared.action.Outcome.TheVariants as outcome;
ghost use Rattle.cm_world.specs.Step.{MayEnd, may_close};
ghost use Rattle.cm_laws.specs.Laws.{IsJoined};
ghost use Rattle.cm_laws.specs.Story.{world_of};
ghost use Rattle.realm_tests.specs.Ends.{MayClose};

use crate::endings::begun;
use cm_laws::marks_stay;
use cm_steps::{Ending, NoStep, Realm};
use cm_world::{ActKind, Outcome, Reply};
use std::alloc::Global;

/// Begins to start an instance for caller 0, joins caller 1, and lets the start be declined: then
/// caller 1 awaits that, where it heard nothing before.
pub fn join_and_decline(realm: &mut Realm, alloc: Global, inc: u64) -> Option<NoStep> {
    match begun(realm, alloc, ActKind::Start, inc) {
        Ok(action) => join(realm, alloc, inc, action),
        Err(refused) => refused,
    }
}

/// Joins caller 1 to the start that caller 0 has begun, and lets that be declined.
fn join(realm: &mut Realm, alloc: Global, inc: u64, begun: u64) -> Option<NoStep>
    requires { MayEnd (world_of realm.old).acts 0 begun (finish.Other outcome.Declined) }
{
    match realm.begin(alloc, 1, ActKind::Start, inc) {
        Ok(Reply::Joined(action)) => {
            decline_joined(realm, begun, action);
            None
        }
        Ok(other) => {
            drop(other);
            None
        }
        Err(no_step) => Some(no_step),
    }
}

/// Awaits for caller 1 the action that it joined, where it hears nothing yet, lets caller 0 end that
/// as declined, and awaits it again.
fn decline_joined(realm: &mut Realm, begun: u64, action: u64)
    requires may { MayEnd (world_of realm.old).acts 0 begun (finish.Other outcome.Declined) }
    requires joined { IsJoined (world_of realm.old) 1 action }
{
    match hears_nothing(realm, action) {
        Ok(()) => {
            decline(realm, begun);
            hear(realm, action);
        }
        Err(_ended) => (),
    }
}

/// Awaits for caller 1 an action that hasn't ended, and changes nothing; or tells which one has.
fn hears_nothing(realm: &mut Realm, action: u64) -> Result<(), u64>
    requires { IsJoined (world_of realm.old) 1 action }
    ensures { OnOk result (realm.new ≡ realm.old) }
{
    match realm.await_end(1, action) {
        Some(early) => {
            drop(early);
            Err(action)
        }
        None => Ok(()),
    }
}

/// Lets caller 0 end its action as declined. What caller 1 has joined it may still await.
fn decline(realm: &mut Realm, begun: u64)
    requires { MayEnd (world_of realm.old).acts 0 begun (finish.Other outcome.Declined) }
    ensures { (a : ℕ) → IsJoined (world_of realm.old) 1 a → IsJoined (world_of realm.new) 1 a }
{
    drop(realm.end(0, begun, Ending::Other(Outcome::Declined)));
}

/// Awaits for caller 1 an action that it joined.
fn hear(realm: &mut Realm, action: u64)
    requires { IsJoined (world_of realm.old) 1 action }
{
    drop(realm.await_end(1, action));
}

/// Begins to start an instance for caller 0, and lets caller 1 mark one to be destroyed: why caller 1
/// makes no pick for that. Then the start ends well.
pub fn doom_while_starting(
    realm: &mut Realm,
    alloc: Global,
    inc: u64,
    doomed: u64,
) -> Option<NoStep> {
    match begun(realm, alloc, ActKind::Start, inc) {
        Ok(action) => doom(realm, alloc, doomed, action),
        Err(refused) => refused,
    }
}

/// Marks an instance for caller 1, and ends the start that caller 0 has begun after a pick that isn't
/// made.
fn doom(realm: &mut Realm, alloc: Global, inc: u64, begun: u64) -> Option<NoStep>
    requires { MayEnd (world_of realm.old).acts 0 begun (finish.Other outcome.Started) }
{
    match marked(realm, inc) {
        Ok(()) => end_behind_pick(realm, alloc, inc, begun),
        Err(refused) => refused,
    }
}

/// Marks an instance for caller 1 to be destroyed, or tells why no step was made, if none was.
fn marked(realm: &mut Realm, inc: u64) -> Result<(), Option<NoStep>>
    ensures { OnOk result (MayClose realm.old realm.new inc) }
{
    marks_stay();
    let _entries = realm.entries();
    match realm.mark(1, true, inc) {
        Ok(Reply::Marked) => Ok(()),
        Ok(other) => {
            drop(other);
            Err(None)
        }
        Err(no_step) => Err(Some(no_step)),
    }
}

/// Ends the start that caller 0 has begun, after a pick of caller 1 that isn't made.
fn end_behind_pick(realm: &mut Realm, alloc: Global, inc: u64, begun: u64) -> Option<NoStep>
    requires may { MayEnd (world_of realm.old).acts 0 begun (finish.Other outcome.Started) }
    requires closes { IsTrue (may_close (world_of realm.old).rows inc) }
{
    match waited_for(realm, alloc, inc) {
        Ok(action) => {
            drop(realm.end(0, begun, Ending::Other(Outcome::Started)));
            Some(NoStep::Busy(action))
        }
        Err(no_step) => Some(no_step),
    }
}

/// The action that a pick for an instance has to wait for. Then nothing is changed, and nothing
/// is told where a pick is made.
fn waited_for(realm: &mut Realm, alloc: Global, inc: u64) -> Result<u64, NoStep>
    requires { IsTrue (may_close (world_of realm.old).rows inc) }
    ensures { OnOk result (realm.new ≡ realm.old) }
{
    match realm.pick(alloc, 1, inc) {
        Ok(reply) => {
            drop(reply);
            Err(NoStep::Memory)
        }
        Err(NoStep::Busy(action)) => Ok(action),
        Err(no_step) => Err(no_step),
    }
}
