//! Turns at the realm: one event each.

ghost use Rattle.std.specs.Prelude.{◌≡◌, ℕ, None, Err, IfNone};
ghost use Rattle.cm_world.specs.declared.event.Event.TheVariants as event;
ghost use Rattle.cm_world.specs.declared.reply.Reply.TheVariants as reply;
ghost use Rattle.cm_world.specs.World.{outcome_of};
ghost use Rattle.cm_world.specs.Step.{MayEnd};
ghost use Rattle.cm_laws.specs.Story.{IsLegal, world_of, AddsEntry};
ghost use Rattle.cm_laws.specs.Laws.{IsJoined};
ghost use Rattle.cm_steps.specs.Ends.{finish_of};
ghost use Rattle.cm_steps.specs.Requests.{EventWaitsFor, event_of};
ghost use Rattle.cm_manager.specs.Turns.{world_after};
ghost use Rattle.cm_manager.specs.Contract.{IsSamePass};
ghost use Rattle.cm_manager.specs.Asking as asking;
ghost use Rattle.cm_manager.specs.Asking.{AwaitsBy, Turned, Awaited, RecordsOutcome, frame_of};
ghost use Rattle.cm_manager.specs.Asking.{DueStays, DueIsOpen, IsDue};

use crate::Manager;
use crate::manager::check_history;
use cm_laws::{marks_stay, shutdowns_last};
use cm_steps::{Ending, EventRef, NoStep, Realm};
use cm_turn::Pass;
use cm_world::{Entry, Frame, Outcome, Refusal, Reply};
use std::alloc::Global;
use std::sync::Wait;

/// Does nothing: what is due in what a caller has seen stays due whatever callers do, and the
/// tree allows it.
fn due_events_stay()
    ensures stays { DueStays }
    ensures allowed { DueIsOpen }
{
    marks_stay();
    shutdowns_last();
}

/// Ends an action at the realm.
fn finish(realm: &mut Realm, caller: u32, action: u64, ending: Ending) -> Outcome
    requires { IsLegal realm.old
        → MayEnd (world_of realm.old).acts caller action (finish_of ending) }
    ensures legal { IsLegal realm.old }
    ensures tells { let event = event.End action (finish_of ending) in
        AddsEntry realm.old realm.new caller event (reply.Ended result) }
{
    check_history(realm);
    match realm.end(caller, action, ending) {
        Reply::Ended(outcome) => outcome,
        _ => unreachable!(),
    }
}

/// Takes the outcome of an action that the caller has joined; `None` where it hasn't ended.
fn outcome_at(realm: &mut Realm, caller: u32, action: u64) -> Option<Outcome>
    requires { IsLegal realm.old → IsJoined (world_of realm.old) caller action }
    ensures legal { IsLegal realm.old }
    ensures awaits { AwaitsBy realm.old realm.new caller action result }
    ensures none { IfNone result (outcome_of (world_of realm.old).acts action ≡ None) }
{
    check_history(realm);
    let reply = match realm.await_end(caller, action) {
        Some(reply) => reply,
        None => return None,
    };
    match reply {
        Reply::Ended(outcome) => Some(outcome),
        _ => unreachable!(),
    }
}

impl Manager {
    /// Takes one turn and makes the event in it, unless it has to wait, or is refused.
    fn ask_once<R: Wait>(
        &self,
        rt: &R,
        alloc: Global,
        pass: Pass<Entry, Frame>,
        wish: EventRef<'_>,
    ) -> (Pass<Entry, Frame>, Result<Reply, NoStep>)
        requires lock { pass.lock ≡ self.now.turn.lock }
        requires due { IsDue (world_after (frame_of pass) pass.seen) (event_of wish) }
        ensures same { IsSamePass (frame_of pass) pass result.0 }
        ensures turned { Turned (event_of wish.entry) pass result.0 result.1 }
        ensures busy { let world = world_after (frame_of pass) result.0.seen in
            (action : ℕ) → result.1 ≡ Err (NoStep.Busy action)
            → EventWaitsFor world (event_of wish.entry) action }
    {
        due_events_stay();
        let caller = pass.caller();
        self.permit.take(rt, caller);
        let mut held = self.turn.enter(rt, pass);
        let realm = held.state();
        check_history(realm);
        let went = realm.step(alloc, caller, wish);
        (self.turn.leave(held), went)
    }

    /// Makes the event, in a later turn again while it has to wait. `Err` with `HistoryFull` where
    /// the history has no room for what it needs, and with `Memory` where memory runs out.
    pub(crate) fn ask<R: Wait>(
        &self,
        rt: &R,
        alloc: Global,
        pass: Pass<Entry, Frame>,
        wish: EventRef<'_>,
    ) -> (Pass<Entry, Frame>, Result<Reply, Refusal>)
        requires lock { pass.lock ≡ self.now.turn.lock }
        requires due { IsDue (world_after (frame_of pass) pass.seen) (event_of wish) }
        ensures same { IsSamePass (frame_of pass) pass result.0 }
        ensures asked { asking.RecordsEvent (event_of wish.entry) pass result.0 result.1 }
    {
        due_events_stay();
        let mut idle = pass;
        for _ in rt.forever() {
            let (after, went) = self.ask_once(rt, alloc, idle, wish);
            match went {
                Ok(reply) => return (after, Ok(reply)),
                Err(NoStep::HistoryFull) => return (after, Err(Refusal::HistoryFull)),
                Err(NoStep::Memory) => return (after, Err(Refusal::Memory)),
                Err(NoStep::Busy(_)) => {
                    self.permit.pass_on(after.caller());
                    idle = after;
                }
            }
        }
        unreachable!()
    }

    /// Ends an action that this caller has begun, and answers what became of it.
    pub(crate) fn end_turn<R: Wait>(
        &self,
        rt: &R,
        pass: Pass<Entry, Frame>,
        action: u64,
        ending: Ending,
    ) -> (Pass<Entry, Frame>, Outcome)
        requires lock { pass.lock ≡ self.now.turn.lock }
        requires may { let world = world_after (frame_of pass) pass.seen in
            MayEnd world.acts pass.caller action (finish_of ending) }
        ensures same { IsSamePass (frame_of pass) pass result.0 }
        ensures told { RecordsOutcome pass result.0 (event.End action (finish_of ending)) result.1 }
    {
        let caller = pass.caller();
        self.permit.take(rt, caller);
        let mut held = self.turn.enter(rt, pass);
        let outcome = finish(held.state(), caller, action, ending);
        (self.turn.leave(held), outcome)
    }

    /// Takes one turn and in it the outcome of an action that this caller has joined, if it has
    /// ended.
    fn await_once<R: Wait>(
        &self,
        rt: &R,
        pass: Pass<Entry, Frame>,
        action: u64,
    ) -> (Pass<Entry, Frame>, Option<Outcome>)
        requires lock { pass.lock ≡ self.now.turn.lock }
        requires joined { let world = world_after (frame_of pass) pass.seen in
            IsJoined world pass.caller action }
        ensures same { IsSamePass (frame_of pass) pass result.0 }
        ensures awaited { Awaited action pass result.0 result.1 }
        ensures none { let world = world_after (frame_of pass) result.0.seen in
            IfNone result.1 (outcome_of world.acts action ≡ None) }
    {
        let caller = pass.caller();
        self.permit.take(rt, caller);
        let mut held = self.turn.enter(rt, pass);
        let outcome = outcome_at(held.state(), caller, action);
        (self.turn.leave(held), outcome)
    }

    /// Waits for the end of an action that this caller has joined, and answers what became of it.
    pub(crate) fn await_turn<R: Wait>(
        &self,
        rt: &R,
        pass: Pass<Entry, Frame>,
        action: u64,
    ) -> (Pass<Entry, Frame>, Outcome)
        requires lock { pass.lock ≡ self.now.turn.lock }
        requires joined { let world = world_after (frame_of pass) pass.seen in
            IsJoined world pass.caller action }
        ensures same { IsSamePass (frame_of pass) pass result.0 }
        ensures told { RecordsOutcome pass result.0 (event.Await action) result.1 }
    {
        let mut idle = pass;
        for _ in rt.forever() {
            let (after, outcome) = self.await_once(rt, idle, action);
            match outcome {
                Some(outcome) => return (after, outcome),
                None => {
                    self.permit.pass_on(after.caller());
                    idle = after;
                }
            }
        }
        unreachable!()
    }
}
