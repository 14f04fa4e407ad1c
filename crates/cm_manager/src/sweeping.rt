//! What follows a stop, and the exit of a program: what went with the instance is removed.
//!
//! An instance that stops, and isn't being shut down, loses its children in collections; one in a
//! collection that runs each child once goes itself. These are marked to be destroyed in the very
//! turn in which it stops (collection durability, fuchsia.dev). The caller that stopped it shuts
//! them down and removes them, before it answers.

ghost use Rattle.std.specs.Prelude.{◌≡◌, ℕ, true, Contains};
ghost use Rattle.cm_laws.specs.Shutdowns.{IsMarked};
ghost use Rattle.cm_laws.specs.Story.{IsLegal, world_of};
ghost use Rattle.cm_world.specs.Expiring.{runs_once};
ghost use Rattle.cm_manager.specs.Turns.{IsLaterHistory, world_after};
ghost use Rattle.cm_manager.specs.Asking.{frame_of};
ghost use Rattle.cm_manager.specs.Caller.{CallerRuns, TakesTurns};
ghost use Rattle.cm_manager.specs.Contract.{IsSamePass};
ghost use Rattle.cm_manager.specs.Runs.{RunsAction, StartsSingleRun};
ghost use Rattle.cm_manager.specs.Sweeps.{Removes, Clears, Sweeps};

use crate::Manager;
use crate::began::Began;
use crate::caller::Caller;
use crate::manager::check_history;
use cm_answers::{ActionResult, ending_of_eager};
use cm_gate::Gates;
use cm_laws::{marks_stay, reaps_marked};
use cm_names::List;
use cm_steps::{EventRef, Realm};
use cm_turn::Pass;
use cm_world::{ActKind, Entry, Frame, Refusal, Reply};
use std::sync::Wait;
use std::thread::Threads;

/// Whether an instance lives in a collection that runs each child once, as the realm is now.
fn runs_once_in(realm: &Realm, inc: u64) -> bool
    ensures legal { IsLegal realm.now }
    ensures once { result ≡ runs_once (world_of realm.now).rows inc }
{
    check_history(realm);
    realm.runs_once(inc)
}

impl<'a, R: Threads + Wait + Sync, G: Gates> Caller<'a, R, G> {
    /// Stops an instance that is marked to be destroyed, with all below it, and removes these.
    /// `Some` tells what ended the call before that.
    fn remove_row(&mut self, inc: u64) -> Option<Refusal>
        requires marked { let p = self.old.pass in IsMarked true (world_after (frame_of p) p.seen) inc }
        ensures { CallerRuns (λ f c a b. Removes f c inc a b result) self.old self.new }
    {
        marks_stay();
        if let Some(refusal) = self.stop_all(inc) {
            return Some(refusal);
        }
        self.purge(inc)
    }

    /// Removes instances that are marked to be destroyed, one after another, each with all below
    /// it. `Some` tells what ended the call among them.
    fn clear(&mut self, rows: List<u64>) -> Option<Refusal>
        requires known { let p = self.old.pass in IsSamePass (frame_of p) p p }
        requires marked { let p = self.old.pass in let world = world_after (frame_of p) p.seen in
            (i : ℕ) → Contains rows i → IsMarked true world i }
        ensures { CallerRuns (λ f c a b. Clears f c rows a b result) self.old self.new }
    {
        marks_stay();
        for row in rows.as_slice() {
            if let Some(refusal) = self.remove_row(*row) {
                return Some(refusal);
            }
        }
        None
    }

    /// Removes what went with an instance that stopped. `Some` tells what ended the call there.
    pub(crate) fn sweep(&mut self, inc: u64) -> Option<Refusal>
        ensures { CallerRuns (λ f c a b. Sweeps f c inc a b result) self.old self.new }
    {
        reaps_marked();
        let reply = match self.ask(EventRef::Reap(inc)) {
            Ok(reply) => reply,
            Err(refusal) => return Some(refusal),
        };
        match reply {
            Reply::Reaping(rows) => self.clear(rows),
            _ => unreachable!(),
        }
    }

    /// Stops an instance, and removes what went with it where this call itself stopped it.
    pub(crate) fn stop_row(&mut self, inc: u64) -> Result<ActionResult, Refusal>
        ensures { CallerRuns (λ f c a b. RunsAction f c ActKind.Stop inc a b result) self.old self.new }
    {
        let kind = ActKind::Stop;
        let began = self.begin(kind, inc)?;
        match began {
            Began::Ended(action, outcome, _eager) => match self.sweep(inc) {
                None => Ok(ActionResult::Ended(kind, action, outcome)),
                Some(refusal) => Err(refusal),
            },
            Began::Joined(action, outcome) => Ok(ActionResult::Ended(kind, action, outcome)),
            Began::Quiet(reply) => Ok(ActionResult::Quiet(reply)),
            Began::Needs(_row) => unreachable!(),
        }
    }

    /// Whether an instance lives in a collection that runs each child once, as the caller finds
    /// the tree in a turn of its own.
    fn look_once(&mut self, inc: u64) -> bool
        ensures turns { TakesTurns self.old self.new }
        ensures later { let p = self.old.pass in IsLaterHistory p.caller p.seen self.new.pass.seen }
        ensures mine { self.new.pass.mine ≡ self.old.pass.mine }
        ensures once { result ≡ runs_once (world_after (frame_of self.old.pass) self.new.pass.seen).rows inc }
    {
        let Some(pass) = self.pass.take() else {
            unreachable!()
        };
        let (pass, once) = self.manager.look_once(self.rt, pass, inc);
        self.pass = Some(pass);
        once
    }

    /// Starts a child that was created, where its collection runs each child once. `Some` tells
    /// what ended the call there.
    pub(crate) fn start_once(&mut self, inc: u64) -> Option<Refusal>
        ensures { CallerRuns (λ f c a b. StartsSingleRun f c inc a b result) self.old self.new }
    {
        if !self.look_once(inc) {
            return None;
        }
        ending_of_eager(self.start_row(inc))
    }
}

impl Manager {
    /// Whether an instance lives in a collection that runs each child once, as the caller finds
    /// the tree in a turn of its own.
    pub(crate) fn look_once<R: Wait>(
        &self,
        rt: &R,
        pass: Pass<Entry, Frame>,
        inc: u64,
    ) -> (Pass<Entry, Frame>, bool)
        requires lock { pass.lock ≡ self.now.turn.lock }
        ensures same { IsSamePass (frame_of pass) pass result.0 }
        ensures later { IsLaterHistory pass.caller pass.seen result.0.seen }
        ensures mine { result.0.mine ≡ pass.mine }
        ensures once { result.1 ≡ runs_once (world_after (frame_of pass) result.0.seen).rows inc }
    {
        self.permit.take(rt, pass.caller());
        let mut held = self.turn.enter(rt, pass);
        let once = runs_once_in(held.state(), inc);
        (self.turn.leave(held), once)
    }
}
