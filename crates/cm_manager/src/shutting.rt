//! Shutdowns: an instance is marked, stopped with all below it, and removed where it is to be
//! destroyed.
//!
//! Instances stop in the order that the picks give, each before what it strongly depends on (the
//! component lifecycle, fuchsia.dev). Other calls may take turns between two picks, and several
//! calls may shut one instance down side by side.

ghost use Rattle.std.specs.Prelude.{IfNone, true};
ghost use Rattle.cm_laws.specs.Shutdowns.{IsLeaving, IsMarked};
ghost use Rattle.cm_laws.specs.ShutdownsInside.{IsShutBelow};
ghost use Rattle.cm_manager.specs.Turns.{world_after};
ghost use Rattle.cm_manager.specs.Asking.{Purged, frame_of};
ghost use Rattle.cm_manager.specs.Caller.{CallerRuns, TakesTurns};
ghost use Rattle.cm_manager.specs.Acting.{PickRun};
ghost use Rattle.cm_manager.specs.Shutdowns.{Shuts, Destroys};
ghost use Rattle.cm_manager.specs.Sweeps.{Stops};

use crate::began::PickTurn;
use crate::caller::Caller;
use cm_answers::unmarked;
use cm_gate::Gates;
use cm_laws::{marks_stay, pickers_end, shutdowns_last};
use cm_steps::{EventRef, Request};
use cm_world::{ActKind, Refusal, Reply};
use std::sync::Wait;
use std::thread::Threads;

impl<'a, R: Threads + Wait + Sync, G: Gates> Caller<'a, R, G> {
    /// Makes one pick, and stops the instance where the pick asks for it, however that ends.
    fn pick_one(&mut self, target: u64) -> PickTurn
        requires leaving { let p = self.old.pass in IsLeaving (world_after (frame_of p) p.seen) target }
        ensures { CallerRuns (λ f c a b. PickRun f c target result a b) self.old self.new }
    {
        pickers_end();
        let reply = match self.ask(EventRef::Pick(target)) {
            Ok(reply) => reply,
            Err(refusal) => return PickTurn::Cut(refusal),
        };
        match reply {
            Reply::Done => PickTurn::Done,
            Reply::ShutDown(_) => PickTurn::Further,
            Reply::Stopping(boxed) => {
                let work = boxed.into_value();
                let action = work.action;
                let (ending, _eager) = self.do_work(ActKind::Stop, work);
                let _outcome = self.end_turn(action, ending);
                PickTurn::Further
            }
            _ => unreachable!(),
        }
    }

    /// Stops an instance that was marked, and all below it, one by one. `Some` tells what ended
    /// the call among them: lack of memory, or of room in the history.
    pub(crate) fn stop_all(&mut self, target: u64) -> Option<Refusal>
        requires leaving { let p = self.old.pass in IsLeaving (world_after (frame_of p) p.seen) target }
        ensures runs { CallerRuns (λ f c a b. Stops f c target a b result) self.old self.new }
        ensures over { let p = self.new.pass in
            IfNone result (IsShutBelow (world_after (frame_of p) p.seen) target) }
    {
        marks_stay();
        shutdowns_last();
        let rt = self.rt;
        for _ in rt.forever() {
            match self.pick_one(target) {
                PickTurn::Done => return None,
                PickTurn::Further => {}
                PickTurn::Cut(refusal) => return Some(refusal),
            }
        }
        unreachable!()
    }

    /// Marks an instance, where `doom` is true to be destroyed, and stops it with all below it.
    /// `Some` tells what ended the call before all was shut.
    pub(crate) fn shut_row(&mut self, doom: bool, inc: u64) -> Option<Refusal>
        ensures runs { CallerRuns (λ f c a b. Shuts f c doom inc a b result) self.old self.new }
        ensures marked { let p = self.new.pass in
            IfNone result (IsMarked doom (world_after (frame_of p) p.seen) inc) }
        ensures over { let p = self.new.pass in
            IfNone result (IsShutBelow (world_after (frame_of p) p.seen) inc) }
    {
        marks_stay();
        match unmarked(self.ask(EventRef::Ask(Request::Mark(doom), inc))) {
            None => self.stop_all(inc),
            Some(refusal) => Some(refusal),
        }
    }

    /// Removes an instance that is to be destroyed, and shut with all below it, together with
    /// these. `Some` tells what ended the call there.
    pub(crate) fn purge(&mut self, inc: u64) -> Option<Refusal>
        requires due { let p = self.old.pass in let world = world_after (frame_of p) p.seen in
            IsMarked true world inc × IsShutBelow world inc }
        ensures turns { TakesTurns self.old self.new }
        ensures purged { Purged inc self.old.pass self.new.pass result }
    {
        match self.ask(EventRef::Purge(inc)) {
            Ok(reply) => {
                drop(reply);
                None
            }
            Err(refusal) => Some(refusal),
        }
    }

    /// Shuts an instance down to be destroyed, and removes it with all below it. `Some` tells
    /// what ended the call before that.
    pub(crate) fn destroy_row(&mut self, inc: u64) -> Option<Refusal>
        ensures { CallerRuns (λ f c a b. Destroys f c inc a b result) self.old self.new }
    {
        if let Some(refusal) = self.shut_row(true, inc) {
            return Some(refusal);
        }
        self.purge(inc)
    }
}
