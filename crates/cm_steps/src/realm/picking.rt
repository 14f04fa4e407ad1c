//! The steps that pick what a shutdown stops next.
//!
//! That an instance stops before what it depends on, and after what depends on it, is the
//! shutdown order of Fuchsia's component lifecycle documentation (fuchsia.dev).

ghost use Rattle.std.specs.Prelude.{◌≡◌, ℕ, Some, Err, IsTrue, IfOk, IfErr, OnOk, OnErr};
ghost use Rattle.std.specs.Prelude.{IfSome, IfNone};
ghost use Rattle.cm_world.specs.Step.{PicksOff, may_close};
ghost use Rattle.cm_order.specs.Picking.{MayBePicked};
ghost use Rattle.cm_laws.specs.Story.{world_of, AddsEntry};
ghost use Rattle.cm_laws.specs.Clients.{picked_by};
ghost use Rattle.cm_steps.specs.Requests.{Steps};
ghost use Rattle.cm_steps.specs.Steps.{RealmHasRoom, LacksRoom, RefusesStep, RefusesQuiet, WaitsToPick};
ghost use Rattle.cm_steps.specs.Answers.{PicksOrWaits};
ghost use Rattle.cm_steps.specs.Chosen.{Chooses, PicksThis};

use super::Realm;
use crate::nostep::NoStep;
use crate::replies::picking::{PickAnswer, pick_answer, this_answer};
use crate::request::EventRef;
use crate::rooms::next_action;
use cm_laws::trees_stay_sound;
use cm_world::{ActKind, Event, Reply};
use std::alloc::Global;

impl Realm {
    /// Picks the instance that is to stop next, so that the target shuts down with all below it.
    /// The target doesn't live, or it or one above it is being shut down.
    ///
    /// `Done` exactly where all at and below the target is shut. Else it is an instance at or
    /// below the outermost one that is being shut down, among the target and those above it, that
    /// isn't shut, has no pending action, and that nothing which isn't shut depends on: `Stopping`
    /// with what is to be done where its program runs, by which a stop begins that the caller
    /// ends; `ShutDown` with its incarnation where its program doesn't run, and then it is shut.
    ///
    /// - `Busy` with the number of an action that is pending at such an instance, where each of
    ///   them has one pending;
    /// - `HistoryFull` where two entries more don't fit, which is tried first;
    /// - `Memory` where memory runs out.
    pub fn pick(&mut self, alloc: Global, caller: u32, target: u64) -> Result<Reply, NoStep>
        requires closing { IsTrue (may_close (world_of self.old).rows target) }
        ensures { Steps self.old self.new caller (Event.Pick target) result }
    {
        self.step(alloc, caller, EventRef::Pick(target))
    }

    /// Makes the step of a pick, where there is room.
    pub(super) fn pick_at(
        &mut self,
        alloc: Global,
        caller: u32,
        target: u64,
    ) -> Result<Reply, NoStep>
        requires closing { IsTrue (may_close (world_of self.old).rows target) }
        requires room { RealmHasRoom self.old 2 }
        ensures step { IfOk result (λ reply.
            AddsEntry self.old self.new caller (Event.Pick target) reply) }
        ensures refused { let waits = WaitsToPick (world_of self.old) target in
            IfErr result (RefusesStep self.old 2 waits) }
        ensures err { OnErr result (self.new ≡ self.old) }
    {
        trees_stay_sound();
        let next = next_action(self.acts.as_slice());
        let answer = pick_answer(alloc, &self.table, &mut self.records.plan, next, target)?;
        self.pick_by(caller, target, answer)
    }

    /// Picks this instance, if a pick for the target may choose it, as [`Realm::pick`] says which it may.
    /// So a history can be made again of which it is known what each pick chose. The target doesn't
    /// live, or it or one above it is being shut down.
    ///
    /// `Stopping` with what is to be done where the instance's program runs, by which a stop begins
    /// that the caller ends; `ShutDown` where it doesn't run, and then it is shut. `None` exactly where
    /// it may not be chosen; then nothing is changed. So it is never `Done`.
    ///
    /// Where the instance is the one that `pick` chooses, it takes as long as that; else the levels
    /// above the instance are made anew.
    ///
    /// - `HistoryFull` where two entries more don't fit, which is tried first;
    /// - `Memory` where memory runs out.
    pub fn pick_this(
        &mut self,
        alloc: Global,
        caller: u32,
        target: u64,
        inc: u64,
    ) -> Result<Option<Reply>, NoStep>
        requires closing { IsTrue (may_close (world_of self.old).rows target) }
        ensures some { let picks = PicksThis self.old self.new caller target inc in
            IfOk result (λ told. IfSome told picks) }
        ensures none { let may = MayBePicked (world_of self.old).rows target inc in
            IfOk result (λ told. IfNone told (may → ⊥)) }
        ensures same { IfOk result (λ told. IfNone told (self.new ≡ self.old)) }
        ensures room { OnOk result (RealmHasRoom self.old 2) }
        ensures full { LacksRoom self.old 2 → result ≡ Err NoStep.HistoryFull }
        ensures refused { IfErr result (RefusesStep self.old 2 (λ a. ⊥)) }
        ensures err { OnErr result (self.new ≡ self.old) }
    {
        if !self.has_room(2) {
            return Err(NoStep::HistoryFull);
        }
        trees_stay_sound();
        let next = next_action(self.acts.as_slice());
        let found = this_answer(
            alloc,
            &self.table,
            &mut self.records.plan,
            next,
            target,
            inc,
        )?;
        match found {
            None => Ok(None),
            Some(answer) => match self.pick_by(caller, target, answer) {
                Ok(reply) => Ok(Some(reply)),
                Err(fault) => Err(fault),
            },
        }
    }

    /// Takes the step that a pick comes to, where there is room.
    fn pick_by(&mut self, caller: u32, target: u64, answer: PickAnswer) -> Result<Reply, NoStep>
        requires room { RealmHasRoom self.old 2 }
        requires closing { IsTrue (may_close (world_of self.old).rows target) }
        requires answer { PicksOrWaits (world_of self.old) target answer }
        ensures step { IfOk result (λ reply.
            AddsEntry self.old self.new caller (Event.Pick target) reply) }
        ensures chosen { (i : ℕ) → Chooses i answer →
            IfOk result (λ reply. picked_by (Event.Pick target) reply ≡ Some i) }
        ensures refused { let waits = WaitsToPick (world_of self.old) target in
            IfErr result (RefusesStep self.old 2 waits) }
        ensures err { OnErr result (self.new ≡ self.old) }
    {
        match answer {
            PickAnswer::Busy(action) => Err(NoStep::Busy(action)),
            PickAnswer::Done => self.tell(caller, Event::Pick(target), Reply::Done),
            PickAnswer::Shuts(inc) => self.shut(caller, target, inc),
            PickAnswer::Stops(work) => {
                let inc = work.get().inc;
                let event = Event::Pick(target);
                self.begin_action(caller, ActKind::Stop, inc, event, Reply::Stopping(work))
            }
        }
    }

    /// Puts down that a pick for the target chose an instance whose program doesn't run, which is shut then.
    /// [`Realm::pick_by`] calls it for an instance that may be picked, where the history has room.
    fn shut(&mut self, caller: u32, target: u64, inc: u64) -> Result<Reply, NoStep>
        requires closing { IsTrue (may_close (world_of self.old).rows target) }
        requires picks { PicksOff (world_of self.old).rows target inc }
        ensures step { IfOk result (λ reply.
            AddsEntry self.old self.new caller (Event.Pick target) reply) }
        ensures same { IfOk result (λ reply. reply ≡ Reply.ShutDown inc) }
        ensures refused { IfErr result (RefusesQuiet self.old) }
        ensures err { OnErr result (self.new ≡ self.old) }
    {
        self.records.book.reserve(1)?;
        self.table.set_shut(inc);
        self.records
            .put_down(caller, Event::Pick(target), Reply::ShutDown(inc), false);
        Ok(Reply::ShutDown(inc))
    }
}
