//! The steps that mark an instance to be shut down or destroyed, and that remove it.
//!
//! A destruction is `DestroyChild` of `fuchsia.component.Realm` (fuchsia.dev), in several steps:
//! the child is marked, it is shut down with all below it, and it is removed. That an instance is
//! shut down before it is destroyed is the rule of Fuchsia's component lifecycle documentation.

ghost use Rattle.std.specs.Prelude.{◌≡◌, IsTrue, IfOk, IfErr, OnOk, OnErr, map, if◌then◌else◌};
ghost use Rattle.cm_world.specs.Rows.{is_live, subtree};
ghost use Rattle.cm_world.specs.End.{set_closing, set_doomed};
ghost use Rattle.cm_world.specs.Expiring.{runs_once as once};
ghost use Rattle.cm_world.specs.Marks.{lost_of, mark_reply};
ghost use Rattle.cm_world.specs.Step.{may_purge};
ghost use Rattle.cm_table.specs.Change.{with_changed};
ghost use Rattle.cm_laws.specs.Story.{world_of, AddsEntry};
ghost use Rattle.cm_steps.specs.Requests.{Steps};
ghost use Rattle.cm_steps.specs.Steps.{RealmHasRoom, RefusesQuiet};
ghost use Rattle.cm_steps.specs.Answers.{AnswersMark, AnswersPurge};

use super::Realm;
use crate::expiring;
use crate::nostep::NoStep;
use crate::replies::marking::{MarkAnswer, mark_answer};
use crate::replies::purging::{PurgeAnswer, purge_answer};
use crate::request::{EventRef, Request};
use crate::rooms::copy_in_room;
use cm_laws::trees_stay_sound;
use cm_names::List;
use cm_table::Table;
use cm_world::{Event, Lost, Reply};
use std::alloc::Global;

impl Realm {
    /// Marks an instance to be shut down with all below it, or, where `doom` is true, to be
    /// destroyed, which marks it to be shut down too: `Marked`. From then on picks alone begin an
    /// action there, and no child is created in a collection. A mark to be destroyed is the first
    /// part of `DestroyChild` of `fuchsia.component.Realm`.
    ///
    /// To be shut down: `Gone` where the instance doesn't live, or it or one above it is being
    /// destroyed; `Already` where it itself was marked before. To be destroyed, in this order:
    /// `Gone` where it doesn't live; `Already` where it itself is being destroyed; `Gone` where
    /// one above it is; `NotDynamic` where it is in no collection.
    ///
    /// - `HistoryFull` where one entry more doesn't fit, which is tried first;
    /// - `Memory` where memory runs out.
    pub fn mark(&mut self, caller: u32, doom: bool, inc: u64) -> Result<Reply, NoStep>
        ensures { Steps self.old self.new caller (Event.Mark doom inc) result }
    {
        let alloc = *self.acts.allocator();
        self.step(alloc, caller, EventRef::Ask(Request::Mark(doom), inc))
    }

    /// Makes the step of a mark, where there is room.
    pub(super) fn mark_at(&mut self, caller: u32, doom: bool, inc: u64) -> Result<Reply, NoStep>
        ensures step { IfOk result (λ reply.
            AddsEntry self.old self.new caller (Event.Mark doom inc) reply) }
        ensures refused { IfErr result (RefusesQuiet self.old) }
        ensures err { OnErr result (self.new ≡ self.old) }
    {
        let answer = mark_answer(&self.table, doom, inc);
        self.mark_by(caller, doom, inc, answer)
    }

    /// Takes the step that a mark comes to.
    fn mark_by(
        &mut self,
        caller: u32,
        doom: bool,
        inc: u64,
        answer: MarkAnswer,
    ) -> Result<Reply, NoStep>
        requires { AnswersMark (world_of self.old).rows doom inc answer }
        ensures step { IfOk result (λ reply.
            AddsEntry self.old self.new caller (Event.Mark doom inc) reply) }
        ensures room { OnOk result (RealmHasRoom self.old 1) }
        ensures refused { IfErr result (RefusesQuiet self.old) }
        ensures err { OnErr result (self.new ≡ self.old) }
    {
        match answer {
            MarkAnswer::Quiet(reply) => self.tell(caller, Event::Mark(doom, inc), reply),
            MarkAnswer::Marks => self.put_mark(caller, doom, inc),
        }
    }

    /// Puts down that an instance is marked.
    fn put_mark(&mut self, caller: u32, doom: bool, inc: u64) -> Result<Reply, NoStep>
        requires { mark_reply (world_of self.old).rows doom inc ≡ Reply.Marked }
        ensures step { IfOk result (λ reply.
            AddsEntry self.old self.new caller (Event.Mark doom inc) reply) }
        ensures room { OnOk result (RealmHasRoom self.old 1) }
        ensures refused { IfErr result (RefusesQuiet self.old) }
        ensures err { OnErr result (self.new ≡ self.old) }
    {
        self.records.book.reserve(1)?;
        set_mark(&mut self.table, doom, inc);
        self.records
            .put_down(caller, Event::Mark(doom, inc), Reply::Marked, doom);
        Ok(Reply::Marked)
    }

    /// What is left to be removed of an instance that stopped: `Reaping` with the instance alone
    /// where it itself is being destroyed, and else with its children that are, by their
    /// incarnations; with none where it doesn't live.
    ///
    /// - `HistoryFull` where one entry more doesn't fit, which is tried first;
    /// - `Memory` where memory runs out.
    pub fn reap(&mut self, alloc: Global, caller: u32, inc: u64) -> Result<Reply, NoStep>
        ensures { Steps self.old self.new caller (Event.Reap inc) result }
    {
        self.step(alloc, caller, EventRef::Reap(inc))
    }

    /// Whether an instance lives in a collection that runs each child once (`durability`:
    /// `single_run`).
    pub fn runs_once(&self, inc: u64) -> bool
        ensures { result ≡ once (world_of self.now).rows inc }
    {
        let _acts = &self.acts;
        expiring::runs_once(&self.table, inc)
    }

    /// Removes an instance that is marked to be destroyed and shut with all below it, and all
    /// these with it: `Purged` with each of them, by their incarnations, and where it stood;
    /// `PurgedBefore` where the instance doesn't live any more. This is the last part of
    /// `DestroyChild` of `fuchsia.component.Realm`.
    ///
    /// - `HistoryFull` where one entry more doesn't fit, which is tried first;
    /// - `Memory` where memory runs out.
    pub fn purge(&mut self, alloc: Global, caller: u32, inc: u64) -> Result<Reply, NoStep>
        requires purgeable { IsTrue (may_purge (world_of self.old).rows inc) }
        ensures { Steps self.old self.new caller (Event.Purge inc) result }
    {
        self.step(alloc, caller, EventRef::Purge(inc))
    }

    /// Makes the step of a purge, where there is room.
    pub(super) fn purge_at(&mut self, alloc: Global, caller: u32, inc: u64) -> Result<Reply, NoStep>
        requires purgeable { IsTrue (may_purge (world_of self.old).rows inc) }
        ensures step { IfOk result (λ reply.
            AddsEntry self.old self.new caller (Event.Purge inc) reply) }
        ensures refused { IfErr result (RefusesQuiet self.old) }
        ensures err { OnErr result (self.new ≡ self.old) }
    {
        let answer = purge_answer(alloc, &self.table, inc)?;
        self.purge_by(caller, inc, answer)
    }

    /// Takes the step that a purge comes to.
    fn purge_by(&mut self, caller: u32, inc: u64, answer: PurgeAnswer) -> Result<Reply, NoStep>
        requires purgeable { IsTrue (may_purge (world_of self.old).rows inc) }
        requires answer { AnswersPurge (world_of self.old).rows inc answer }
        ensures step { IfOk result (λ reply.
            AddsEntry self.old self.new caller (Event.Purge inc) reply) }
        ensures room { OnOk result (RealmHasRoom self.old 1) }
        ensures refused { IfErr result (RefusesQuiet self.old) }
        ensures err { OnErr result (self.new ≡ self.old) }
    {
        match answer {
            PurgeAnswer::Before => self.tell(caller, Event::Purge(inc), Reply::PurgedBefore),
            PurgeAnswer::Removes(lost) => self.remove(caller, inc, lost),
        }
    }

    /// Puts down that an instance is removed with all below it. The history keeps a copy of what is
    /// lost, which takes no more than it needs.
    fn remove(&mut self, caller: u32, inc: u64, lost: List<Lost>) -> Result<Reply, NoStep>
        requires purgeable { IsTrue (may_purge (world_of self.old).rows inc) }
        requires lives { IsTrue (is_live (world_of self.old).rows inc) }
        requires lost { let rows = (world_of self.old).rows in
            lost ≡ map (lost_of rows) (subtree rows inc) }
        ensures step { IfOk result (λ reply.
            AddsEntry self.old self.new caller (Event.Purge inc) reply) }
        ensures room { OnOk result (RealmHasRoom self.old 1) }
        ensures refused { IfErr result (RefusesQuiet self.old) }
        ensures err { OnErr result (self.new ≡ self.old) }
    {
        trees_stay_sound();
        let kept = copy_in_room(&mut self.records.book, &lost)?;
        self.table.remove_below(inc);
        self.records
            .put_down(caller, Event::Purge(inc), Reply::Purged(kept), false);
        Ok(Reply::Purged(lost))
    }
}

/// Marks an instance in the tree.
fn set_mark(table: &mut Table, doom: bool, inc: u64)
    ensures { let mark = if doom then set_doomed else set_closing in
        table.new ≡ with_changed inc mark table.old }
{
    if doom {
        table.set_doomed(inc);
    } else {
        table.set_closing(inc);
    }
}
