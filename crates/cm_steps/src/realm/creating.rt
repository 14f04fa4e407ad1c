//! The step that creates a child in a collection: `CreateChild` of `fuchsia.component.Realm`
//! (fuchsia.dev).

ghost use Rattle.std.specs.Prelude.{◌≡◌, IfOk, IfErr, OnOk, OnErr};
ghost use Rattle.cm_world.specs.Create.{IsCreateReply, child_with};
ghost use Rattle.cm_dynamic.specs.Laws.{CanTakeChild};
ghost use Rattle.cm_laws.specs.Story.{world_of, AddsEntry};
ghost use Rattle.cm_steps.specs.Requests.{Steps};
ghost use Rattle.cm_steps.specs.Steps.{RealmHasRoom, RefusesQuiet};
ghost use Rattle.cm_steps.specs.Answers.{CreatesBy};

use super::Realm;
use crate::nostep::NoStep;
use crate::replies::creating::{CreateAnswer, create_answer};
use crate::request::{EventRef, Request};
use crate::rooms::add_row;
use cm_decl::Give;
use cm_laws::trees_stay_sound;
use cm_names::{Boxed, List, Name, Text};
use cm_world::{Event, NewChild, Reply};
use std::alloc::Global;

impl Realm {
    /// Creates a child of an instance in a collection, with a URL, and with offers to it alone:
    /// `Created` with its incarnation. The child isn't resolved. This is `CreateChild` of
    /// `fuchsia.component.Realm`.
    ///
    /// Nothing is created, in this order of trial, with the reply `Gone` where the parent doesn't
    /// live, or it or one above it is being destroyed; `Closing` where it is shut, or it or one
    /// above it is being shut down; `Need` where it isn't resolved; `NoCollection` where it
    /// declares no such collection; `Exists` with the child of that name in it that isn't being
    /// destroyed; `OffersRefused` where the collection takes no offers to one child; `BadOffer`
    /// with the first offer that breaks a rule of a manifest; `Cycle` where the children would
    /// depend on each other in a ring; `Full` where one instance more doesn't fit.
    ///
    /// - `HistoryFull` where one entry more doesn't fit, which is tried first;
    /// - `Memory` where memory runs out.
    pub fn create(
        &mut self,
        alloc: Global,
        caller: u32,
        parent: u64,
        coll: Name,
        name: Name,
        url: Text,
        gives: List<Give>,
    ) -> Result<Reply, NoStep>
        ensures { Steps self.old self.new caller (Event.Create parent (child_with coll name url gives))
            result }
    {
        let request = Request::Create(&coll, &name, &url, &gives);
        self.step(alloc, caller, EventRef::Ask(request, parent))
    }

    /// Makes the step of a create, where there is room.
    pub(super) fn create_at(
        &mut self,
        alloc: Global,
        caller: u32,
        parent: u64,
        child: Boxed<NewChild>,
    ) -> Result<Reply, NoStep>
        ensures step { IfOk result (λ reply.
            AddsEntry self.old self.new caller (Event.Create parent child) reply) }
        ensures refused { IfErr result (RefusesQuiet self.old) }
        ensures err { OnErr result (self.new ≡ self.old) }
    {
        trees_stay_sound();
        let wanted = child.get();
        let offered = wanted.gives.as_slice();
        let answer = create_answer(
            alloc,
            &self.table,
            parent,
            &wanted.coll,
            &wanted.name,
            offered,
        )?;
        self.create_by(alloc, caller, parent, child, answer)
    }

    /// Takes the step that a create comes to.
    fn create_by(
        &mut self,
        alloc: Global,
        caller: u32,
        parent: u64,
        child: Boxed<NewChild>,
        answer: CreateAnswer,
    ) -> Result<Reply, NoStep>
        requires { let w = world_of self.old in
            CreatesBy w.frame.limits.rows w.rows w.next_inc parent child.coll child.name child.gives answer }
        ensures step { IfOk result (λ reply.
            AddsEntry self.old self.new caller (Event.Create parent child) reply) }
        ensures room { OnOk result (RealmHasRoom self.old 1) }
        ensures refused { IfErr result (RefusesQuiet self.old) }
        ensures err { OnErr result (self.new ≡ self.old) }
    {
        match answer {
            CreateAnswer::Quiet(reply) => { self.tell(caller, Event::Create(parent, child), reply) }
            CreateAnswer::Creates => self.add_child(alloc, caller, parent, child),
        }
    }

    /// Puts a new child into the tree, and puts that down.
    fn add_child(
        &mut self,
        alloc: Global,
        caller: u32,
        parent: u64,
        child: Boxed<NewChild>,
    ) -> Result<Reply, NoStep>
        requires creates { let w = world_of self.old in
            IsCreateReply w.frame.limits.rows w.rows w.next_inc parent child.coll child.name child.gives
            (Reply.Created w.next_inc) }
        requires takes { CanTakeChild (world_of self.old).rows parent child.coll child.name }
        ensures step { IfOk result (λ reply.
            AddsEntry self.old self.new caller (Event.Create parent child) reply) }
        ensures room { OnOk result (RealmHasRoom self.old 1) }
        ensures refused { IfErr result (RefusesQuiet self.old) }
        ensures err { OnErr result (self.new ≡ self.old) }
    {
        let NewChild {
            coll,
            name,
            url,
            gives,
        } = child.get();
        let inc = add_row(
            alloc,
            &mut self.table,
            &mut self.records.book,
            parent,
            coll,
            name,
            url,
            gives,
        )?;
        let event = Event::Create(parent, child);
        self.records
            .put_down(caller, event, Reply::Created(inc), false);
        Ok(Reply::Created(inc))
    }
}
