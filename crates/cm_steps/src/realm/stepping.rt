//! The step of an event, whatever it asks.

ghost use Rattle.std.specs.Prelude.{◌≡◌, IfOk, IfErr, OnErr};
ghost use Rattle.cm_world.specs.Create.{child_with};
ghost use Rattle.cm_laws.specs.Story.{world_of, AddsEntry};
ghost use Rattle.cm_steps.specs.Needs.{need};
ghost use Rattle.cm_steps.specs.Requests.{Steps, TreeAllows, RefusesEvent, event_for, event_of};
ghost use Rattle.cm_steps.specs.Steps.{RealmHasRoom};

use super::Realm;
use crate::asking::Asking;
use crate::nostep::NoStep;
use crate::replies::reaping::reap_reply;
use crate::replies::showing::shown;
use crate::request::{EventRef, Request, need_of};
use crate::told::survey_told;
use cm_decl::Give;
use cm_decl::copies::four;
use cm_names::{Boxed, List, Memory, Name, Text};
use cm_world::{Event, NewChild, Reply};
use std::alloc::Global;

/// What a child is created with, as copies. `Err` where memory runs out.
fn child_of(
    alloc: Global,
    coll: &Name,
    name: &Name,
    url: &Text,
    gives: &List<Give>,
) -> Result<Boxed<NewChild>, Memory>
    ensures { IfOk result (λ child. child ≡ child_with coll.now name.now url.now gives.now) }
{
    let (coll, name, url, gives) = four(coll, name, url, gives)?;
    Boxed::new(
        alloc,
        NewChild {
            coll,
            name,
            url,
            gives,
        },
    )
}

impl Realm {
    /// Makes an event, and hands its reply back. What the event names is copied for its entry. The target
    /// of a pick doesn't live, or it or one above it is being shut down; what is purged doesn't live, or it
    /// is marked to be destroyed and shut with all below it. What an event comes to is said at the call for
    /// this event alone.
    ///
    /// - `Busy` with the number of the action that the event has to wait for;
    /// - `HistoryFull` where the entries that it needs don't fit, which is tried first;
    /// - `Memory` where memory runs out.
    pub fn step(&mut self, alloc: Global, caller: u32, event: EventRef<'_>) -> Result<Reply, NoStep>
        requires { TreeAllows (world_of self.old) (event_of event) }
        ensures { Steps self.old self.new caller (event_of event.entry) result }
    {
        if !self.has_room(need_of(event)) {
            return Err(NoStep::HistoryFull);
        }
        self.step_in_room(alloc, caller, event)
    }

    /// Makes an event for which there is room.
    fn step_in_room(
        &mut self,
        alloc: Global,
        caller: u32,
        event: EventRef<'_>,
    ) -> Result<Reply, NoStep>
        requires allowed { TreeAllows (world_of self.old) (event_of event) }
        requires room { RealmHasRoom self.old (need (event_of event)) }
        ensures step { IfOk result (λ reply.
            AddsEntry self.old self.new caller (event_of event.entry) reply) }
        ensures refused { IfErr result (RefusesEvent self.old (event_of event.entry)) }
        ensures err { OnErr result (self.new ≡ self.old) }
    {
        match event {
            EventRef::Ask(request, inc) => self.ask_in_room(alloc, caller, request, inc),
            EventRef::Find(moniker) => self.find_at(alloc, caller, moniker.clone()?),
            EventRef::Pick(target) => self.pick_at(alloc, caller, target),
            EventRef::Purge(inc) => self.purge_at(alloc, caller, inc),
            EventRef::Reap(inc) => {
                let reply = reap_reply(alloc, &self.table, inc)?;
                self.tell(caller, Event::Reap(inc), reply)
            }
        }
    }

    /// Makes the event of a request for which there is room.
    fn ask_in_room(
        &mut self,
        alloc: Global,
        caller: u32,
        request: Request<'_>,
        inc: u64,
    ) -> Result<Reply, NoStep>
        requires room { RealmHasRoom self.old (need (event_for request inc)) }
        ensures step { IfOk result (λ reply.
            AddsEntry self.old self.new caller (event_for request.entry inc) reply) }
        ensures refused { IfErr result (RefusesEvent self.old (event_for request.entry inc)) }
        ensures err { OnErr result (self.new ≡ self.old) }
    {
        match request {
            Request::Begin(kind) => self.begin_at(alloc, caller, kind, inc),
            Request::Create(coll, name, url, gives) => {
                let child = child_of(alloc, coll, name, url, gives)?;
                self.create_at(alloc, caller, inc, child)
            }
            Request::Mark(doom) => self.mark_at(caller, doom, inc),
            Request::Route(path) => self.ask(alloc, caller, Asking::Route, inc, path),
            Request::OpenUse(path) => self.ask(alloc, caller, Asking::Opening, inc, path),
            Request::OpenExposed(name) => self.open_exposed_at(alloc, caller, inc, name),
            Request::List(coll) => self.list_at(alloc, caller, inc, coll),
            Request::Show => {
                let reply = shown(alloc, &self.table, inc)?;
                self.tell(caller, Event::Show(inc), reply)
            }
            Request::Survey => {
                let reply = survey_told(alloc, &self.table, &mut self.records.last, inc)?;
                self.tell(caller, Event::Survey(inc), reply)
            }
            Request::Exited => self.exit_at(alloc, caller, inc),
            Request::Tail(from) => self.tail_at(caller, inc, from),
        }
    }
}
