//! The step that an event of a journal comes to.

ghost use Rattle.std.specs.Prelude.{◌≡◌, ◌≢◌, ℕ, IfErr, IfOk, IsOk};
ghost use Rattle.cm_world.specs.declared.action.Finish.{Finish as Ends};
ghost use Rattle.cm_world.specs.End.{HasValid};
ghost use Rattle.cm_world.specs.Step.{IsEnabled, MayAwait, MayEnd};
ghost use Rattle.cm_laws.specs.Story.{world_of, AddsEntry};
ghost use Rattle.cm_steps.specs.Ends.{finish_of};
ghost use Rattle.cm_steps.specs.Needs.{need};
ghost use Rattle.cm_steps.specs.Requests.{event_for, event_of};
ghost use Rattle.cm_steps.specs.Steps.{RefusesStep};
ghost use Rattle.cm_audit.specs.Reading.{BringsNothing, TakesNoMemory};

use cm_names::Memory;
use cm_steps::{Ending, EventRef, NoStep, Realm, Request};
use cm_table::Prepared;
use cm_world::{Event, Finish, NewChild, Reply};
use std::alloc::Global;

/// Makes the step of an event that its caller may make now. What the event names is copied for the
/// realm's history.
///
/// `Err` where memory runs out. An event that may be made waits for no action, and no journal within
/// its limit has as many entries as the realm takes, so nothing else keeps a step from being made. An
/// await, and an end that brings no declaration, take no memory.
pub fn make_step(
    alloc: Global,
    realm: &mut Realm,
    caller: u32,
    event: &Event,
) -> Result<Reply, NoStep>
    requires { IsEnabled (world_of realm.old) caller event.now }
    ensures step { IfOk result (λ reply. AddsEntry realm.old realm.new caller event.now reply) }
    ensures refused { IfErr result (RefusesStep realm.old (need event.now) (λ a. ⊥)) }
    ensures free { TakesNoMemory event.now → IsOk result }
{
    match event {
        Event::End(action, finish) => Ok(end(alloc, realm, caller, *action, finish)?),
        Event::Await(action) => Ok(await_end(realm, caller, *action)),
        _ => realm.step(alloc, caller, lent(event)),
    }
}

/// An event that doesn't end an action, nor take its outcome, as it is lent to a realm.
fn lent(event: &Event) -> EventRef<'_>
    requires open { (action : ℕ) (finish : Ends) → event.now ≢ Event.End action finish }
    requires joined { (action : ℕ) → event.now ≢ Event.Await action }
    ensures { event_of result ≡ event.now }
{
    match event {
        Event::Find(moniker) => EventRef::Find(moniker),
        Event::Begin(kind, inc) => EventRef::Ask(Request::Begin(*kind), *inc),
        Event::End(_, _) => unreachable!(),
        Event::Await(_) => unreachable!(),
        Event::Create(parent, child) => EventRef::Ask(creation(child.get()), *parent),
        Event::Mark(doom, inc) => EventRef::Ask(Request::Mark(*doom), *inc),
        Event::Pick(target) => EventRef::Pick(*target),
        Event::Purge(inc) => EventRef::Purge(*inc),
        Event::Route(inc, path) => EventRef::Ask(Request::Route(path), *inc),
        Event::OpenUse(inc, path) => EventRef::Ask(Request::OpenUse(path), *inc),
        Event::OpenExposed(inc, name) => EventRef::Ask(Request::OpenExposed(name), *inc),
        Event::Listing(inc, coll) => EventRef::Ask(Request::List(coll), *inc),
        Event::Show(inc) => EventRef::Ask(Request::Show, *inc),
        Event::Survey(inc) => EventRef::Ask(Request::Survey, *inc),
        Event::Exited(inc) => EventRef::Ask(Request::Exited, *inc),
        Event::Tail(inc, from) => EventRef::Ask(Request::Tail(*from), *inc),
        Event::Reap(inc) => EventRef::Reap(*inc),
    }
}

/// The creation of a child, as it is lent to a realm.
fn creation(child: &NewChild) -> Request<'_>
    ensures { (parent : ℕ) → event_for result parent ≡ Event.Create parent child.now }
{
    Request::Create(&child.coll, &child.name, &child.url, &child.gives)
}

/// How an action ends that may end so. A declaration is shared with the event.
fn ending_of(alloc: Global, finish: &Finish) -> Result<Ending, Memory>
    requires { HasValid finish.now }
    ensures same { IfOk result (λ ending. finish_of ending ≡ finish.now) }
    ensures free { BringsNothing finish.now → IsOk result }
{
    match finish {
        Finish::Resolved(url, decl) => {
            let decl = decl.clone()?;
            let url = url.clone()?;
            Ok(Ending::Resolved(Prepared::of(alloc, decl, url)?))
        }
        Finish::Other(outcome) => Ok(Ending::Other(*outcome)),
    }
}

/// Ends an action that may be ended so.
fn end(
    alloc: Global,
    realm: &mut Realm,
    caller: u32,
    action: u64,
    finish: &Finish,
) -> Result<Reply, Memory>
    requires { MayEnd (world_of realm.old).acts caller action finish.now }
    ensures step { IfOk result
        (λ reply. AddsEntry realm.old realm.new caller (Event.End action finish.now) reply) }
    ensures free { BringsNothing finish.now → IsOk result }
{
    let ending = ending_of(alloc, finish)?;
    Ok(realm.end(caller, action, ending))
}

/// Takes the outcome of an action whose outcome may be taken.
fn await_end(realm: &mut Realm, caller: u32, action: u64) -> Reply
    requires { let w = world_of realm.old in MayAwait w.acts w.joins caller action }
    ensures { AddsEntry realm.old realm.new caller (Event.Await action) result }
{
    match realm.await_end(caller, action) {
        Some(reply) => reply,
        None => unreachable!(),
    }
}
