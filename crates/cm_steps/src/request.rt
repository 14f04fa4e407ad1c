//! What one event asks, lent to the realm.

ghost use Rattle.std.specs.Prelude.{◌≡◌, ℕ};
ghost use Rattle.cm_steps.specs.Needs.{need};
ghost use Rattle.cm_steps.specs.Requests.{event_for, event_of};

use cm_decl::Give;
use cm_names::{CapPath, List, Moniker, Name, Text};
use cm_world::ActKind;

/// What one event asks of an instance, as a command does. What it names is lent, and copied for its entry
/// alone.
#[derive(Clone, Copy)]
pub enum Request<'a> {
    /// To begin an action of this kind, or to join it.
    Begin(ActKind),
    /// To create a child in this collection, of this name and URL, that is offered this alone.
    Create(&'a Name, &'a Name, &'a Text, &'a List<Give>),
    /// To mark it with all below it: to be destroyed (`true`), or to be shut down.
    Mark(bool),
    /// Where what it uses at this path comes from.
    Route(&'a CapPath),
    /// To open what it uses at this path.
    OpenUse(&'a CapPath),
    /// To open what it exposes by this name.
    OpenExposed(&'a Name),
    /// Which children it has in this collection.
    List(&'a Name),
    /// How it is.
    Show,
    /// How it and all below it are.
    Survey,
    /// That its program has ended by itself.
    Exited,
    /// How long the history is, which is read from this place.
    Tail(u64),
}

/// An event that one step makes, but for those that end an action or await its end.
#[derive(Clone, Copy)]
pub enum EventRef<'a> {
    /// This, of the instance of this incarnation.
    Ask(Request<'a>, u64),
    /// To find the instance at this moniker.
    Find(&'a Moniker),
    /// To go on with the shutdown of this instance.
    Pick(u64),
    /// To remove this instance, which is shut with all below it.
    Purge(u64),
    /// To be told what is left to be removed of this instance, which stopped.
    Reap(u64),
}

/// How many entries a request needs room for.
fn need_for(request: Request<'_>) -> u32
    ensures { (i : ℕ) → result ≡ need (event_for request.entry i) }
{
    match request {
        Request::Begin(_) => 2,
        Request::Create(_, _, _, _)
        | Request::Mark(_)
        | Request::Route(_)
        | Request::OpenUse(_)
        | Request::OpenExposed(_)
        | Request::List(_)
        | Request::Show
        | Request::Survey
        | Request::Exited
        | Request::Tail(_) => 1,
    }
}

/// How many entries an event needs room for.
pub(crate) fn need_of(event: EventRef<'_>) -> u32
    ensures { result ≡ need (event_of event.entry) }
{
    match event {
        EventRef::Ask(request, _) => need_for(request),
        EventRef::Pick(_) => 2,
        EventRef::Find(_) | EventRef::Purge(_) | EventRef::Reap(_) => 1,
    }
}
